// The one-way search: A* from the start, step by step until the goal is the next node, or none is left.
ghost use Rattle.std.specs.Prelude.{◌≡◌, suc, ◌+◌, ◌^◌, ◌<◌, ◌≤◌, length, take, IfOk, MatchResult};
ghost use Rattle.search.specs.Steps.{count_scanned};
ghost use Rattle.search.specs.OneWay.{one_from, one_way};
ghost use Rattle.search.specs.Sides.{floor_of, IsReady};
ghost use Rattle.search.specs.Answer.{Right};
ghost use Rattle.search.specs.Lists.{onto};
ghost use Rattle.search.specs.Searched.{fault_of, one_answer, one_nodes, cost_of, node_count_of, Searched};
ghost use Rattle.std.specs.Result.{result_err};

use crate::answer::{Answer, Route};
use crate::check::{check_node, check_queue, check_room};
use crate::entry::Entry;
use crate::fault::SearchFault;
use crate::row::{Row, State};
use crate::rows::mark_as;
use crate::side::Side;
use crate::walk_back::write_route;
use crate::watch::Nobody;
use cost::kind::CostKind;
use plant::lawful::Lawful;
use plant::plant::Plant;
use plant::sound::Sound;
use queue::Queue;

// What a search ends with. A struct and no pair: its callers name the part that they need.
#[derive(Clone, Copy)]
pub(crate) struct Ending<C> {
    pub cost: C,
    pub scanned: u32,
}

// Scans the nodes one after another, until the target is the next, or none is left.
fn scan_all<P: Lawful>(side: &mut Side<P>) -> Ending<P::Cost>
    requires ready { IsReady side.old }
    requires few { (floor_of side.old).nodes < 2 ^ 32 }
    requires fresh { count_scanned side.old.rows.now ≡ 0 }
    ensures rows { side.new.rows.now ≡ (one_from P.Cost.CostKind.kind (floor_of side.old) side.old.target (suc (floor_of side.old).nodes) side.old.rows.now).rows }
    ensures cost { result.cost ≡ (one_from P.Cost.CostKind.kind (floor_of side.old) side.old.target (suc (floor_of side.old).nodes) side.old.rows.now).cost }
    ensures scanned { result.scanned ≡ count_scanned side.new.rows.now }
    ensures named { side.new.rows.ghost_name ≡ side.old.rows.ghost_name }
{
    let mut scanned = 0;
    while let Some(e) = side.next_live() {
        if P::Cost::beyond().at_most(e.key) {
            break;
        }
        if e.node == side.target {
            return Ending {
                cost: e.label,
                scanned,
            };
        }
        mark_as(side.rows, e.node, State::Scanned);
        side.follow_out(e.label, e.node, &mut Nobody);
        scanned += 1;
    }
    Ending {
        cost: P::Cost::beyond(),
        scanned,
    }
}

// Scans from `start` on. Its facts are the call's, as in `find`.
pub(crate) fn run<P: Lawful>(
    plant: &P,
    start: u32,
    goal: u32,
    rows: &mut [Row<P::Cost>],
    slots: &mut [Entry<P::Cost>],
) -> Ending<P::Cost>
    requires rows { length rows.old ≡ (P.Plant.floor plant.now).nodes }
    requires few { length rows.old < 2 ^ 32 }
    requires start { start < (P.Plant.floor plant.now).nodes }
    requires room { length (P.Plant.floor plant.now).lanes < length slots.old }
    ensures rows { rows.new ≡ (one_way P.Cost.CostKind.kind (P.Plant.floor plant.now) start goal).rows }
    ensures cost { result.cost ≡ (one_way P.Cost.CostKind.kind (P.Plant.floor plant.now) start goal).cost }
    ensures scanned { result.scanned ≡ count_scanned rows.new }
{
    let mut queue = Queue::new(slots);
    let mut side = Side::begin(plant, start, goal, rows, &mut queue);
    scan_all(&mut side)
}

// The search over as many rows as there are nodes.
// Its facts are those that `one_way` has tested: a type that holds them would be made here and taken apart in the next line.
fn find<P: Lawful>(
    plant: &P,
    start: u32,
    goal: u32,
    rows: &mut [Row<P::Cost>],
    slots: &mut [Entry<P::Cost>],
    route: &mut [u32],
) -> Answer<P::Cost, u32>
    requires rows { length rows.old ≡ (P.Plant.floor plant.now).nodes }
    requires few { length rows.old < 2 ^ 32 }
    requires start { start < (P.Plant.floor plant.now).nodes }
    requires goal { goal < (P.Plant.floor plant.now).nodes }
    requires room { length (P.Plant.floor plant.now).lanes < length slots.old }
    requires route { (P.Plant.floor plant.now).nodes ≤ length route.old }
    ensures rows { rows.new ≡ (one_way P.Cost.CostKind.kind (P.Plant.floor plant.now) start goal).rows }
    ensures answer { result ≡ one_answer P.Cost.CostKind.kind (P.Plant.floor plant.now) start goal }
    ensures route { route.new ≡ onto (one_nodes P.Cost.CostKind.kind (P.Plant.floor plant.now) start goal) route.old }
{
    let Ending { cost, scanned } = run(plant, start, goal, rows, slots);
    if P::Cost::beyond().at_most(cost) {
        return Answer {
            scanned,
            route: None,
        };
    }
    let nodes = write_route(plant, start, goal, rows, route) as u32;
    Answer {
        scanned,
        route: Some(Route { cost, nodes }),
    }
}

// Finds a cheapest route from `start` to `goal`.
pub fn one_way<P: Plant>(
    plant: &P,
    start: u32,
    goal: u32,
    rows: &mut [Row<P::Cost>],
    queue: &mut [Entry<P::Cost>],
    route: &mut [u32],
) -> Result<Answer<P::Cost, u32>, SearchFault>
    ensures fault { result_err result ≡ fault_of (P.Plant.floor plant.now) start goal (length rows.old) (length queue.old) (length route.old) }
    ensures searched { MatchResult result (λ a. Searched P.Cost.CostKind.kind (P.Plant.floor plant.now) start goal rows.old rows.new route.old route.new a) (λ _. (rows.new ≡ rows.old) × (queue.new ≡ queue.old) × (route.new ≡ route.old)) }
    ensures right { IfOk result (λ a. Right P.Cost.CostKind.kind (P.Plant.floor plant.now) start goal (cost_of P.Cost.CostKind.kind a) (take (node_count_of a) route.new) (take (P.Plant.floor plant.now).nodes rows.new)) }
{
    check_node(plant, start, SearchFault::Start(start))?;
    check_node(plant, goal, SearchFault::Goal(goal))?;
    check_room(plant, rows, SearchFault::Rows)?;
    check_queue(plant, queue)?;
    check_room(plant, route, SearchFault::Route)?;
    let n = plant.node_count() as usize;
    // it has been asked, and so is lawful
    let sound = Sound { below: plant };
    Ok(find(&sound, start, goal, &mut rows[0..n], queue, route))
}
