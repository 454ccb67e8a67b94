// The two-way search: from the start and from the goal by turns, until no node can better the best route met.
ghost use Rattle.std.specs.Prelude.{◌≡◌, ◌<◌, ◌≤◌, length, take, IfOk, MatchResult};
ghost use Rattle.search.specs.Answer.{RightBoth};
ghost use Rattle.search.specs.Lists.{onto};
ghost use Rattle.search.specs.Searched.{cost_of, node_count_of};
ghost use Rattle.search.specs.SearchedBoth.{two_fault, two_answer, two_nodes, SearchedBoth};
ghost use Rattle.search.specs.TwoWay.{two_way};
ghost use Rattle.std.specs.Result.{result_err};

use crate::answer::{Answer, Both, Route};
use crate::check::{check_node, check_queue, check_room};
use crate::entry::Entry;
use crate::fault::SearchFault;
use crate::meeting::Meeting;
use crate::route_both::write_both;
use crate::row::Row;
use crate::scanned::scanned_of;
use crate::two_sides::run_both;
use cost::kind::CostKind;
use plant::lawful::Lawful;
use plant::plant::Plant;
use plant::sound::Sound;

// The search over as many rows of each side as there are nodes. As in `one_way`, its facts are those that the call has tested.
// Beside `find` of the one-way search: the two run, count and write by other functions; what they share is the test of beyond and how an answer is made.
fn find_both<P: Lawful>(
    plant: &P,
    start: u32,
    goal: u32,
    rows: &mut [Row<P::Cost>],
    back: &mut [Row<P::Cost>],
    slots: &mut [Entry<P::Cost>],
    back_slots: &mut [Entry<P::Cost>],
    route: &mut [u32],
) -> Answer<P::Cost, Both>
    requires start { start < (P.Plant.floor plant.now).nodes }
    requires goal { goal < (P.Plant.floor plant.now).nodes }
    requires rows { length rows.old ≡ (P.Plant.floor plant.now).nodes }
    requires back { length back.old ≡ (P.Plant.floor plant.now).nodes }
    requires room { length (P.Plant.floor plant.now).lanes < length slots.old }
    requires space { length (P.Plant.floor plant.now).lanes < length back_slots.old }
    requires route { (P.Plant.floor plant.now).nodes ≤ length route.old }
    ensures rows { rows.new ≡ (two_way P.Cost.CostKind.kind (P.Plant.floor plant.now) start goal).near.rows }
    ensures back { back.new ≡ (two_way P.Cost.CostKind.kind (P.Plant.floor plant.now) start goal).far.rows }
    ensures answer { result ≡ two_answer P.Cost.CostKind.kind (P.Plant.floor plant.now) start goal }
    ensures route { route.new ≡ onto (two_nodes P.Cost.CostKind.kind (P.Plant.floor plant.now) start goal) route.old }
{
    let Meeting { cost, node } = run_both(plant, start, goal, rows, slots, back, back_slots);
    let ours = scanned_of(rows);
    let theirs = scanned_of(back);
    let scanned = Both {
        forward: ours,
        back: theirs,
    };
    if P::Cost::beyond().at_most(cost) {
        return Answer {
            scanned,
            route: None,
        };
    }
    let nodes = write_both(plant, start, goal, node, rows, back, route) as u32;
    Answer {
        scanned,
        route: Some(Route { cost, nodes }),
    }
}

// Finds a cheapest route from `start` to `goal`, searching from both ends.
pub fn two_way<P: Plant>(
    plant: &P,
    start: u32,
    goal: u32,
    rows: &mut [Row<P::Cost>],
    back: &mut [Row<P::Cost>],
    queue: &mut [Entry<P::Cost>],
    back_queue: &mut [Entry<P::Cost>],
    route: &mut [u32],
) -> Result<Answer<P::Cost, Both>, SearchFault>
    ensures fault { result_err result ≡ two_fault (P.Plant.floor plant.now) start goal (length rows.old) (length back.old) (length queue.old) (length back_queue.old) (length route.old) }
    ensures searched { MatchResult result (λ a. SearchedBoth P.Cost.CostKind.kind (P.Plant.floor plant.now) start goal rows.old rows.new back.old back.new route.old route.new a) (λ _. (rows.new ≡ rows.old) × (back.new ≡ back.old) × (queue.new ≡ queue.old) × (back_queue.new ≡ back_queue.old) × (route.new ≡ route.old)) }
    ensures right { IfOk result (λ a. RightBoth P.Cost.CostKind.kind (P.Plant.floor plant.now) start goal (cost_of P.Cost.CostKind.kind a) (take (node_count_of a) route.new) (take (P.Plant.floor plant.now).nodes rows.new) (take (P.Plant.floor plant.now).nodes back.new)) }
{
    check_node(plant, start, SearchFault::Start(start))?;
    check_node(plant, goal, SearchFault::Goal(goal))?;
    check_room(plant, rows, SearchFault::Rows)?;
    check_room(plant, back, SearchFault::Rows)?;
    check_queue(plant, queue)?;
    check_queue(plant, back_queue)?;
    check_room(plant, route, SearchFault::Route)?;
    let n = plant.node_count() as usize;
    // it has been asked, and so is lawful
    let sound = Sound { below: plant };
    Ok(find_both(
        &sound,
        start,
        goal,
        &mut rows[0..n],
        &mut back[0..n],
        queue,
        back_queue,
        route,
    ))
}
