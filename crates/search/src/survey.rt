// The survey: the least cost from one node to every other, by the one-way steps with no bounds and no goal.
ghost use Rattle.std.specs.Prelude.{◌≡◌, ◌<◌, ◌≤◌, map, length, MatchResult, OnOk};
ghost use Rattle.search.specs.Answer.{LeastExist};
ghost use Rattle.search.specs.Lists.{onto};
ghost use Rattle.search.specs.Steps.{count_scanned, label_of};
ghost use Rattle.search.specs.Survey.{survey};
ghost use Rattle.search.specs.Surveyed.{survey_fault, Surveyed, CostsLeast};
ghost use Rattle.std.specs.Result.{result_err};

use crate::check::{check_node, check_queue, check_room};
use crate::entry::Entry;
use crate::fault::SearchFault;
use crate::one_way::{Ending, run};
use crate::row::Row;
use cost::kind::CostKind;
use plant::lawful::Lawful;
use plant::layers::blind::Blind;
use plant::plant::Plant;
use plant::sound::Sound;

// Writes the label of each row over the front of the list.
fn write_labels<C: CostKind>(rows: &[Row<C>], costs: &mut [C])
    requires { length rows.now ≤ length costs.old }
    ensures { costs.new ≡ onto (map label_of rows.now) costs.old }
{
    // by index: after a zip with `iter_mut` a proof knows nothing of the list
    for (i, row) in rows.iter().enumerate() {
        costs[i] = row.label;
    }
}

// The survey over as many rows as there are nodes. Its facts are those that the call has tested.
fn explore<P: Lawful>(
    plant: &P,
    start: u32,
    rows: &mut [Row<P::Cost>],
    slots: &mut [Entry<P::Cost>],
    costs: &mut [P::Cost],
) -> u32
    requires rows { length rows.old ≡ (P.Plant.floor plant.now).nodes }
    requires start { start < (P.Plant.floor plant.now).nodes }
    requires room { length (P.Plant.floor plant.now).lanes < length slots.old }
    requires costs { (P.Plant.floor plant.now).nodes ≤ length costs.old }
    ensures rows { rows.new ≡ survey P.Cost.CostKind.kind (P.Plant.floor plant.now) start }
    ensures count { result ≡ count_scanned (survey P.Cost.CostKind.kind (P.Plant.floor plant.now) start) }
    ensures costs { costs.new ≡ onto (map label_of (survey P.Cost.CostKind.kind (P.Plant.floor plant.now) start)) costs.old }
{
    // no node has this number, so no step ends the survey early; an `Option` would be tested at each step
    let nowhere = plant.node_count();
    let blind = Blind { below: plant };
    let Ending { scanned, .. } = run(&blind, start, nowhere, rows, slots);
    write_labels(rows, costs);
    scanned
}

// Finds the least cost from `start` to every node.
pub fn survey_from<P: Plant>(
    plant: &P,
    start: u32,
    rows: &mut [Row<P::Cost>],
    queue: &mut [Entry<P::Cost>],
    costs: &mut [P::Cost],
) -> Result<u32, SearchFault>
    ensures fault { result_err result ≡ survey_fault (P.Plant.floor plant.now) start (length rows.old) (length queue.old) (length costs.old) }
    ensures surveyed { MatchResult result (λ n. Surveyed P.Cost.CostKind.kind (P.Plant.floor plant.now) start rows.old rows.new costs.old costs.new n) (λ _. (rows.new ≡ rows.old) × (queue.new ≡ queue.old) × (costs.new ≡ costs.old)) }
    ensures least { OnOk result (CostsLeast P.Cost.CostKind.kind (P.Plant.floor plant.now) start costs.new × LeastExist P.Cost.CostKind.kind (P.Plant.floor plant.now)) }
{
    check_node(plant, start, SearchFault::Start(start))?;
    check_room(plant, rows, SearchFault::Rows)?;
    check_queue(plant, queue)?;
    check_room(plant, costs, SearchFault::Costs)?;
    let n = plant.node_count() as usize;
    // it has been asked, and so is lawful
    let sound = Sound { below: plant };
    Ok(explore(&sound, start, &mut rows[0..n], queue, costs))
}
