// The two sides of a two-way search by turns, from the first to the last.
ghost use Rattle.std.specs.Prelude.{◌≡◌, ◌<◌, length};
ghost use Rattle.search.specs.TwoWay.{first_met, two_way};

use crate::entry::Entry;
use crate::meeting::Meeting;
use crate::row::Row;
use crate::side::Side;
use cost::kind::CostKind;
use plant::lawful::Lawful;
use plant::layers::turned::Turned;
use queue::Queue;

// Where the sides meet before the first turn.
fn first_meeting<C: CostKind>(start: u32, goal: u32) -> Meeting<C>
    ensures { result ≡ first_met C.CostKind.kind start goal }
{
    if start == goal {
        return Meeting {
            cost: C::zero(),
            node: start,
        };
    }
    Meeting {
        cost: C::beyond(),
        node: 0,
    }
}

// Searches from `start` and, over the lanes turned round, from `goal`: by turns, the near side's first, until a side has none.
// Its facts are those that the call has tested.
pub(crate) fn run_both<P: Lawful>(
    plant: &P,
    start: u32,
    goal: u32,
    rows: &mut [Row<P::Cost>],
    slots: &mut [Entry<P::Cost>],
    back: &mut [Row<P::Cost>],
    back_slots: &mut [Entry<P::Cost>],
) -> Meeting<P::Cost>
    requires start { start < (P.Plant.floor plant.now).nodes }
    requires goal { goal < (P.Plant.floor plant.now).nodes }
    requires rows { length rows.old ≡ (P.Plant.floor plant.now).nodes }
    requires back { length back.old ≡ (P.Plant.floor plant.now).nodes }
    requires room { length (P.Plant.floor plant.now).lanes < length slots.old }
    requires space { length (P.Plant.floor plant.now).lanes < length back_slots.old }
    ensures rows { rows.new ≡ (two_way P.Cost.CostKind.kind (P.Plant.floor plant.now) start goal).near.rows }
    ensures back { back.new ≡ (two_way P.Cost.CostKind.kind (P.Plant.floor plant.now) start goal).far.rows }
    ensures met { result ≡ (two_way P.Cost.CostKind.kind (P.Plant.floor plant.now) start goal).met }
    ensures within { result.node < (P.Plant.floor plant.now).nodes }
{
    let turned = Turned { below: plant };
    let mut queue = Queue::new(slots);
    let mut back_queue = Queue::new(back_slots);
    let mut near = Side::begin(plant, start, goal, rows, &mut queue);
    let mut far = Side::begin(&turned, goal, start, back, &mut back_queue);
    let mut met = first_meeting(start, goal);
    let mut back_last = P::Cost::zero();
    // a bound and no index: two turns for each node, and one more, are enough
    for _ in 0..plant.node_count() {
        let Some(ours) = near.take_turn(&far, back_last, met) else {
            return met;
        };
        let Some(theirs) = far.take_turn(&near, ours.last, ours.met) else {
            return ours.met;
        };
        back_last = theirs.last;
        met = theirs.met;
    }
    // tried as a `map_or`: the equation with the last turn stayed open
    match near.take_turn(&far, back_last, met) {
        Some(ours) => ours.met,
        None => met,
    }
}
