// How much there is of a plant.
ghost use Rattle.std.specs.Prelude.{◌≡◌, true, false, MatchResult};
ghost use Rattle.format.specs.Space.{room_for};

use crate::fault::ReadFault;

// The counts of a plant, or the most that a caller allows of each.
#[derive(Clone, Copy, PartialEq, Eq, Debug)]
pub struct Counts {
    pub nodes: u32,
    pub lanes: u32,
    pub landmarks: u32,
}

// The length of the shortest of the lists that have an entry for each lane, each node and one more, and each landmark and node.
#[derive(Clone, Copy)]
pub(crate) struct Space {
    pub lanes: usize,
    pub firsts: usize,
    pub tables: usize,
}

// Whether the counts are within the limits and the lists are long enough.
fn has_room(counts: Counts, room: Counts, space: Space) -> bool
    ensures { result ≡ room_for counts room space }
{
    counts.nodes <= room.nodes
        && counts.lanes <= room.lanes
        && counts.landmarks <= room.landmarks
        && counts.lanes as usize <= space.lanes
        && (counts.nodes as usize) < space.firsts
        && counts.landmarks as usize * counts.nodes as usize <= space.tables
}

// Tests that there is room.
pub(crate) fn check_room(counts: Counts, room: Counts, space: Space) -> Result<(), ReadFault>
    ensures { MatchResult result (λ _. room_for counts room space ≡ true) (λ f. (f ≡ ReadFault.Short) × (room_for counts room space ≡ false)) }
{
    if has_room(counts, room, space) {
        Ok(())
    } else {
        Err(ReadFault::Short)
    }
}
