// The tests of what a search is called with.
ghost use Rattle.std.specs.Prelude.{◌≡◌, length};
ghost use Rattle.std.specs.Result.{result_err};
ghost use Rattle.search.specs.Faults.{node_fault, room_fault, queue_fault};

use crate::entry::Entry;
use crate::fault::SearchFault;
use plant::plant::Plant;

// Whether `node` is a node of the plant.
pub(crate) fn check_node<P: Plant>(
    plant: &P,
    node: u32,
    fault: SearchFault,
) -> Result<(), SearchFault>
    ensures { result_err result ≡ node_fault (P.Plant.floor plant.now) node fault }
{
    if node < plant.node_count() {
        Ok(())
    } else {
        Err(fault)
    }
}

// Whether an area has a place for each node.
pub(crate) fn check_room<P: Plant, T>(
    plant: &P,
    area: &[T],
    fault: SearchFault,
) -> Result<(), SearchFault>
    ensures { result_err result ≡ room_fault (P.Plant.floor plant.now) (length area.now) fault }
{
    if area.len() < plant.node_count() as usize {
        Err(fault)
    } else {
        Ok(())
    }
}

// Whether a queue has a place for each lane, and one for the start.
pub(crate) fn check_queue<P: Plant>(plant: &P, queue: &[Entry<P::Cost>]) -> Result<(), SearchFault>
    ensures { result_err result ≡ queue_fault (P.Plant.floor plant.now) (length queue.now) }
{
    if queue.len() <= plant.lane_count() as usize {
        Err(SearchFault::Queue)
    } else {
        Ok(())
    }
}
