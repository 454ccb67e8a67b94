// Why a search is refused.

// The first thing that is wrong with a call.
#[derive(Clone, Copy, PartialEq, Eq, Debug)]
pub enum SearchFault {
    // the start, or the goal, is no node
    Start(u32),
    Goal(u32),
    // a work area is too short
    Rows,
    Queue,
    Route,
    Costs,
    Replies,
}
