// A priority queue over slots of the caller, for every entry type with a rank of its own, or with an `Ord` by `ByOrd`. The first in that order comes out first.
#![tactic(auto)]

mod by_ord;
mod by_rank;
mod heap;
mod operations;
mod ranked;
mod sift;

pub use by_ord::ByOrd;
pub use by_rank::ByRank;
pub use heap::Queue;
pub use ranked::Ranked;
