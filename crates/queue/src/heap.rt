// The queue itself; it stands alone so that specifications can name it.
ghost use Rattle.std.specs.Prelude.{◌≤◌, length};
ghost use Rattle.queue.specs.Order.{Heap};

use crate::ranked::Ranked;

// A priority queue: the first `len` slots are a binary heap, in the order of the entries' rank.
// The caller lends the slots, since nothing here allocates, and so a length stands beside them.
#[derive(Drop)]
pub struct Queue<'a, E: Ranked> {
    pub(crate) slots: &'a mut [E],
    pub(crate) len: usize,
    ghost fits: { len ≤ length slots.now },
    ghost heap: { Heap E.Ranked.ahead slots.now 0 len },
}
