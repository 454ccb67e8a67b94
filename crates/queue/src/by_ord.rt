// An entry in the order of its `Ord`, for the queue, which goes by `Ranked`.
ghost use Rattle.queue.specs.Orders.{by_ord, by_ord_ranks};

use crate::ranked::Ranked;

// An entry ranked by its `Ord`.
#[derive(Clone, Copy)]
pub struct ByOrd<E>(pub E);

impl<E: Ord + Copy> Ranked for ByOrd<E> {
    ghost ahead = { by_ord E.cmp };

    ghost total = { (by_ord_ranks E.Ord.total).total };

    ghost chain = { (by_ord_ranks E.Ord.total).chain };

    fn at_most(&self, other: &ByOrd<E>) -> bool {
        self.0 <= other.0
    }
}
