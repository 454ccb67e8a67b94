// An `Ord` for an entry that has a rank, to sort by it or to derive an order from it; the queue needs none.
ghost use Rattle.std.specs.Prelude.{◌≡◌};
ghost use Rattle.std.specs.Cmp.{partial_equiv_from_equiv, eq_by_cmp_equiv, partial_order_from_total};
ghost use Rattle.std.specs.Ordering.{as_partial_cmp, eq_by_cmp};
ghost use Rattle.std.proofs.Common.{refl};
ghost use Rattle.queue.specs.Order.{ahead};
ghost use Rattle.queue.specs.Rank.{by_rank, by_rank_total};

use crate::ranked::Ranked;
use std::cmp::Ordering;

// An entry by its own rank, whatever its `Ord` and `==` are: two are equal where each is at most the other.
#[derive(Clone, Copy)]
pub struct ByRank<E>(pub E);

impl<E: Ranked> PartialEq for ByRank<E> {
    ghost eq = { eq_by_cmp (by_rank E.Ranked.ahead) };

    ghost laws = { partial_equiv_from_equiv (eq_by_cmp_equiv (by_rank_total E.Ranked.total E.Ranked.chain)) };

    fn eq(&self, other: &ByRank<E>) -> bool {
        self.cmp(other).is_eq()
    }
}

impl<E: Ranked> Eq for ByRank<E> {
    ghost laws = { eq_by_cmp_equiv (by_rank_total E.Ranked.total E.Ranked.chain) };
}

impl<E: Ranked> PartialOrd for ByRank<E> {
    ghost partial_cmp = { as_partial_cmp (by_rank E.Ranked.ahead) };

    ghost laws = { partial_order_from_total (by_rank_total E.Ranked.total E.Ranked.chain) };

    fn partial_cmp(&self, other: &ByRank<E>) -> Option<Ordering> {
        Some(self.cmp(other))
    }
}

impl<E: Ranked> Ord for ByRank<E> {
    ghost cmp = { by_rank E.Ranked.ahead };

    ghost total = { by_rank_total E.Ranked.total E.Ranked.chain };

    ghost matches_partial_cmp = { λ x y. refl };

    ghost matches_eq = { λ x y. refl };

    // Its test is the entry's own.
    fn cmp(&self, other: &ByRank<E>) -> Ordering
        ensures value { result ≡ by_rank E.Ranked.ahead self.now other.now }
        ensures ahead { ahead (by_rank E.Ranked.ahead) self.now other.now ≡ E.Ranked.ahead self.now.0 other.now.0 }
    {
        if !self.0.at_most(&other.0) {
            Ordering::Greater
        } else if other.0.at_most(&self.0) {
            Ordering::Equal
        } else {
            Ordering::Less
        }
    }
}
