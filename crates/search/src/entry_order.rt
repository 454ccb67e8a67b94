// The `Ord` of entries: by key, then label, then number, as their rank tells it.
// By hand: a derive would go by the costs' own `Ord`, and a kind need have none.
ghost use Rattle.std.specs.Prelude.{refl};
ghost use Rattle.std.specs.Cmp.{eq_by_cmp_equiv, partial_equiv_from_equiv, partial_order_from_total};
ghost use Rattle.std.specs.Ordering.{as_partial_cmp, eq_by_cmp};
ghost use Rattle.search.specs.EntryOrder.{own_cmp, own_total};

use crate::entry::Entry;
use cost::kind::CostKind;
use queue::ByRank;
use std::cmp::Ordering;

impl<C: CostKind> Ord for Entry<C> {
    ghost cmp = { own_cmp C.CostKind.kind };

    ghost total = { own_total C.CostKind.kind C.CostKind.lawful };

    ghost matches_partial_cmp = { λ _ _. refl };

    ghost matches_eq = { λ _ _. refl };

    fn cmp(&self, other: &Entry<C>) -> Ordering {
        ByRank(*self).cmp(&ByRank(*other))
    }
}

impl<C: CostKind> PartialOrd for Entry<C> {
    ghost partial_cmp = { as_partial_cmp (own_cmp C.CostKind.kind) };

    ghost laws = { partial_order_from_total (own_total C.CostKind.kind C.CostKind.lawful) };

    fn partial_cmp(&self, other: &Entry<C>) -> Option<Ordering> {
        Some(self.cmp(other))
    }
}

impl<C: CostKind> Eq for Entry<C> {
    ghost laws = { eq_by_cmp_equiv (own_total C.CostKind.kind C.CostKind.lawful) };
}

impl<C: CostKind> PartialEq for Entry<C> {
    ghost eq = { eq_by_cmp (own_cmp C.CostKind.kind) };

    ghost laws = { partial_equiv_from_equiv (eq_by_cmp_equiv (own_total C.CostKind.kind C.CostKind.lawful)) };

    fn eq(&self, other: &Entry<C>) -> bool {
        self.cmp(other).is_eq()
    }
}
