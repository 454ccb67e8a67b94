// The trait of the cost kinds whose order is that of their type.
ghost use Rattle.std.specs.Prelude.{◌≡◌};
ghost use Rattle.std.specs.Ordering.{is_le};

use crate::kind::CostKind;

// A kind that is compared by `<=` as by `at_most`. Searches don't ask for it: they rest on the laws of `CostKind` alone.
pub trait OrderedKind: CostKind + Ord {
    ghost ordered: { (a b : Self) → Self.CostKind.kind.at_most a b ≡ is_le (Self.Ord.cmp a b) };
}
