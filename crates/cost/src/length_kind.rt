// Lengths as a cost kind: the join is the sum held at beyond, the rest a difference held at zero.
ghost use Rattle.cost.specs.Length.{length_kind};
ghost use Rattle.cost.specs.Lengths.{length_laws, length_ordered};

use crate::kind::CostKind;
use crate::length::Length;
use crate::ordered_kind::OrderedKind;

impl CostKind for Length {
    ghost kind = { length_kind };

    ghost lawful = { length_laws };

    fn zero() -> Length {
        Length { metres: 0 }
    }

    fn beyond() -> Length {
        Length { metres: u32::MAX }
    }

    // Written out: searches go by `at_most` and the kind's laws alone, and the law `ordered` says that it is the type's own `<=`.
    fn at_most(self, other: Length) -> bool {
        self <= other
    }

    fn join(self, other: Length) -> Length {
        Length {
            metres: self.metres.saturating_add(other.metres),
        }
    }

    fn rest(self, other: Length) -> Length {
        Length {
            metres: self.metres.saturating_sub(other.metres),
        }
    }
}

impl OrderedKind for Length {
    ghost ordered = { length_ordered };
}
