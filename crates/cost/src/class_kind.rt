// Classes as a cost kind: the join is the greater, the rest the whole of what is greater.
ghost use Rattle.cost.specs.Class.{class_kind};
ghost use Rattle.cost.specs.Classes.{class_laws, class_ordered};

use crate::class::Class;
use crate::kind::CostKind;
use crate::ordered_kind::OrderedKind;

impl CostKind for Class {
    ghost kind = { class_kind };

    ghost lawful = { class_laws };

    fn zero() -> Class {
        Class { grade: 0 }
    }

    fn beyond() -> Class {
        Class { grade: u8::MAX }
    }

    // Written out: searches go by `at_most` and the kind's laws alone, and the law `ordered` says that it is the type's own `<=`.
    fn at_most(self, other: Class) -> bool {
        self <= other
    }

    fn join(self, other: Class) -> Class {
        self.max(other)
    }

    fn rest(self, other: Class) -> Class {
        if self <= other {
            return Class { grade: 0 };
        }
        self
    }
}

impl OrderedKind for Class {
    ghost ordered = { class_ordered };
}
