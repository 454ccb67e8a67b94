// The trait of cost kinds: operations, each an equation with the kind's ghost record, and the laws.
ghost use Rattle.std.specs.Prelude.{◌≡◌};
ghost use Rattle.cost.specs.Kind.{Kind, Laws};

// A value that routes are compared by. `beyond` is the cost that no route has.
pub trait CostKind: Copy {
    ghost kind: { Kind Self };

    fn zero() -> Self
        ensures { result ≡ kind.zero };

    fn beyond() -> Self
        ensures { result ≡ kind.beyond };

    fn at_most(self, other: Self) -> bool
        ensures { result ≡ kind.at_most self other };

    // The cost of one part of a route and then another.
    fn join(self, other: Self) -> Self
        ensures { result ≡ kind.join self other };

    // The least cost that, joined to `other`, is at least `self`.
    fn rest(self, other: Self) -> Self
        ensures { result ≡ kind.rest self other };

    ghost lawful: { Laws kind };
}
