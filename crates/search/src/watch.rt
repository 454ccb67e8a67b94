// Who watches a side follow lanes.
ghost use Rattle.std.specs.Prelude.{◌≡◌, ℕ};

use cost::kind::CostKind;

// It is told of each node that is relabelled, and of the new label.
pub(crate) trait Watch<C: CostKind> {
    ghost told: { Self → ℕ → C → Self };

    fn tell(&mut self, node: u32, label: C)
        ensures { self.new ≡ told self.old node label };
}

// Nobody watches.
#[derive(Drop)]
pub(crate) struct Nobody;

impl<C: CostKind> Watch<C> for Nobody {
    ghost told = { λ s _ _. s };

    fn tell(&mut self, _node: u32, _label: C) {}
}
