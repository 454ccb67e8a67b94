// The watcher of a two-way search: a node that is relabelled may be where the sides meet.
ghost use Rattle.std.specs.Prelude.{◌≡◌};
ghost use Rattle.search.specs.Meets.{met_at};
ghost use Rattle.search.specs.TwoWay.{meet};

use crate::meeter::Meeter;
use crate::meeting::Meeting;
use crate::watch::Watch;
use cost::kind::CostKind;

// The better of the best route so far and one over `node` at the cost `cost`.
fn best_of<C: CostKind>(cost: C, node: u32, met: Meeting<C>) -> Meeting<C>
    ensures { result ≡ meet C.CostKind.kind cost node met }
{
    if met.cost.at_most(cost) {
        return met;
    }
    Meeting { cost, node }
}

impl<C: CostKind> Watch<C> for Meeter<'_, C> {
    ghost told = { met_at C.CostKind.kind };

    fn tell(&mut self, node: u32, label: C) {
        if let Some(row) = self.others.get(node as usize) {
            self.met = best_of(label.join(row.label), node, self.met);
        }
    }
}
