// A shift as a plant.
ghost use Rattle.plant.specs.LayerFacts.{shut_laws};
ghost use Rattle.plant.specs.Closed.{shut};
ghost use Rattle.plant.specs.Shifted.{is_shut};

use crate::lane::Lane;
use crate::lawful::Lawful;
use crate::layers::shift::Shift;
use crate::plant::Plant;
use cost::kind::CostKind;

impl<P: Plant> Plant for Shift<P> {
    type Cost = P::Cost;

    ghost floor = { λ t. shut P.Cost.CostKind.kind (is_shut t) (P.Plant.floor t.below) };

    fn node_count(&self) -> u32 {
        self.below.node_count()
    }

    fn lane_count(&self) -> u32 {
        self.below.lane_count()
    }

    fn lane(&self, k: u32) -> Option<Lane<P::Cost>> {
        let lane = self.below.lane(k)?;
        if self.is_closed(k) {
            return Some(Lane {
                cost: P::Cost::beyond(),
                ..lane
            });
        }
        Some(lane)
    }

    fn out_lane(&self, v: u32, j: u32) -> Option<u32> {
        self.below.out_lane(v, j)
    }

    fn into_lane(&self, v: u32, j: u32) -> Option<u32> {
        self.below.into_lane(v, j)
    }

    fn bound(&self, v: u32, w: u32) -> P::Cost {
        self.below.bound(v, w)
    }
}

impl<P: Lawful> Lawful for Shift<P> {
    ghost lawful = { λ t. shut_laws P.Cost.CostKind.lawful (is_shut t) (P.Lawful.lawful t.below) };
}
