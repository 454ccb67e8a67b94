// Blind: every bound zero, so that nodes go by their labels alone.
ghost use Rattle.plant.specs.FloorFacts.{blinded_laws};
ghost use Rattle.plant.specs.Floor.{blinded};

use crate::lane::Lane;
use crate::lawful::Lawful;
use crate::plant::Plant;
use cost::kind::CostKind;

#[derive(Drop)]
pub struct Blind<P> {
    pub below: P,
}

impl<P: Plant> Plant for Blind<P> {
    type Cost = P::Cost;

    ghost floor = { λ t. blinded P.Cost.CostKind.kind (P.Plant.floor t.below) };

    fn node_count(&self) -> u32 {
        self.below.node_count()
    }

    fn lane_count(&self) -> u32 {
        self.below.lane_count()
    }

    fn lane(&self, k: u32) -> Option<Lane<P::Cost>> {
        self.below.lane(k)
    }

    fn out_lane(&self, v: u32, j: u32) -> Option<u32> {
        self.below.out_lane(v, j)
    }

    fn into_lane(&self, v: u32, j: u32) -> Option<u32> {
        self.below.into_lane(v, j)
    }

    fn bound(&self, _v: u32, _w: u32) -> P::Cost {
        P::Cost::zero()
    }
}

impl<P: Lawful> Lawful for Blind<P> {
    ghost lawful = { λ t. blinded_laws P.Cost.CostKind.lawful (P.Lawful.lawful t.below) };
}
