// Turned: every lane the other way round, as who goes back from the goal sees a floor.
ghost use Rattle.plant.specs.FloorFacts.{turned_laws};
ghost use Rattle.plant.specs.Floor.{turned};

use crate::lane::Lane;
use crate::lawful::Lawful;
use crate::plant::Plant;

#[derive(Drop)]
pub struct Turned<P> {
    pub below: P,
}

impl<P: Plant> Plant for Turned<P> {
    type Cost = P::Cost;

    ghost floor = { λ t. turned (P.Plant.floor t.below) };

    fn node_count(&self) -> u32 {
        self.below.node_count()
    }

    fn lane_count(&self) -> u32 {
        self.below.lane_count()
    }

    fn lane(&self, k: u32) -> Option<Lane<P::Cost>> {
        self.below.lane(k).map(|l| Lane {
            tail: l.head,
            head: l.tail,
            cost: l.cost,
        })
    }

    fn out_lane(&self, v: u32, j: u32) -> Option<u32> {
        self.below.into_lane(v, j)
    }

    fn into_lane(&self, v: u32, j: u32) -> Option<u32> {
        self.below.out_lane(v, j)
    }

    fn bound(&self, v: u32, w: u32) -> P::Cost {
        self.below.bound(w, v)
    }
}

impl<P: Lawful> Lawful for Turned<P> {
    ghost lawful = { λ t. turned_laws P.Cost.CostKind.lawful (P.Lawful.lawful t.below) };
}
