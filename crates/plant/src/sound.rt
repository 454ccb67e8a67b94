// A plant that was asked, and so is known to be lawful.
ghost use Rattle.std.specs.Prelude.{◌≡◌};
ghost use Rattle.plant.specs.Floor.{FloorLaws};
ghost use Rattle.plant.specs.FloorKnown.{known_laws};

use crate::lane::Lane;
use crate::lawful::Lawful;
use crate::plant::Plant;

// The plant below, whose law its type keeps.
#[derive(Drop)]
pub struct Sound<P: Plant> {
    pub below: P,
    ghost lawful: { ∥ FloorLaws P.Cost.CostKind.kind (P.Plant.floor below) ∥₁ },
}

impl<P: Plant> Sound<P> {
    // Takes any plant. It asks for the count of nodes, by whose contract the floor is lawful.
    pub fn of(below: P) -> Sound<P>
        ensures { result.below ≡ below }
    {
        let _nodes = below.node_count();
        Sound { below }
    }
}

impl<P: Plant> Plant for Sound<P> {
    type Cost = P::Cost;

    ghost floor = { λ t. P.Plant.floor t.below };

    fn node_count(&self) -> u32 {
        self.below.node_count()
    }

    fn lane_count(&self) -> u32 {
        self.below.lane_count()
    }

    fn lane(&self, k: u32) -> Option<Lane<P::Cost>> {
        self.below.lane(k)
    }

    fn out_lane(&self, v: u32, j: u32) -> Option<u32> {
        self.below.out_lane(v, j)
    }

    fn into_lane(&self, v: u32, j: u32) -> Option<u32> {
        self.below.into_lane(v, j)
    }

    fn bound(&self, v: u32, w: u32) -> P::Cost {
        self.below.bound(v, w)
    }
}

impl<P: Plant> Lawful for Sound<P> {
    ghost lawful = { λ t. known_laws P.Cost.CostKind.lawful t.lawful };
}
