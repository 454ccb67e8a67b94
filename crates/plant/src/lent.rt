// A plant by reference is a plant, so that a layer takes one either way.
use crate::lane::Lane;
use crate::lawful::Lawful;
use crate::plant::Plant;

impl<P: Plant> Plant for &P {
    type Cost = P::Cost;

    ghost floor = { λ t. P.Plant.floor t.now };

    fn node_count(&self) -> u32 {
        (**self).node_count()
    }

    fn lane_count(&self) -> u32 {
        (**self).lane_count()
    }

    fn lane(&self, k: u32) -> Option<Lane<P::Cost>> {
        (**self).lane(k)
    }

    fn out_lane(&self, v: u32, j: u32) -> Option<u32> {
        (**self).out_lane(v, j)
    }

    fn into_lane(&self, v: u32, j: u32) -> Option<u32> {
        (**self).into_lane(v, j)
    }

    fn bound(&self, v: u32, w: u32) -> P::Cost {
        (**self).bound(v, w)
    }
}

impl<P: Lawful> Lawful for &P {
    ghost lawful = { λ t. P.Lawful.lawful t.now };
}
