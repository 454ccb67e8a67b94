// The trait of plants: a directed graph with lane costs and lower bounds, asked by questions.
ghost use Rattle.std.specs.Prelude.{◌≡◌, length};
ghost use Rattle.std.specs.List.{slice_get};
ghost use Rattle.plant.specs.Floor.{Floor, FloorLaws, out_of, into_of};

use crate::lane::Lane;
use cost::kind::CostKind;

// A floor that routes are looked for on. A question changes nothing; outside its range it answers none, and the bound zero.
pub trait Plant {
    type Cost: CostKind;

    // What the plant means. Searches are proved against this alone.
    ghost floor: { Self → Floor Self.Cost };

    fn node_count(&self) -> u32
        ensures counts { result ≡ (floor self.now).nodes }
        ensures lawful { FloorLaws Self.Cost.CostKind.kind (floor self.now) };

    fn lane_count(&self) -> u32
        ensures { result ≡ length (floor self.now).lanes };

    // The ends and the cost of lane `k`.
    fn lane(&self, k: u32) -> Option<Lane<Self::Cost>>
        ensures { result ≡ slice_get (floor self.now).lanes k };

    // The number of the `j`-th lane out of `v`, by rising number.
    fn out_lane(&self, v: u32, j: u32) -> Option<u32>
        ensures { result ≡ slice_get (out_of (floor self.now) v) j };

    // The number of the `j`-th lane into `v`, by rising number.
    fn into_lane(&self, v: u32, j: u32) -> Option<u32>
        ensures { result ≡ slice_get (into_of (floor self.now) v) j };

    // A cost that no walk from `v` to `w` is below.
    fn bound(&self, v: u32, w: u32) -> Self::Cost
        ensures { result ≡ (floor self.now).bound v w };
}
