// The route of a two-way search: to where the sides meet by the forward rows, and on by the backward rows.
ghost use Rattle.std.specs.Prelude.{◌≡◌, ◌<◌, ◌≤◌, length};
ghost use Rattle.search.specs.Lists.{onto};
ghost use Rattle.search.specs.TwoWay.{joined};

use crate::row::Row;
use crate::walk_back::{walk_back, write_route};
use cost::kind::CostKind;
use plant::lawful::Lawful;
use plant::layers::turned::Turned;

// Writes the nodes from `start` over `via` to `goal`, and counts them. Its facts are those that the call has tested.
pub(crate) fn write_both<P: Lawful>(
    plant: &P,
    start: u32,
    goal: u32,
    via: u32,
    rows: &[Row<P::Cost>],
    back: &[Row<P::Cost>],
    route: &mut [u32],
) -> usize
    requires rows { length rows.now ≡ (P.Plant.floor plant.now).nodes }
    requires back { length back.now ≡ (P.Plant.floor plant.now).nodes }
    requires via { via < (P.Plant.floor plant.now).nodes }
    requires route { (P.Plant.floor plant.now).nodes ≤ length route.old }
    requires short { length (joined P.Cost.CostKind.kind (P.Plant.floor plant.now) start goal rows.now back.now via) ≤ (P.Plant.floor plant.now).nodes }
    ensures count { result ≡ length (joined P.Cost.CostKind.kind (P.Plant.floor plant.now) start goal rows.now back.now via) }
    ensures wrote { route.new ≡ onto (joined P.Cost.CostKind.kind (P.Plant.floor plant.now) start goal rows.now back.now via) route.old }
{
    let turned = Turned { below: plant };
    // the node where the parts meet is the last of the first and the first of the second
    let from = write_route(plant, start, via, rows, route) - 1;
    let more = walk_back(&turned, goal, via, back, &mut route[from..]);
    from + more
}
