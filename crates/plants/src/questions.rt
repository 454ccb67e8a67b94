// A lane plant answers the questions of a plant, each in constant time but the bound, which looks at each landmark.
ghost use Rattle.std.specs.Prelude.{◌≡◌, ◌+◌, ◌-◌, ◌<◌, ◌≤◌, max, length, IfSome, IfNone, slice_index};
ghost use Rattle.plants.specs.LaidLaws.{laid_laws};
ghost use Rattle.plants.specs.Lawful.{kept};
ghost use Rattle.plants.specs.Laid.{floor_of};

use crate::check::at;
use crate::lane_plant::LanePlant;
use cost::kind::CostKind;
use cost::length::Length;
use plant::lane::Lane;
use plant::lawful::Lawful;
use plant::plant::Plant;

impl Plant for LanePlant<'_> {
    type Cost = Length;

    ghost floor = { floor_of };

    fn node_count(&self) -> u32 {
        self.nodes
    }

    fn lane_count(&self) -> u32 {
        self.lists.tails.len() as u32
    }

    fn lane(&self, k: u32) -> Option<Lane<Length>> {
        let i = k as usize;
        let lists = self.lists;
        let tail = *lists.tails.get(i)?;
        Some(Lane {
            tail,
            head: lists.heads[i],
            cost: Length::from(lists.costs[i]),
        })
    }

    fn out_lane(&self, v: u32, j: u32) -> Option<u32> {
        nth_place(self.lists.first_out, self.nodes, v, j)
    }

    fn into_lane(&self, v: u32, j: u32) -> Option<u32> {
        let place = nth_place(self.lists.first_in, self.nodes, v, j)?;
        Some(self.lists.by_head[place as usize])
    }

    fn bound(&self, v: u32, w: u32) -> Length {
        if v >= self.nodes || w >= self.nodes {
            return Length::from(0);
        }
        let to = self.lists.to.chunks_exact(self.nodes as usize);
        let from = self.lists.from.chunks_exact(self.nodes as usize);
        let mut best = 0;
        for (to, from) in to.zip(from) {
            best = best.max(gap(to, from, v as usize, w as usize));
        }
        Length::from(best)
    }
}

impl Lawful for LanePlant<'_> {
    ghost lawful = { λ p. laid_laws _ _ _ (kept p) };
}

// The place of the `j`-th lane at node `v`, where `firsts` has the place of the first at each of so many nodes.
fn nth_place(firsts: &[u32], nodes: u32, v: u32, j: u32) -> Option<u32>
    requires size { length firsts.now ≡ nodes + 1 }
    requires rises { v < nodes → slice_index firsts.now v ≤ slice_index firsts.now (v + 1) }
    ensures some { IfSome result (λ place. (v + 1 < length firsts.now) × (place ≡ slice_index firsts.now v + j) × (place < slice_index firsts.now (v + 1))) }
    ensures none { IfNone result (v + 1 < length firsts.now → slice_index firsts.now (v + 1) ≤ slice_index firsts.now v + j) }
{
    if v >= nodes {
        return None;
    }
    let v = v as usize;
    let first = firsts[v];
    let past = firsts[v + 1];
    if j < past - first {
        Some(first + j)
    } else {
        None
    }
}

// The greater of how much further `v` is to a landmark than `w`, and `w` from it than `v`, by the landmark's own tables.
fn gap(to: &[u32], from: &[u32], v: usize, w: usize) -> u32
    ensures { result ≡ max (slice_index to.now v - slice_index to.now w) (slice_index from.now w - slice_index from.now v) }
{
    let further = at(to, v).saturating_sub(at(to, w));
    further.max(at(from, w).saturating_sub(at(from, v)))
}
