// The lanes out of a node, one after another.
ghost use Rattle.std.specs.Prelude.{◌≡◌, suc, ◌-◌, ◌≤◌, length, OnSome};
ghost use Rattle.std.specs.Iterator.{at_most};
ghost use Rattle.std.specs.List.{slice_get};
ghost use Rattle.plant.specs.Floor.{out_of};

use plant::lawful::Lawful;

// The lanes out of `node` by rising number, from the one with the place `next` on.
#[derive(Drop)]
pub(crate) struct OutLanes<'p, P: Lawful> {
    pub plant: &'p P,
    pub node: u32,
    pub next: u32,
}

impl<P: Lawful> Iterator for OutLanes<'_, P> {
    type Item = u32;

    ghost remaining = { λ s. at_most (length (out_of (P.Plant.floor s.plant.now) s.node) - s.next) };

    ghost next_gives = { λ s r t. (r ≡ slice_get (out_of (P.Plant.floor s.plant.now) s.node) s.next) × (t.plant ≡ s.plant) × (t.node ≡ s.node) × OnSome r (t.next ≡ suc s.next) };

    fn next(&mut self) -> Option<u32> {
        let lane = self.plant.out_lane(self.node, self.next)?;
        self.next += 1;
        Some(lane)
    }
}
