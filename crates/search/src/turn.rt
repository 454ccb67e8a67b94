// One turn of one side of a two-way search: its first node is settled.
ghost use Rattle.std.specs.Prelude.{◌≡◌, ◌<◌, MatchOption};
ghost use Rattle.search.specs.Sides.{floor_of, Facing, IsReady, IsTaken, Kept};
ghost use Rattle.search.specs.Turns.{Settles, Stays, Gone};

use crate::entry::Entry;
use crate::meeter::Meeter;
use crate::meeting::Meeting;
use crate::row::State;
use crate::rows::mark_as;
use crate::side::Side;
use cost::kind::CostKind;
use plant::lawful::Lawful;

// A turn that was taken: the key of its node, and the best route after it. A side cannot hold its own last key:
// a struct that lends rows and has a field of a parameter's type tells its caller nothing of the rows.
#[derive(Clone, Copy)]
pub struct Went<C> {
    pub last: C,
    pub met: Meeting<C>,
}

impl<P: Lawful> Side<'_, '_, '_, '_, P> {
    // Settles the node of `e`, and answers with the best route after it. The other side's last key was `last`.
    // The node is followed unless the other side has scanned it, or no route over it can better the best.
    fn settle<Q: Lawful<Cost = P::Cost>>(
        &mut self,
        e: Entry<P::Cost>,
        other: &Side<Q>,
        last: P::Cost,
        met: Meeting<P::Cost>,
    ) -> Meeting<P::Cost>
        requires facing { Facing self.old other.now }
        requires met { met.node < (floor_of self.old).nodes }
        requires taken { IsTaken self.old e }
        ensures settles { Settles P.Cost.CostKind.kind (floor_of self.old) self.old.source self.old.rows.now self.new.rows.now other.now.rows.now last e met result }
        ensures met { result.node < (floor_of self.old).nodes }
        ensures ready { IsReady self.new }
        ensures kept { Kept self.old self.new }
        ensures named { self.new.rows.ghost_name ≡ self.old.rows.ghost_name }
    {
        let others = &*other.rows;
        let row = others[e.node as usize];
        if row.state.is_scanned() {
            mark_as(self.rows, e.node, State::Scanned);
            return met;
        }
        let rest = last.rest(self.plant.bound(self.source, e.node));
        if met.cost.at_most(e.label.join(rest)) {
            mark_as(self.rows, e.node, State::Dropped);
            return met;
        }
        mark_as(self.rows, e.node, State::Scanned);
        let mut meeter = Meeter { others, met };
        self.follow_out(e.label, e.node, &mut meeter);
        meeter.met
    }

    // Takes the side's turn, unless it has no node whose key is below the best route.
    pub fn take_turn<Q: Lawful<Cost = P::Cost>>(
        &mut self,
        other: &Side<Q>,
        last: P::Cost,
        met: Meeting<P::Cost>,
    ) -> Option<Went<P::Cost>>
        requires facing { Facing self.old other.now }
        requires met { met.node < (floor_of self.old).nodes }
        requires ready { IsReady self.old }
        ensures turn { MatchOption result ((self.new.rows.now ≡ self.old.rows.now) × Stays P.Cost.CostKind.kind (floor_of self.old) self.old.source self.old.target self.old.rows.now other.now.rows.now last met) (λ w. Gone P.Cost.CostKind.kind (floor_of self.old) self.old.source self.old.target self.old.rows.now self.new.rows.now other.now.rows.now last met w.last w.met self.new.queue.now) }
        ensures kept { Kept self.old self.new }
        ensures named { self.new.rows.ghost_name ≡ self.old.rows.ghost_name }
    {
        let e = self.next_live()?;
        if met.cost.at_most(e.key) {
            return None;
        }
        let met = self.settle(e, other, last, met);
        Some(Went { last: e.key, met })
    }
}
