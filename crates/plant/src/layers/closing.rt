// Closing and reopening the lanes of a shift.
ghost use Rattle.std.specs.Prelude.{◌≡◌, [], ◌∷◌, length, MatchResult};
ghost use Rattle.std.specs.Result.{result_err};
ghost use Rattle.plant.specs.Closed.{without};
ghost use Rattle.plant.specs.Shifted.{closed_list, is_shut, close_fault, reopen_fault, refusal_of};

use crate::layers::shift::{Shift, ShiftFault};
use crate::plant::Plant;
use crate::refusal::{Layer, Refusal};
use arrayvec::ArrayVec;

impl<P> Shift<P> {
    // A shift with nothing closed.
    pub fn fresh(below: P) -> Shift<P>
        ensures { (result.below ≡ below) × (closed_list result ≡ []) }
    {
        Shift {
            below,
            closed: ArrayVec::new(),
        }
    }

    pub fn is_closed(&self, k: u32) -> bool
        ensures { result ≡ is_shut self.now k }
    {
        self.closed.as_slice().contains(&k)
    }
}

impl<P: Plant> Shift<P> {
    pub fn close(&mut self, k: u32) -> Result<(), ShiftFault>
        ensures fault { result_err result ≡ close_fault (length (P.Plant.floor self.old.below).lanes) (closed_list self.old) k }
        ensures below { self.new.below ≡ self.old.below }
        ensures closed { MatchResult result (λ _. closed_list self.new ≡ k ∷ closed_list self.old) (λ _. self.new ≡ self.old) }
    {
        if k >= self.below.lane_count() {
            return Err(ShiftFault::NoLane(k));
        }
        if self.is_closed(k) {
            return Err(ShiftFault::Closed(k));
        }
        if self.closed.is_full() {
            return Err(ShiftFault::Full(k));
        }
        self.closed.push(k);
        Ok(())
    }

    pub fn reopen(&mut self, k: u32) -> Result<(), ShiftFault>
        ensures fault { result_err result ≡ reopen_fault (length (P.Plant.floor self.old.below).lanes) (closed_list self.old) k }
        ensures below { self.new.below ≡ self.old.below }
        ensures closed { MatchResult result (λ _. closed_list self.new ≡ without k (closed_list self.old)) (λ _. self.new ≡ self.old) }
    {
        if k >= self.below.lane_count() {
            return Err(ShiftFault::NoLane(k));
        }
        if !self.is_closed(k) {
            return Err(ShiftFault::Open(k));
        }
        self.closed.retain(|x| *x != k);
        Ok(())
    }
}

impl From<ShiftFault> for Refusal {
    ghost from_gives = { λ fault r. r ≡ refusal_of fault };

    fn from(fault: ShiftFault) -> Refusal {
        // the numbers are what a user is told
        let (number, lane) = match fault {
            ShiftFault::NoLane(k) => (9, k),
            ShiftFault::Closed(k) => (10, k),
            ShiftFault::Full(k) => (11, k),
            ShiftFault::Open(k) => (12, k),
        };
        Refusal {
            number,
            layer: Layer::Shift,
            first: lane as usize,
            second: 0,
        }
    }
}

impl ShiftFault {
    pub fn refusal(self) -> Refusal
        ensures { result ≡ refusal_of self }
    {
        Refusal::from(self)
    }
}
