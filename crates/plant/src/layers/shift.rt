// The shift: a plant with some lanes closed for the time being. It stands alone so that specifications can name it.
ghost use Rattle.std.specs.Prelude.{◌≤◌, length};

use arrayvec::ArrayVec;

// The most lanes that may be closed at one time.
pub const MOST_CLOSED: usize = 64;

// A closed lane costs beyond; all else is as below.
#[derive(Drop)]
pub struct Shift<P> {
    pub(crate) below: P,
    // the closed lanes' numbers, the latest last
    pub(crate) closed: ArrayVec<u32, MOST_CLOSED>,
    ghost few: { length closed.items ≤ 64 },
}

// Why a close or a reopen is refused, with the lane.
#[derive(Clone, Copy, PartialEq, Eq, Debug)]
pub enum ShiftFault {
    // no such lane
    NoLane(u32),
    // it is closed already
    Closed(u32),
    // as many as may be are closed
    Full(u32),
    // it is open
    Open(u32),
}
