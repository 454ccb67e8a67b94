// The calls on a shift.

// To close or reopen a lane, or to search from a start to a goal, one way or from both ends.
#[derive(Clone, Copy, PartialEq, Eq, Debug)]
pub enum Call {
    Close(u32),
    Reopen(u32),
    One { start: u32, goal: u32 },
    Two { start: u32, goal: u32 },
}
