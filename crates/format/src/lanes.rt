// The lines that give a plant's counts and its lanes.
ghost use Rattle.std.specs.Prelude.{◌≡◌, ◌<◌, [], ◌∷◌, ◌++◌, length, drop, slice_index};
ghost use Rattle.format.specs.Items.{triple, lane_form};
ghost use Rattle.format.specs.Turns.{form, forms};
ghost use Rattle.format.specs.Reads.{NumbersRead, LinesRead, LanesKept, LanePushed};

use crate::fault::ReadFault;
use crate::form::take_numbers;
use crate::line::{Whole, read_whole};
use crate::token::Line;
use arrayvec::ArrayVec;

// The lanes of a plant, by column, as the tests of a plant and its index take them. `L` is how a column is held.
#[derive(Clone, Copy, Drop)]
pub struct LanesOf<L> {
    pub tails: L,
    pub heads: L,
    pub costs: L,
}

// The lanes that are read, as many as there is room for.
pub type LaneLists = LanesOf<ArrayVec<u32, 16384>>;

// The lanes as the tests of a plant and its index take them.
pub type Lanes<'a> = LanesOf<&'a [u32]>;

// A whole line (WORD A B C).
pub fn numbers_line(line: Line, word: &[u8]) -> Result<Whole<[u32; 3]>, ReadFault>
    ensures { NumbersRead line.entry.text.now (form (triple word.now) line.entry.number (drop line.entry.from line.entry.text.now)) result }
{
    read_whole(line, |line| take_numbers(line, word))
}

// Adds an item if the list has room for it.
pub fn keep<T: Copy, const N: usize>(list: &mut ArrayVec<T, N>, item: T)
    ensures { length list.old.items < N → list.new.items ≡ list.old.items ++ item ∷ [] }
{
    if !list.is_full() {
        list.push(item);
    }
}

impl LanesOf<ArrayVec<u32, 16384>> {
    // No lanes.
    pub fn new() -> LaneLists
        ensures { (result.tails.items ≡ []) × (result.heads.items ≡ []) × (result.costs.items ≡ []) }
    {
        LaneLists {
            tails: ArrayVec::new(),
            heads: ArrayVec::new(),
            costs: ArrayVec::new(),
        }
    }

    // The lanes, as slices.
    pub fn lanes(&self) -> Lanes<'_>
        ensures { (result.tails.now ≡ self.now.tails.items) × (result.heads.now ≡ self.now.heads.items) × (result.costs.now ≡ self.now.costs.items) }
    {
        Lanes {
            tails: self.tails.as_slice(),
            heads: self.heads.as_slice(),
            costs: self.costs.as_slice(),
        }
    }

    // Adds the lane of a line, if there is room.
    fn push(&mut self, lane: [u32; 3])
        ensures { LanePushed (slice_index lane 0) (slice_index lane 1) (slice_index lane 2) self.old self.new }
    {
        let [tail, head, cost] = lane;
        keep(&mut self.tails, tail);
        keep(&mut self.heads, head);
        keep(&mut self.costs, cost);
    }
}

// Reads so many lane lines from line 2 on, and keeps the lanes that there is room for; answers where the next line begins.
pub fn read_lanes(
    text: &[u8],
    from: usize,
    count: u32,
    lanes: &mut LaneLists,
) -> Result<usize, ReadFault>
    ensures { LinesRead text.now count (λ ls. LanesKept ls lanes.old lanes.new) (forms lane_form count 2 (drop from text.now)) result }
{
    let mut at = from;
    // k numbers the line, and indexes nothing
    for k in 0..count as usize {
        let line = Line {
            text,
            number: 2 + k,
            from: at,
        };
        let lane = numbers_line(line, b"lane")?;
        lanes.push(lane.form);
        at = lane.end;
    }
    Ok(at)
}
