// The lines of a plant file, each tested by itself.
ghost use Rattle.format.specs.Reads.{PlantRead};

use crate::counts::Counts;
use crate::fault::ReadFault;
use crate::lanes::{LaneLists, numbers_line, read_lanes};
use crate::marks::{Mark, read_marks};
use crate::token::Line;
use arrayvec::ArrayVec;

// The counts that the first line gives, and the byte behind the last line. No `Whole`: that is of one line.
#[derive(Clone, Copy)]
pub struct PlantLines {
    pub counts: Counts,
    pub end: usize,
}

// Reads the lines in turn, and keeps the lanes and landmarks that the lists have room for.
pub fn read_lines<'a>(
    text: &'a [u8],
    lanes: &mut LaneLists,
    marks: &mut ArrayVec<Mark<'a>, 16>,
) -> Result<PlantLines, ReadFault>
    ensures { PlantRead text.now lanes.old lanes.new marks.old.items marks.new.items result }
{
    let start = Line {
        text,
        number: 1,
        from: 0,
    };
    let first = numbers_line(start, b"plant")?;
    let [nodes, count, landmarks] = first.form;
    let counts = Counts {
        nodes,
        lanes: count,
        landmarks,
    };
    let lanes_end = read_lanes(text, first.end, count, lanes)?;
    let end = read_marks(text, lanes_end, counts, marks)?;
    Ok(PlantLines { counts, end })
}
