// Why a text is not read.
ghost use Rattle.std.specs.Prelude.{◌≡◌};
ghost use Rattle.format.specs.Faults.{line_of, read_fault, unfit_fault, with_lanes, read_refusal, added_line};

use crate::phase::Unfit;
use plant::refusal::{Layer, Refusal};
use plants::fault::PlantFault;

// The first test that a text fails.
#[derive(Clone, Copy, PartialEq, Eq, Debug)]
pub enum ReadFault {
    // the line is not one bracket form; the first byte, from 1, that fits none
    NoForm { line: usize, byte: usize },
    // a wrong word, kind of item, count of items or turn
    Form { line: usize },
    // a number with a leading zero or too large; its first byte
    Number { line: usize, byte: usize },
    // the caller's lists or limits are too small
    Short,
    // the plant's own fault, and the line that it stands on
    Plant { fault: PlantFault, line: usize },
}

// A plant's fault, with the count of lanes, which tells the line of a landmark.
#[derive(Clone, Copy)]
pub struct Placed {
    pub fault: PlantFault,
    pub lanes: usize,
}

impl From<Placed> for ReadFault {
    ghost from_gives = { λ p r. r ≡ read_fault p };

    fn from(placed: Placed) -> ReadFault {
        ReadFault::Plant {
            fault: placed.fault,
            line: line_of(placed.fault, placed.lanes),
        }
    }
}

impl From<Unfit> for ReadFault {
    ghost from_gives = { λ u r. r ≡ unfit_fault u };

    fn from(unfit: Unfit) -> ReadFault {
        ReadFault::NoForm {
            line: unfit.line,
            byte: unfit.byte,
        }
    }
}

// The line that a plant's fault stands on: the plant's line, the lane's, or the landmark's.
fn line_of(fault: PlantFault, lanes: usize) -> usize
    ensures { result ≡ line_of fault lanes }
{
    match fault {
        PlantFault::Counts | PlantFault::Lengths | PlantFault::Index => 1,
        PlantFault::Ends(lane) | PlantFault::Cost(lane) => lane.saturating_add(2),
        PlantFault::Table(landmark, _) => landmark.saturating_add(lanes).saturating_add(2),
    }
}

// A test's answer, placed.
pub(crate) fn with_lanes(answer: Result<(), PlantFault>, lanes: usize) -> Result<(), Placed>
    ensures { result ≡ with_lanes lanes answer }
{
    answer.map_err(|fault| Placed { fault, lanes })
}

// How a fault is told.
impl From<ReadFault> for Refusal {
    ghost from_gives = { λ f r. r ≡ read_refusal f };

    fn from(fault: ReadFault) -> Refusal {
        // the numbers are what a user is told
        match fault {
            ReadFault::NoForm { line, byte } => Refusal {
                number: 13,
                layer: Layer::Text,
                first: line,
                second: byte,
            },
            ReadFault::Form { line } => Refusal {
                number: 14,
                layer: Layer::Form,
                first: line,
                second: 0,
            },
            ReadFault::Number { line, byte } => Refusal {
                number: 15,
                layer: Layer::Form,
                first: line,
                second: byte,
            },
            ReadFault::Short => Refusal {
                number: 8,
                layer: Layer::Search,
                first: 0,
                second: 0,
            },
            ReadFault::Plant { fault, line: _ } => fault.refusal(),
        }
    }
}

impl ReadFault {
    // How the fault is told; public, so it stays beside `From`.
    pub fn refusal(self) -> Refusal
        ensures { result ≡ read_refusal self }
    {
        Refusal::from(self)
    }

    // The line that the reader adds to a plant's fault, which names none itself.
    pub fn added_line(self) -> Option<usize>
        ensures { result ≡ added_line self }
    {
        match self {
            ReadFault::Plant { fault: _, line } => Some(line),
            _ => None,
        }
    }
}
