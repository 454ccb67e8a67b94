// The lines that give the tables of a plant's landmarks.
ghost use Rattle.std.specs.Prelude.{◌≡◌, ℕ, ◌+◌, ◌*◌, ◌≤◌, List, ◌++◌, map, length, take, drop, None};
ghost use Rattle.std.specs.Result.{result_err};
ghost use Rattle.format.specs.Form.{Token as Spelt};
ghost use Rattle.format.specs.Items.{all, table, mark_form};
ghost use Rattle.format.specs.Places.{TokensFrom, TokensIn, ValuesAt};
ghost use Rattle.format.specs.Plain.{Mark as Landmark, to_row, from_row};
ghost use Rattle.plants.specs.Index.{joined};
ghost use Rattle.format.specs.Reads.{TookTable, MarkTaken, MarkRead, LinesRead, MarkAt, MarksAt, MarksKept};
ghost use Rattle.format.specs.Judged.{mark_fault, marks_fault};
ghost use Rattle.format.specs.Turns.{form, forms};

use crate::counts::Counts;
use crate::cursor::Cursor;
use crate::fault::ReadFault;
use crate::form::fill_values;
use crate::lanes::{Lanes, keep};
use crate::line::{Whole, read_whole};
use crate::token::Line;
use arrayvec::ArrayVec;
use plants::check::check_landmark;
use plants::fault::PlantFault;

// Where the values of a landmark's two tables begin.
#[derive(Clone, Copy, Default)]
pub struct Mark<'a> {
    pub to: Cursor<'a>,
    pub from: Cursor<'a>,
}

// (WORD X…), with so many values; answers where they begin.
fn take_table<'a>(cursor: &mut Cursor<'a>, word: &[u8], count: u32) -> Option<Cursor<'a>>
    ensures { (ts : List Spelt) → TokensFrom cursor.old ts → TookTable count cursor.new (table word.now count ts) result }
{
    cursor.open(word)?;
    let values = *cursor;
    cursor.skip_values(count)?;
    cursor.close()?;
    Some(values)
}

// The whole line as (mark (to X…) (from X…)).
fn take_mark<'a>(line: Line<'a>, nodes: u32) -> Option<Mark<'a>>
    ensures { (ts : List Spelt) → TokensIn line.entry ts → MarkTaken nodes (all (mark_form nodes ts)) result }
{
    let mut cursor = line.start();
    cursor.open(b"mark")?;
    let to = take_table(&mut cursor, b"to", nodes)?;
    let from = take_table(&mut cursor, b"from", nodes)?;
    cursor.close()?;
    cursor.is_over().then_some(Mark { to, from })
}

// A whole line (mark (to X…) (from X…)).
fn mark_line<'a>(line: Line<'a>, nodes: u32) -> Result<Whole<Mark<'a>>, ReadFault>
    ensures { MarkRead nodes line.entry.text.now (form (mark_form nodes) line.entry.number (drop line.entry.from line.entry.text.now)) result }
{
    read_whole(line, |line| take_mark(line, nodes))
}

// Reads all mark lines, and keeps those that the list has room for; answers where the last one ends. (`read_lanes` is a loop of its own: one over a closure that fills either list would have clauses longer than both.)
pub fn read_marks<'a>(
    text: &'a [u8],
    from: usize,
    counts: Counts,
    marks: &mut ArrayVec<Mark<'a>, 16>,
) -> Result<usize, ReadFault>
    ensures { LinesRead text.now counts.landmarks (λ ms. MarksKept counts.nodes ms marks.old.items marks.new.items) (forms (mark_form counts.nodes) counts.landmarks (2 + counts.lanes) (drop from text.now)) result }
{
    let mut at = from;
    // m numbers the line, and indexes nothing
    for m in 0..counts.landmarks as usize {
        let line = Line {
            text,
            number: 2 + counts.lanes as usize + m,
            from: at,
        };
        let read = mark_line(line, counts.nodes)?;
        keep(marks, read.form);
        at = read.end;
    }
    Ok(at)
}

// Tests the lanes against the tables of one landmark, which are written into the two rows.
fn test_mark(
    landmark: usize,
    mark: Mark,
    lanes: Lanes,
    to: &mut [u32],
    from: &mut [u32],
) -> Result<(), PlantFault>
    ensures { (k : Landmark) → MarkAt (length to.old) k mark.entry → length from.old ≡ length to.old → result_err result ≡ mark_fault lanes.entry.tails.now lanes.entry.heads.now lanes.entry.costs.now landmark k None }
{
    fill_values(mark.to, to);
    fill_values(mark.from, from);
    check_landmark(landmark, lanes.tails, lanes.heads, lanes.costs, to, from)
}

// Tests the lanes against the tables of each landmark; the rows have an entry for each node.
fn test_each(
    marks: &[Mark],
    lanes: Lanes,
    to: &mut [u32],
    from: &mut [u32],
) -> Result<(), PlantFault>
    ensures { (ms : List Landmark) → MarksAt (length to.old) ms marks.now → length from.old ≡ length to.old → result_err result ≡ marks_fault lanes.entry.tails.now lanes.entry.heads.now lanes.entry.costs.now 0 ms }
{
    for (landmark, mark) in marks.iter().enumerate() {
        test_mark(landmark, *mark, lanes, to, from)?;
    }
    Ok(())
}

// Tests the lanes against the tables of each landmark.
pub fn test_marks(marks: &[Mark], nodes: usize, lanes: Lanes) -> Result<(), PlantFault>
    requires { nodes ≤ 4096 }
    ensures { (ms : List Landmark) → MarksAt nodes ms marks.now → result_err result ≡ marks_fault lanes.entry.tails.now lanes.entry.heads.now lanes.entry.costs.now 0 ms }
{
    // rows of the most nodes that a plant has: fixed memory, since the reader takes none
    let mut to = [0u32; 4096];
    let mut from = [0u32; 4096];
    test_each(marks, lanes, &mut to[0..nodes], &mut from[0..nodes])
}

// Writes the values from a place on into a row of a table.
fn fill_row(values: Cursor, rows: &mut [u32], first: usize, nodes: usize)
    requires { first + nodes ≤ length rows.old }
    ensures { (xs : List ℕ) → ValuesAt values.entry.line.text.now values.entry.at xs nodes → rows.new ≡ take first rows.old ++ (xs ++ drop (first + nodes) rows.old) }
{
    fill_values(values, &mut rows[first..first + nodes]);
}

// Writes the values of each landmark into its row of the two tables.
pub fn fill_tables(marks: &[Mark], nodes: usize, to: &mut [u32], from: &mut [u32])
    requires { (length marks.now * nodes ≤ length to.old) × (length marks.now * nodes ≤ length from.old) }
    ensures { (ms : List Landmark) → MarksAt nodes ms marks.now → (to.new ≡ joined (map to_row ms) ++ drop (length ms * nodes) to.old) × (from.new ≡ joined (map from_row ms) ++ drop (length ms * nodes) from.old) }
{
    // by number: after a zip with `chunks_exact_mut` a proof knows nothing of what it wrote
    for (m, mark) in marks.iter().enumerate() {
        fill_row(mark.to, to, m * nodes, nodes);
        fill_row(mark.from, from, m * nodes, nodes);
    }
}
