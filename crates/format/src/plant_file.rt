// Reading a plant file into the caller's lists.
ghost use Rattle.std.specs.Prelude.{◌≡◌, ◌+◌, ◌≤◌, true, List, ◌++◌, length, drop, MatchResult};
ghost use Rattle.std.specs.Result.{result_err};
ghost use Rattle.plants.specs.Faults.{counts_fit, index_fault};
ghost use Rattle.plants.specs.Index.{firsts, grouped};
ghost use Rattle.format.specs.Reader.{Written, TablesWritten, ReadTested, ReadAs, room_of};
ghost use Rattle.format.specs.Judged.{columns_fault};
ghost use Rattle.format.specs.Plain.{Mark as Landmark};
ghost use Rattle.format.specs.Reads.{MarksAt};
ghost use Rattle.format.specs.Space.{held, after, space_of, Spacious};

use crate::counts::{Counts, Space, check_room};
use crate::fault::{ReadFault, with_lanes};
use crate::lanes::{LaneLists, Lanes};
use crate::lists::{ListsMut, space};
use crate::marks::{Mark, fill_tables, test_marks};
use crate::plant_lines::{PlantLines, read_lines};
use arrayvec::ArrayVec;
use plants::check::{check_costs, check_counts, check_ends};
use plants::fault::PlantFault;
use plants::index::index;

// A plant that was read: its counts, the byte behind its last line, and how many lines it has.
#[derive(Clone, Copy, PartialEq, Eq, Debug)]
pub struct PlantFile {
    pub counts: Counts,
    pub end: usize,
    pub lines: usize,
}

// Copies a list into the front of another.
fn copy(list: &[u32], into: &mut [u32])
    requires { length list.now ≤ length into.old }
    ensures { into.new ≡ list.now ++ drop (length list.now) into.old }
{
    into[..list.len()].copy_from_slice(list);
}

// Writes the index of the lanes into the front of three lists.
fn fill_index(
    nodes: u32,
    lanes: Lanes,
    first_out: &mut [u32],
    first_in: &mut [u32],
    by_head: &mut [u32],
) -> Result<(), PlantFault>
    requires { (nodes + 1 ≤ length first_out.old) × ((nodes + 1 ≤ length first_in.old) × (length lanes.tails.now ≤ length by_head.old)) }
    ensures fault { result_err result ≡ index_fault nodes lanes.entry.tails.now lanes.entry.heads.now (nodes + 1) (nodes + 1) (length lanes.entry.tails.now) }
    ensures written { MatchResult result (λ _. (first_out.new ≡ firsts nodes lanes.entry.tails.now ++ drop (nodes + 1) first_out.old) × (first_in.new ≡ firsts nodes lanes.entry.heads.now ++ drop (nodes + 1) first_in.old) × (by_head.new ≡ grouped nodes lanes.entry.heads.now ++ drop (length lanes.entry.tails.now) by_head.old)) (λ _. (first_out.new ≡ first_out.old) × (first_in.new ≡ first_in.old) × (by_head.new ≡ by_head.old)) }
{
    let firsts = nodes as usize + 1;
    let count = lanes.tails.len();
    index(
        nodes,
        lanes.tails,
        lanes.heads,
        &mut first_out[0..firsts],
        &mut first_in[0..firsts],
        &mut by_head[0..count],
    )
}

// Tests the lanes and tables of a plant, and writes it into the lists if no test fails.
fn settle(nodes: u32, lanes: Lanes, marks: &[Mark], lists: ListsMut) -> Result<(), PlantFault>
    requires { (nodes ≤ 4096) × (Spacious nodes (length marks.now) lanes.tails.now lanes.heads.now lanes.costs.now (space_of (held lists))) }
    ensures fault { (ms : List Landmark) → MarksAt nodes ms marks.now → counts_fit nodes (length lanes.entry.tails.now) 0 ≡ true → length lanes.entry.heads.now ≡ length lanes.entry.tails.now → result_err result ≡ columns_fault nodes lanes.entry.tails.now lanes.entry.heads.now lanes.entry.costs.now ms }
    ensures written { MatchResult result (λ _. Written nodes lanes.entry.tails.now lanes.entry.heads.now lanes.entry.costs.now (held lists.entry) (after lists.exit) × ((ms : List Landmark) → MarksAt nodes ms marks.now → TablesWritten nodes ms (held lists.entry) (after lists.exit))) (λ _. after lists.exit ≡ held lists.entry) }
{
    let ListsMut {
        tails,
        heads,
        costs,
        first_out,
        first_in,
        by_head,
        to,
        from,
    } = lists;
    check_ends(nodes, lanes.tails, lanes.heads)?;
    check_costs(lanes.costs)?;
    test_marks(marks, nodes as usize, lanes)?;
    fill_index(nodes, lanes, first_out, first_in, by_head)?;
    copy(lanes.tails, tails);
    copy(lanes.heads, heads);
    copy(lanes.costs, costs);
    fill_tables(marks, nodes as usize, to, from);
    Ok(())
}

// Reads the lines of a plant file, and tests that the counts are lawful and that there is room.
fn read_tested<'a>(
    text: &'a [u8],
    room: Counts,
    space: Space,
    lanes: &mut LaneLists,
    marks: &mut ArrayVec<Mark<'a>, 16>,
) -> Result<PlantLines, ReadFault>
    ensures { ReadTested room space text.now lanes.old lanes.new marks.old.items marks.new.items result }
{
    let read = read_lines(text, lanes, marks)?;
    let counts = read.counts;
    let count = counts.lanes as usize;
    with_lanes(check_counts(counts.nodes, count, counts.landmarks), count)?;
    check_room(counts, room, space)?;
    Ok(read)
}

// Reads a plant file from the text's beginning. Its lines are tested in turn, then the plant as a whole; the lists are written only if no test fails.
pub fn read_plant(text: &[u8], room: Counts, lists: ListsMut) -> Result<PlantFile, ReadFault>
    ensures { ReadAs (room_of room (held lists.entry)) text.now (held lists.entry) (after lists.exit) result }
{
    let space = space(&lists);
    // taken apart, so that what each list holds has a name until they are settled
    let ListsMut {
        tails,
        heads,
        costs,
        first_out,
        first_in,
        by_head,
        to,
        from,
    } = lists;
    let mut lanes = LaneLists::new();
    let mut marks = ArrayVec::new();
    let PlantLines { counts, end } = read_tested(text, room, space, &mut lanes, &mut marks)?;
    let count = counts.lanes as usize;
    let into = ListsMut {
        tails,
        heads,
        costs,
        first_out,
        first_in,
        by_head,
        to,
        from,
    };
    with_lanes(
        settle(counts.nodes, lanes.lanes(), marks.as_slice(), into),
        count,
    )?;
    Ok(PlantFile {
        counts,
        end,
        lines: 1 + count + counts.landmarks as usize,
    })
}
