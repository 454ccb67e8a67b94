// A hall: a grid of cells, of which each has a grade.
ghost use Rattle.std.specs.Prelude.{◌≡◌, ◌*◌, ◌<◌, ◌≤◌, length};

// A plant of rows × columns cells, one byte each, of which 255 is blocked.
// A cell is a node, row × columns + column. From each lead four lanes, 4 × node and the direction: north, east, south, west.
// With 2 rows and 3 columns, and the lanes of cell 1:
//
//              4 (back to 1)
//        0  <--7--  1  --5-->  2
//                   |
//                   6
//                   v
//        3          4          5
//
// A lane costs the byte of the cell that it enters; one that would leave the hall leads back to its own cell, and costs 255.
#[derive(Clone, Copy)]
pub struct Hall<'a> {
    pub(crate) rows: u32,
    pub(crate) columns: u32,
    // by node
    pub(crate) cells: &'a [u8],
    ghost some_row: { 0 < rows },
    ghost some_column: { 0 < columns },
    ghost few: { rows * columns ≤ 4096 },
    ghost sized: { length cells.now ≡ rows * columns },
}
