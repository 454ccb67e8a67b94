// A hall over cells of the caller, and the one to begin with.
ghost use Rattle.std.specs.Prelude.{◌≡◌, [], ◌∷◌, length, Some, None, IfOk};
ghost use Rattle.std.specs.Result.{result_err};
ghost use Rattle.plants.specs.Hall.{hall_fault};

use crate::fault::PlantFault;
use crate::hall::Hall;

impl<'a> Hall<'a> {
    // The hall of these sides and cells, or the first test that they fail.
    pub fn new(rows: u32, columns: u32, cells: &'a [u8]) -> Result<Hall<'a>, PlantFault>
        ensures fault { result_err result ≡ hall_fault rows columns (length cells.now) }
        ensures made { IfOk result (λ hall. (hall.rows ≡ rows) × (hall.columns ≡ columns) × (hall.cells.now ≡ cells.now)) }
    {
        // the product of two 32-bit numbers fits 64 bits
        if rows == 0 || columns == 0 || u64::from(rows) * u64::from(columns) > 4096 {
            return Err(PlantFault::Counts);
        }
        if cells.len() != (rows * columns) as usize {
            return Err(PlantFault::Lengths);
        }
        Ok(Hall {
            rows,
            columns,
            cells,
        })
    }
}

// Makes `hall` the one of these sides and cells, or tells the first test that they fail and leaves it as it was.
pub fn make_hall<'a>(
    hall: &mut Hall<'a>,
    rows: u32,
    columns: u32,
    cells: &'a [u8],
) -> Result<(), PlantFault>
    ensures fault { result_err result ≡ hall_fault rows columns (length cells.now) }
    ensures made { result_err result ≡ None → (hall.new.rows ≡ rows) × (hall.new.columns ≡ columns) × (hall.new.cells.now ≡ cells.now) }
    ensures kept { (f : PlantFault) → result_err result ≡ Some f → hall.new ≡ hall.old }
{
    *hall = Hall::new(rows, columns, cells)?;
    Ok(())
}

// The hall of one cell, which costs nothing to enter.
pub fn one_cell<'a>() -> Hall<'a>
    ensures { (result.rows ≡ 1) × (result.columns ≡ 1) × (result.cells.now ≡ 0 ∷ []) }
{
    Hall {
        rows: 1,
        columns: 1,
        cells: &[0],
    }
}
