// How many nodes a side has scanned.
ghost use Rattle.std.specs.Prelude.{◌≡◌, ◌^◌, ◌<◌, length};
ghost use Rattle.search.specs.Steps.{count_scanned};

use crate::row::Row;
use cost::kind::CostKind;

#[tactic(auto, using(crate::proofs::RowCounts::count_scanned_by))]
pub(crate) fn scanned_of<C: CostKind>(rows: &[Row<C>]) -> u32
    requires { length rows.now < 2 ^ 32 }
    ensures { result ≡ count_scanned rows.now }
{
    rows.iter().filter(|row| row.state.is_scanned()).count() as u32
}
