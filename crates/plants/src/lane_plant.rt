// A lane plant: lists that passed every test, kept as they are.
ghost use Rattle.std.specs.Prelude.{◌≡◌, true};
ghost use Rattle.plants.specs.Columns.{columns};
ghost use Rattle.plants.specs.Faults.{is_lawful};

use crate::lists::Lists;

// A plant over lists of the caller, which no test refuses.
#[derive(Clone, Copy)]
pub struct LanePlant<'a> {
    pub(crate) nodes: u32,
    pub(crate) landmarks: u32,
    pub(crate) lists: Lists<'a>,
    ghost lawful: { is_lawful nodes landmarks (columns lists) ≡ true },
}
