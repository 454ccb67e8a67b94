// One side of a search. It stands alone so that specifications can name it.
ghost use Rattle.std.specs.Prelude.{◌≡◌, length};

use crate::entry::Entry;
use crate::row::Row;
use plant::lawful::Lawful;
use queue::{Queue, Ranked};

// The side that goes from `source` towards `target`: a row of each node, and the labelled nodes in a queue.
#[derive(Drop)]
pub(crate) struct Side<'p, 'r, 's, 'q, P: Lawful>
where
    Entry<P::Cost>: Ranked,
{
    pub plant: &'p P,
    pub source: u32,
    pub target: u32,
    pub rows: &'r mut [Row<P::Cost>],
    pub queue: &'s mut Queue<'q, Entry<P::Cost>>,
    ghost long: { length rows.now ≡ (P.Plant.floor plant.now).nodes },
}
