// The work areas of the calls on a shift.
use crate::entry::Entry;
use crate::row::Row;

// Rows and a queue for each side of a search, and the list that routes are written into. They belong to the caller.
#[derive(Drop)]
pub(crate) struct Areas<'a, C> {
    pub rows: &'a mut [Row<C>],
    pub back_rows: &'a mut [Row<C>],
    pub queue: &'a mut [Entry<C>],
    pub back_queue: &'a mut [Entry<C>],
    pub routes: &'a mut [u32],
}
