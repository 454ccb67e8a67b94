// What a side knows of the other one while it follows lanes. It stands alone so that specifications can name it.
use crate::meeting::Meeting;
use crate::row::Row;

// The other side's rows, and the best route over a node that both sides have reached.
#[derive(Drop)]
pub(crate) struct Meeter<'a, C> {
    pub others: &'a [Row<C>],
    pub met: Meeting<C>,
}
