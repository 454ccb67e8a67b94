// What a lane plant is to be made from, before any test.
use crate::lists::Lists;

#[derive(Clone, Copy)]
pub(crate) struct Draft<'a> {
    pub(crate) nodes: u32,
    pub(crate) landmarks: u32,
    pub(crate) lists: Lists<'a>,
}
