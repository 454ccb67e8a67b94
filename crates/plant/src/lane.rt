// A lane: an arc of a floor.

// A lane from the node `tail` to the node `head`.
#[derive(Clone, Copy)]
pub struct Lane<C> {
    pub tail: u32,
    pub head: u32,
    pub cost: C,
}
