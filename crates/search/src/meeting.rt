// Where the two sides of a search have met.

// The cost of the best route so far, beyond where there is none, and the node where its two parts meet.
// No Option: beyond is the greatest cost, so every test compares the cost alone.
#[derive(Clone, Copy)]
pub struct Meeting<C> {
    pub cost: C,
    pub node: u32,
}
