// The lists that a lane plant is made from; they belong to the caller.

// A compressed sparse row graph, by tail and by head, with the tables of its landmarks. `L` is how a list is held.
// Eight lists side by side, and not one of structs: a caller lends each as plain numbers, as it always could.
#[derive(Clone, Copy, Drop)]
pub struct ListsOf<L> {
    // by lane number; tails never fall
    pub tails: L,
    pub heads: L,
    pub costs: L,
    // by node, and one more: how many lanes have a tail, or a head, below it
    pub first_out: L,
    pub first_in: L,
    // the lane numbers by head, those of one head by rising number
    pub by_head: L,
    // by landmark and then node: the cost to the landmark, and from it
    pub to: L,
    pub from: L,
}

// The lists of a plant, to be read.
pub type Lists<'a> = ListsOf<&'a [u32]>;
