// Why lists make no plant.

// The first test that the lists of a plant fail.
#[derive(Clone, Copy, PartialEq, Eq, Debug)]
pub enum PlantFault {
    // too few or too many nodes, lanes or landmarks
    Counts,
    // a list of the wrong length
    Lengths,
    // an end of the lane is no node, or its tail is below the one before
    Ends(usize),
    // the lane costs too much
    Cost(usize),
    // the index lists are not those of the lanes
    Index,
    // the lane contradicts a table of the landmark
    Table(usize, usize),
}
