// The four directions in which lanes lead from a cell.
ghost use Rattle.std.specs.Prelude.{◌≡◌, ◌%◌};
ghost use Rattle.plants.specs.Hall.{side_of};

#[derive(Clone, Copy, PartialEq, Eq, Debug)]
pub(crate) enum Direction {
    North,
    East,
    South,
    West,
}

impl Direction {
    // The direction of lane `k`. No `From`: a lane's number is more than a direction.
    pub(crate) fn of_lane(k: u32) -> Direction
        ensures { side_of result ≡ k % 4 }
    {
        match k % 4 {
            0 => Direction::North,
            1 => Direction::East,
            2 => Direction::South,
            _ => Direction::West,
        }
    }
}
