// A hall answers the questions of a plant, each in constant time.
ghost use Rattle.std.specs.Prelude.{◌≡◌, ◌*◌, ◌<◌, IfSome};
ghost use Rattle.plants.specs.HallLaws.{hall_laws};
ghost use Rattle.plants.specs.HallSides.{rows_of};
ghost use Rattle.plants.specs.Hall.{neighbour, side_of, hall_floor};

use crate::direction::Direction;
use crate::hall::Hall;
use cost::class::Class;
use cost::kind::CostKind;
use plant::lane::Lane;
use plant::lawful::Lawful;
use plant::plant::Plant;

impl Plant for Hall<'_> {
    type Cost = Class;

    ghost floor = { hall_floor };

    fn node_count(&self) -> u32 {
        self.rows * self.columns
    }

    fn lane_count(&self) -> u32 {
        4 * (self.rows * self.columns)
    }

    fn lane(&self, k: u32) -> Option<Lane<Class>> {
        let v = k / 4;
        if v >= self.rows * self.columns {
            return None;
        }
        let neighbour = self.neighbour(v, Direction::of_lane(k));
        Some(Lane {
            tail: v,
            head: neighbour.unwrap_or(v),
            cost: Class::from(neighbour.map_or(255, |w| self.cells[w as usize])),
        })
    }

    fn out_lane(&self, v: u32, j: u32) -> Option<u32> {
        (v < self.rows * self.columns && j < 4).then(|| 4 * v + j)
    }

    // Eight lanes may lead into `v`, by rising number: from the north, from the west, v's own to the north, east, south and
    // west, from the east, from the south. On each side one of the two does, the neighbour's or, at an edge, v's own.
    // Counted, and not listed and filtered: that was tried, and takes more than three times as long.
    fn into_lane(&self, v: u32, j: u32) -> Option<u32> {
        let nodes = self.rows * self.columns;
        if v >= nodes || j >= 4 {
            return None;
        }
        let w = self.columns;
        let north = (v >= w) as u32;
        let east = ((v + 1) % w > 0) as u32;
        let south = (v + w < nodes) as u32;
        let west = (v % w > 0) as u32;
        // each test counts those so far, v's own on a side as 1 less the neighbour's
        if j < north {
            Some(4 * (v - w) + 2)
        } else if j < north + west {
            Some(4 * (v - 1) + 1)
        } else if j < west + 1 {
            Some(4 * v)
        } else if j + east < west + 2 {
            Some(4 * v + 1)
        } else if j + east + south < west + 3 {
            Some(4 * v + 2)
        } else if j + east + south < 4 {
            Some(4 * v + 3)
        } else if j + south < 4 {
            Some(4 * (v + 1) + 3)
        } else {
            Some(4 * (v + w))
        }
    }

    fn bound(&self, v: u32, w: u32) -> Class {
        let nodes = self.rows * self.columns;
        if v >= nodes || w >= nodes || v == w {
            return Class::from(0);
        }
        Class::from(self.cells[w as usize])
    }
}

impl Lawful for Hall<'_> {
    ghost lawful = { λ h. hall_laws _ _ _ (rows_of h) };
}

impl Hall<'_> {
    // The neighbour of `v` to that side, where there is one.
    fn neighbour(self, v: u32, side: Direction) -> Option<u32>
        requires { v < self.rows * self.columns }
        ensures inside { IfSome result (λ w. w < self.entry.rows * self.entry.columns) }
        ensures is { result ≡ neighbour (self.entry.rows * self.entry.columns) self.entry.columns v (side_of side) }
    {
        let w = self.columns;
        match side {
            Direction::North => v.checked_sub(w),
            Direction::East => ((v + 1) % w > 0).then(|| v + 1),
            Direction::South => (v + w < self.rows * self.columns).then(|| v + w),
            Direction::West => (v % w > 0).then(|| v - 1),
        }
    }
}
