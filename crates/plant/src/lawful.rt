// The trait of plants that are known to be lawful without being asked.
ghost use Rattle.plant.specs.Floor.{FloorLaws};

use crate::plant::Plant;

// A plant whose type alone says that its floor is lawful. `Plant` says it of the value that is asked, whose numbers have the
// range of their types; here it is of every record of its fields, where a number is of any size. `Sound` makes one of any plant.
pub trait Lawful: Plant {
    ghost lawful: { (t : Self) → FloorLaws Self.Cost.CostKind.kind (Self.Plant.floor t) };
}
