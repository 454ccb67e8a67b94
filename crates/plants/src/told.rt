// How a plant's fault is told.
ghost use Rattle.std.specs.Prelude.{◌≡◌};
ghost use Rattle.plants.specs.Told.{refusal_of};

use crate::fault::PlantFault;
use plant::refusal::{Layer, Refusal};

impl From<PlantFault> for Refusal {
    ghost from_gives = { λ fault told. told ≡ refusal_of fault };

    fn from(fault: PlantFault) -> Refusal {
        // the numbers are what a user is told, and the places that a fault names
        let (number, first, second) = match fault {
            PlantFault::Counts => (1, 0, 0),
            PlantFault::Lengths => (2, 0, 0),
            PlantFault::Ends(lane) => (3, lane, 0),
            PlantFault::Cost(lane) => (4, lane, 0),
            PlantFault::Index => (5, 0, 0),
            PlantFault::Table(landmark, lane) => (6, landmark, lane),
        };
        Refusal {
            number,
            layer: Layer::Plant,
            first,
            second,
        }
    }
}

impl PlantFault {
    // How the fault is told.
    pub fn refusal(self) -> Refusal
        ensures { result ≡ refusal_of self }
    {
        self.into()
    }
}
