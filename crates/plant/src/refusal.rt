// How a refused call is told: a number, the layer that refused, and two places.
ghost use Rattle.std.specs.Prelude.{Some};
ghost use Rattle.plant.specs.Layers.{layer_name};

use std::fmt;

// The part of the router that refused.
#[derive(Clone, Copy, PartialEq, Eq, Debug)]
pub enum Layer {
    Plant,
    Search,
    Shift,
    Text,
    Form,
}

impl fmt::Display for Layer {
    ghost output = { λ l. Some (layer_name l) };

    fn fmt<W: fmt::Write>(&self, f: &mut fmt::Formatter<W>) -> fmt::Result {
        f.write_str(match self {
            Layer::Plant => "plant",
            Layer::Search => "search",
            Layer::Shift => "shift",
            Layer::Text => "text",
            Layer::Form => "form",
        })
    }
}

// What a fault says, whatever its enum: a place is 0 where none is named.
// Kept as a number and two places: a refusal is printed as these, and each fault's own enum has the case and what it names.
#[derive(Clone, Copy, PartialEq, Eq, Debug)]
pub struct Refusal {
    pub number: u8,
    pub layer: Layer,
    pub first: usize,
    pub second: usize,
}
