// Layers: each holds a plant, or a pile of layers on one, and is again a plant.
// What a layer leaves as it is it passes on by a line: one impl for all layers would overlap with that for `&P`.
pub mod blind;
pub mod closing;
pub mod shift;
pub mod shift_plant;
pub mod turned;
