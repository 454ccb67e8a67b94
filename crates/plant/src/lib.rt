// Plants: what a floor answers and means, layers over any plant, and how a refusal is told.
#![tactic(auto)]

pub mod lane;
pub mod lawful;
pub mod layers;
pub mod lent;
pub mod plant;
pub mod refusal;
pub mod sound;
