// Plants: the lane plant over lists of the caller, and the hall over a grid of cells.
#![tactic(auto)]

pub mod check;
mod direction;
mod draft;
pub mod fault;
mod firsts;
mod groups;
pub mod hall;
pub mod hall_questions;
pub mod index;
mod lane_ends;
pub mod lane_plant;
mod lengths;
pub mod lists;
pub mod make;
pub mod make_hall;
pub mod questions;
mod tables;
pub mod told;
