// Cost kinds: what routes are compared by, the laws that every kind proves, and the two kinds lengths and classes.
#![tactic(auto)]

pub mod class;
pub mod class_kind;
pub mod kind;
pub mod length;
pub mod length_kind;
pub mod ordered_kind;
