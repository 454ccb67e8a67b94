// Plant files and commands: bracket forms, a line each, read without allocation.
#![tactic(auto)]

ghost use Rattle.format.specs.Stands.{FormatStands};

pub mod command;
pub mod counts;
mod cursor;
pub mod fault;
mod form;
mod lanes;
mod line;
pub mod lists;
mod marks;
mod number;
mod phase;
pub mod plant_file;
mod plant_lines;
pub mod token;

// A plant file is accepted exactly when the writer writes it.
pub fn format_stands()
    ensures { FormatStands }
{}
