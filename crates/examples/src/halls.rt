// Halls: least classes over a grid of cells.
use crate::show::route_on;
use cost::class::Class;
use plants::hall::Hall;
use plants::make_hall::{make_hall, one_cell};
use search::entry::no_entry;
use search::rows::blank_row;
use search::survey::survey_from;
use std::io;

// Finds the least class from one cell to another of a hall of six cells, and prints it.
fn route_six(rt: &HostRuntime, hall: &Hall, start: u32, goal: u32) -> io::Result<()> {
    let mut rows = [blank_row(); 6];
    let mut queue = [no_entry(); 25];
    route_on(rt, hall, start, goal, &mut rows, &mut queue, &mut [0; 6])
}

// Prints the least class from a cell to every other of a hall of six cells.
fn survey_six(rt: &HostRuntime, hall: &Hall, start: u32) -> io::Result<()> {
    let mut rows = [blank_row(); 6];
    let mut queue = [no_entry(); 25];
    let mut costs = [Class::from(0); 6];
    match survey_from(hall, start, &mut rows, &mut queue, &mut costs) {
        Ok(scanned) => {
            let grades = costs.map(|cost| cost.grade);
            println!(rt; "from {start}: {grades:?}, {scanned} scanned")
        }
        Err(_) => println!(rt; "from {start}: refused"),
    }
}

// Two rows of three cells:
//
//     1 5 2
//     1 3 2
//
// From cell 0 to cell 2 the way over cell 1 has class 5, and the one through the lower row class 3.
pub fn whole(rt: &HostRuntime) -> io::Result<()> {
    let cells = [1, 5, 2, 1, 3, 2];
    let mut hall = one_cell();
    match make_hall(&mut hall, 2, 3, &cells) {
        Ok(()) => {
            route_six(rt, &hall, 0, 2)?;
            survey_six(rt, &hall, 0)
        }
        Err(_) => Ok(()),
    }
}

// The middle column is blocked, so no way leads across:
//
//     1 # 2
//     1 # 2
pub fn in_two(rt: &HostRuntime) -> io::Result<()> {
    let cells = [1, 255, 2, 1, 255, 2];
    match Hall::new(2, 3, &cells) {
        Ok(hall) => {
            route_six(rt, &hall, 0, 2)?;
            route_six(rt, &hall, 0, 3)
        }
        Err(_) => Ok(()),
    }
}
