// A search over any plant, and what is printed of it.
use cost::class::Class;
use cost::kind::CostKind;
use cost::length::Length;
use plant::plant::Plant;
use search::answer::{Answer, Route};
use search::entry::Entry;
use search::one_way::one_way;
use search::row::Row;
use std::{fmt, io};

// A kind of cost that can be printed, with its unit.
pub trait Printed: CostKind {
    fn print<W: fmt::Write>(self, f: &mut fmt::Formatter<W>) -> fmt::Result;
}

impl Printed for Length {
    fn print<W: fmt::Write>(self, f: &mut fmt::Formatter<W>) -> fmt::Result {
        write!(f, "{self} metres")
    }
}

impl Printed for Class {
    fn print<W: fmt::Write>(self, f: &mut fmt::Formatter<W>) -> fmt::Result {
        write!(f, "class {self}")
    }
}

// What a search has found, with the list that its route stands in.
#[derive(Drop)]
struct Found<'a, C> {
    answer: Answer<C, u32>,
    list: &'a [u32],
}

impl<C: Printed> fmt::Display for Found<'_, C> {
    fn fmt<W: fmt::Write>(&self, f: &mut fmt::Formatter<W>) -> fmt::Result {
        let Answer { scanned, route } = self.answer;
        let list = self.list;
        match route {
            Some(Route { cost, nodes }) => {
                cost.print(f)?;
                write!(f, ", {scanned} scanned, {nodes} nodes {list:?}")
            }
            None => write!(f, "beyond, {scanned} scanned"),
        }
    }
}

// Finds a least route over a plant, in areas of the caller, and prints it with the list that it is written into.
pub fn route_on<P: Plant<Cost: Printed>>(
    rt: &HostRuntime,
    plant: &P,
    start: u32,
    goal: u32,
    rows: &mut [Row<P::Cost>],
    queue: &mut [Entry<P::Cost>],
    list: &mut [u32],
) -> io::Result<()> {
    match one_way(plant, start, goal, rows, queue, list) {
        Ok(answer) => {
            let found = Found { answer, list };
            println!(rt; "{start} to {goal}: {found}")
        }
        Err(_) => println!(rt; "{start} to {goal}: refused"),
    }
}
