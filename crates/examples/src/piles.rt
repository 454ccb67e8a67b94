// Piles: a shift over a turned plant over a shift over a blind one.
use crate::show::route_on;
use cost::length::Length;
use plant::layers::blind::Blind;
use plant::layers::shift::Shift;
use plant::layers::turned::Turned;
use plant::plant::Plant;
use plants::index::index;
use plants::lane_plant::LanePlant;
use plants::lists::Lists;
use plants::make::{lone, make};
use search::entry::no_entry;
use search::rows::blank_row;
use std::io;

// Finds a least route over any plant of at most four nodes and five lanes, and prints it.
pub fn route_four<P: Plant<Cost = Length>>(
    rt: &HostRuntime,
    plant: &P,
    start: u32,
    goal: u32,
) -> io::Result<()> {
    let mut rows = [blank_row(); 4];
    let mut queue = [no_entry(); 6];
    route_on(rt, plant, start, goal, &mut rows, &mut queue, &mut [0; 4])
}

// Closes a lane below and another above, turns the floor round, and searches it from its end to its start.
fn layered(rt: &HostRuntime, plant: &LanePlant) -> io::Result<()> {
    route_four(rt, plant, 0, 3)?;
    let mut low = Shift::fresh(Blind { below: plant });
    let closed = low.close(2).is_ok();
    route_four(rt, &low, 0, 3)?;
    let mut high = Shift::fresh(Turned { below: &low });
    let both = high.close(1).is_ok();
    println!(rt; "closed {closed} {both}")?;
    route_four(rt, &high, 3, 0)?;
    let reopened = high.reopen(1).is_ok();
    println!(rt; "reopened {reopened}")?;
    route_four(rt, &high, 3, 0)
}

// The floor, with its lanes by number:
//
//     0 --0: 4--> 1 --2: 5--> 2 --4: 1--> 3
//     0 --1: 10-> 2     1 --3: 12-> 3
pub fn pile(rt: &HostRuntime) -> io::Result<()> {
    let tails = [0, 0, 1, 1, 2];
    let heads = [1, 2, 2, 3, 3];
    let costs = [4, 10, 5, 12, 1];
    let mut first_out = [0; 5];
    let mut first_in = [0; 5];
    let mut by_head = [0; 5];
    let indexed = index(
        4,
        &tails,
        &heads,
        &mut first_out,
        &mut first_in,
        &mut by_head,
    )
    .is_ok();
    println!(rt; "indexed {indexed}: {first_out:?} {first_in:?} {by_head:?}")?;
    let lists = Lists {
        tails: &tails,
        heads: &heads,
        costs: &costs,
        first_out: &first_out,
        first_in: &first_in,
        by_head: &by_head,
        to: &[10, 6, 1, 0],
        from: &[4294967295, 4294967295, 4294967295, 0],
    };
    let mut plant = lone();
    match make(&mut plant, 4, 1, lists) {
        Ok(()) => layered(rt, &plant),
        Err(_) => Ok(()),
    }
}
