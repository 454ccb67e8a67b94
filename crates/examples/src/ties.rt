// Equal routes, where the smaller node number decides; and the plant of one node.
use crate::piles::route_four;
use plants::lane_plant::LanePlant;
use plants::lists::Lists;
use plants::make::lone;
use std::io;

// Two routes of two metres each, over node 1 and over node 2:
//
//     0 --1--> 1 --1--> 3
//     0 --1--> 2 --1--> 3
pub fn equal(rt: &HostRuntime) -> io::Result<()> {
    let lists = Lists {
        tails: &[0, 0, 1, 2],
        heads: &[1, 2, 3, 3],
        costs: &[1, 1, 1, 1],
        first_out: &[0, 2, 3, 4, 4],
        first_in: &[0, 0, 1, 2, 4],
        by_head: &[0, 1, 2, 3],
        to: &[],
        from: &[],
    };
    match LanePlant::new(4, 0, lists) {
        Ok(plant) => route_four(rt, &plant, 0, 3),
        Err(_) => Ok(()),
    }
}

pub fn one_node(rt: &HostRuntime) -> io::Result<()> {
    let plant = lone();
    route_four(rt, &plant, 0, 0)
}
