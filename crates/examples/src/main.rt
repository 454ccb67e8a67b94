// Worked examples: halls searched one way and surveyed, layers piled on a lane plant, and ties.
#![tactic(auto)]

mod halls;
mod piles;
mod show;
mod ties;

use std::io;

fn main(rt: HostRuntime) -> io::Result<()> {
    halls::whole(&rt)?;
    halls::in_two(&rt)?;
    piles::pile(&rt)?;
    ties::equal(&rt)?;
    ties::one_node(&rt)
}
