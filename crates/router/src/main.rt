// The router: reads a plant file and then commands from standard input, and prints a line for each command.
#![tactic(auto)]

mod areas;
mod desk;
mod input;
mod show;

use desk::serve;
use input::read_input;

fn main(rt: HostRuntime) -> anyhow::Result<()> {
    let text = read_input(&rt)?;
    serve(&rt, text.as_slice())
}
