// The commands that follow a plant file, a line each.
ghost use Rattle.std.specs.Prelude.{◌≡◌, ◌-◌, ◌==◌, List, length, drop, position};
ghost use Rattle.format.specs.Commands.{command_of, command_line, CommandRead, behind_feed};
ghost use Rattle.format.specs.Form.{Token as Spelt};
ghost use Rattle.format.specs.Places.{TokensIn};

use crate::cursor::behind;
use crate::fault::ReadFault;
use crate::form::take_numbers;
use crate::line::{Whole, read_whole};
use crate::token::Line;
use search::call::Call;

// A command, and where the next line begins: a `Whole`, but public, with the names that its callers read.
#[derive(Clone, Copy, PartialEq, Eq, Debug)]
pub struct CommandLine {
    pub command: Call,
    pub end: usize,
}

// The whole line as a command. Tried as a chain of `or_else`: what its closures answer did not reach the proof.
fn take_command(line: Line) -> Option<Call>
    ensures { (ts : List Spelt) → TokensIn line.entry ts → command_of ts ≡ result }
{
    if let Some(numbers) = take_numbers::<2>(line, b"one") {
        let [start, goal] = numbers;
        return Some(Call::One { start, goal });
    }
    if let Some(numbers) = take_numbers::<2>(line, b"two") {
        let [start, goal] = numbers;
        return Some(Call::Two { start, goal });
    }
    if let Some(numbers) = take_numbers::<1>(line, b"close") {
        let [lane] = numbers;
        return Some(Call::Close(lane));
    }
    let [lane] = take_numbers::<1>(line, b"reopen")?;
    Some(Call::Reopen(lane))
}

// The command on the line that begins at a byte.
pub fn read_command(text: &[u8], from: usize, line: usize) -> Result<CommandLine, ReadFault>
    ensures { CommandRead text.now (command_line line (drop from text.now)) result }
{
    let here = Line {
        text,
        number: line,
        from,
    };
    let Whole { form, end } = read_whole(here, take_command)?;
    Ok(CommandLine { command: form, end })
}

// Where the first line feed is.
fn line_feed(text: &[u8]) -> Option<usize>
    ensures { result ≡ position (λ c. c == 10) text.now }
{
    text.iter().position(|c| *c == b'\n')
}

// The place behind the next line feed, or the text's end: there a line that is no form ends.
pub fn line_feed_after(text: &[u8], from: usize) -> usize
    ensures { result ≡ length text.now - length (behind_feed (drop from text.now)) }
{
    // tried as a `map_or`: the closure's sum asks for a bound that does not reach it
    match line_feed(behind(text, from)) {
        Some(i) => from + i + 1,
        None => text.len(),
    }
}
