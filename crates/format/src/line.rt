// The tests that every line has to pass, whatever it says: it is one form, and its numbers are sound.
ghost use Rattle.std.specs.Prelude.{◌≡◌, ℕ, false, List, drop};
ghost use Rattle.format.specs.Checked.{Checked, WholeRead};
ghost use Rattle.format.specs.Form.{Token as Spelt, begin, line as a_line, scan};
ghost use Rattle.format.specs.Items.{sound_token, unsound};
ghost use Rattle.format.specs.Told.{token_of};

use crate::fault::ReadFault;
use crate::number::number;
use crate::phase::line_end;
use crate::token::{Line, Token};

// Whether a token is no number that is refused.
fn is_sound(token: Token) -> bool
    ensures { result ≡ sound_token (token_of token.entry) }
{
    match token {
        Token::Number(digits) => number(digits).is_some(),
        _ => true,
    }
}

// The first byte, from 1, of the line's first number that is refused.
fn first_unsound(line: Line) -> Option<usize>
    ensures { (ts : List Spelt) (rest : List ℕ) → scan begin 1 (drop line.entry.from line.entry.text.now) ≡ a_line ts rest → unsound false 1 ts ≡ result }
{
    let mut cursor = line.start();
    while let Some(token) = cursor.next() {
        if !is_sound(token) {
            let before = cursor.at.saturating_sub(token.width());
            return Some(before.saturating_sub(line.from) + 1);
        }
    }
    None
}

// Where a line ends.
fn checked(line: Line) -> Result<usize, ReadFault>
    ensures { Checked line.entry.number line.entry.text.now line.entry.from result }
{
    let end = line_end(line)?;
    // tried as a `map_or`: what the closure answers did not reach the proof
    match first_unsound(line) {
        Some(byte) => Err(ReadFault::Number {
            line: line.number,
            byte,
        }),
        None => Ok(end),
    }
}

// What a whole line says, and where the next line begins.
#[derive(Clone, Copy)]
pub struct Whole<T> {
    pub form: T,
    pub end: usize,
}

// A line that passes its tests, taken as a form.
pub fn read_whole<'a, T: Copy, F: FnOnce(Line<'a>) -> Option<T>>(
    line: Line<'a>,
    take: F,
) -> Result<Whole<T>, ReadFault>
    requires { F.IsAlwaysCallable take }
    ensures { WholeRead line.entry (λ r. F.post take line.entry r) result }
{
    let end = checked(line)?;
    let form = take(line).ok_or(ReadFault::Form { line: line.number })?;
    Ok(Whole { form, end })
}
