// A line byte by byte: whether it is one bracket form, and where it ends.
ghost use Rattle.std.specs.Prelude.{◌≡◌, drop, IfErr};
ghost use Rattle.format.specs.Form.{letters, digits, belongs};
ghost use Rattle.format.specs.Walk.{phase_leave, phase_enter, phase_turn, line_walk, walked};

use crate::cursor::behind;
use crate::token::Line;

// Inside the line's form, or inside a form nested in it.
#[derive(Clone, Copy, PartialEq, Eq, Debug)]
pub enum Depth {
    Outer,
    Nested,
}

// Where in a line the reader stands.
#[derive(Clone, Copy, PartialEq, Eq, Debug)]
pub enum Phase {
    Begin,
    Need(Depth),
    Past(Depth),
    Word(Depth),
    Digits(Depth),
    Ended,
    Behind,
}

// A line, and its first byte, from 1, that fits nothing.
#[derive(Clone, Copy, PartialEq, Eq, Debug)]
pub struct Unfit {
    pub line: usize,
    pub byte: usize,
}

#[tactic(auto, unfolding(crate::specs::Form::belongs))]
pub fn is_letter(c: u8) -> bool
    ensures { result ≡ belongs letters c }
{
    c.is_ascii_lowercase()
}

#[tactic(auto, unfolding(crate::specs::Form::belongs))]
pub fn is_digit(c: u8) -> bool
    ensures { result ≡ belongs digits c }
{
    c.is_ascii_digit()
}

fn leave(depth: Depth, c: u8) -> Option<Phase>
    ensures { result ≡ phase_leave depth c }
{
    match (c, depth) {
        (b' ', _) => Some(Phase::Need(depth)),
        (b')', Depth::Nested) => Some(Phase::Past(Depth::Outer)),
        (b')', Depth::Outer) => Some(Phase::Ended),
        _ => None,
    }
}

fn enter(depth: Depth, c: u8) -> Option<Phase>
    ensures { result ≡ phase_enter depth c }
{
    match (c, depth) {
        (c, _) if is_letter(c) => Some(Phase::Word(depth)),
        (c, _) if is_digit(c) => Some(Phase::Digits(depth)),
        (b'-', _) => Some(Phase::Past(depth)),
        (b'(', Depth::Outer) => Some(Phase::Need(Depth::Nested)),
        _ => None,
    }
}

fn turn(phase: Phase, c: u8) -> Option<Phase>
    ensures { result ≡ phase_turn phase c }
{
    match phase {
        Phase::Begin if c == b'(' => Some(Phase::Need(Depth::Outer)),
        Phase::Need(depth) => enter(depth, c),
        Phase::Word(_) if is_letter(c) => Some(phase),
        Phase::Digits(_) if is_digit(c) => Some(phase),
        Phase::Past(depth) | Phase::Word(depth) | Phase::Digits(depth) => leave(depth, c),
        Phase::Ended if c == b'\n' => Some(Phase::Behind),
        _ => None,
    }
}

// Where the line ends, or its first byte that fits nothing.
pub fn line_end(line: Line) -> Result<usize, Unfit>
    ensures told { IfErr result (λ u. u.line ≡ line.entry.number) }
    ensures walked { line_walk (drop line.entry.from line.entry.text.now) ≡ walked line.entry.text.now result }
{
    let rest = behind(line.text, line.from);
    let mut phase = Phase::Begin;
    for (i, &c) in rest.iter().enumerate() {
        phase = turn(phase, c).ok_or(Unfit {
            line: line.number,
            byte: i + 1,
        })?;
        if phase == Phase::Behind {
            return Ok(line.from + i + 1);
        }
    }
    Err(Unfit {
        line: line.number,
        byte: rest.len() + 1,
    })
}
