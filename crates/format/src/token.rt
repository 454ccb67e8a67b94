// The tokens of a line.
ghost use Rattle.std.specs.Prelude.{◌≡◌};
ghost use Rattle.format.specs.Lex.{width};
ghost use Rattle.format.specs.Told.{token_of};

use crate::cursor::Cursor;

// A token; a run borrows its bytes from the text.
#[derive(Clone, Copy, PartialEq, Eq, Debug)]
pub enum Token<'a> {
    Open,
    Close,
    Hyphen,
    Word(&'a [u8]),
    Number(&'a [u8]),
}

impl Token<'_> {
    // How many bytes it has.
    pub(crate) fn width(self) -> usize
        ensures { result ≡ width (token_of self.entry) }
    {
        match self {
            Token::Open | Token::Close | Token::Hyphen => 1,
            Token::Word(text) | Token::Number(text) => text.len(),
        }
    }
}

// A line of a text: its number, from 1, and where it begins.
#[derive(Clone, Copy, Default)]
pub struct Line<'a> {
    pub text: &'a [u8],
    pub number: usize,
    pub from: usize,
}

impl<'a> Line<'a> {
    // The place where it begins.
    pub(crate) fn start(self) -> Cursor<'a>
        ensures { (result.line ≡ self.entry) × (result.at ≡ self.entry.from) }
    {
        Cursor {
            line: self,
            at: self.from,
        }
    }
}
