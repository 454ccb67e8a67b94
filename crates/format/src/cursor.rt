// A place in a line, and what is taken from there on.
ghost use Rattle.std.specs.Prelude.{◌≡◌, ◌+◌, ◌≤◌, List, [], drop, Decides};
ghost use Rattle.format.specs.Form.{Token as Spelt, Kind};
ghost use Rattle.format.specs.Items.{begins, closes, number as a_number, value as a_value, values};
ghost use Rattle.format.specs.Lex.{lex_item, lex, gap, width, front};
ghost use Rattle.format.specs.Places.{TokensFrom, Meets, Passed, TookPast, TookNumber, passed};
ghost use Rattle.format.specs.Told.{token_of, LexedAs, Told, TestsFor};

use crate::number::number;
use crate::phase::{is_digit, is_letter};
use crate::token::{Line, Token};

// The length that no route has, written as a hyphen.
const BEYOND: u32 = 4294967295;

// A place in a line. The tokens from there on are a premise of the clauses, and no ghost field, since lines are walked before they are tested.
#[derive(Clone, Copy, Default)]
pub struct Cursor<'a> {
    pub line: Line<'a>,
    pub at: usize,
}

// The bytes from a place on.
pub fn behind(text: &[u8], from: usize) -> &[u8]
    ensures { result.now ≡ drop from text.now }
{
    text.get(from..).unwrap_or(&[])
}

// The bytes in front that a test holds of.
fn run<F: Fn(u8) -> bool>(text: &[u8], test: F) -> &[u8]
    requires { F.IsAlwaysCallable test }
    ensures { (k : Kind) → TestsFor (λ c b. F.post test c b) k → result.now ≡ front k text.now }
{
    // tried by `position`: that its closure answers by the test did not reach the proof
    for (i, c) in text.iter().enumerate() {
        if !test(*c) {
            return &text[..i];
        }
    }
    text
}

// The token that begins a text.
fn token(text: &[u8]) -> Option<Token<'_>>
    ensures { LexedAs (lex_item text.now) result }
{
    match *text.first()? {
        c if is_letter(c) => Some(Token::Word(run(text, is_letter))),
        c if is_digit(c) => Some(Token::Number(run(text, is_digit))),
        b'-' => Some(Token::Hyphen),
        b'(' => Some(Token::Open),
        b')' => Some(Token::Close),
        _ => None,
    }
}

impl<'a> Cursor<'a> {
    // The next token, past a space if one stands there.
    pub fn next(&mut self) -> Option<Token<'a>>
        ensures told { let rest = drop self.old.at self.old.line.text.now in Told (lex rest) self.old.line (self.old.at + gap rest) self.new result }
        ensures taken { (ts : List Spelt) → TokensFrom self.old ts → Meets self.new ts result }
    {
        let rest = behind(self.line.text, self.at);
        let inner = rest.strip_prefix(b" ").unwrap_or(rest);
        let token = token(inner)?;
        self.at += rest.len() - inner.len() + token.width();
        Some(token)
    }

    // Past a given token.
    fn pass(&mut self, wanted: Token) -> Option<()>
        ensures { (ts : List Spelt) → TokensFrom self.old ts → Passed (token_of wanted.entry) self.new ts result }
    {
        (self.next()? == wanted).then_some(())
    }

    // Past the bracket and the word that a form begins with.
    pub fn open(&mut self, word: &[u8]) -> Option<()>
        ensures { (ts : List Spelt) → TokensFrom self.old ts → TookPast self.new (begins word.now ts) result }
    {
        self.pass(Token::Open)?;
        self.pass(Token::Word(word))
    }

    // Past the bracket that a form ends with.
    pub fn close(&mut self) -> Option<()>
        ensures { (ts : List Spelt) → TokensFrom self.old ts → TookPast self.new (closes ts) result }
    {
        self.pass(Token::Close)
    }

    // A number.
    pub fn number(&mut self) -> Option<u32>
        ensures { (ts : List Spelt) → TokensFrom self.old ts → TookNumber self.new (a_number ts) result }
    {
        match self.next()? {
            Token::Number(digits) => number(digits),
            _ => None,
        }
    }

    // A table's value: a number, or a hyphen for beyond. Beside `number`, an arm more: over it, a token would be put back.
    pub fn value(&mut self) -> Option<u32>
        ensures { (ts : List Spelt) → TokensFrom self.old ts → TookNumber self.new (a_value ts) result }
    {
        match self.next()? {
            Token::Number(digits) => number(digits),
            Token::Hyphen => Some(BEYOND),
            _ => None,
        }
    }

    // Past so many values of a table.
    pub fn skip_values(&mut self, count: u32) -> Option<()>
        ensures { (ts : List Spelt) → TokensFrom self.old ts → TookPast self.new (passed (values count ts)) result }
    {
        for _ in 0..count {
            self.value()?;
        }
        Some(())
    }

    // Whether no token stands from here on.
    pub fn is_over(mut self) -> bool
        ensures { (ts : List Spelt) → TokensFrom self.entry ts → Decides result (ts ≡ []) }
    {
        self.next().is_none()
    }
}
