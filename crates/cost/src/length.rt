// Lengths: metres of way, added along a route.
ghost use Rattle.std.specs.Prelude.{◌≡◌, ◌≤◌, Some};
ghost use Rattle.std.specs.Fmt.{decimal};

use std::fmt;

// A length in metres, of which the greatest number means beyond. The invariant lets the laws speak of every value.
#[derive(Clone, Copy, PartialEq, Eq, PartialOrd, Ord, Debug)]
pub struct Length {
    pub metres: u32,
    ghost ok: { metres ≤ 4294967295 },
}

impl From<u32> for Length {
    ghost from_gives = { λ metres r. r.metres ≡ metres };

    fn from(metres: u32) -> Length {
        Length { metres }
    }
}

impl Length {
    pub fn of(metres: u32) -> Length
        ensures { result.metres ≡ metres }
    {
        Length::from(metres)
    }
}

impl fmt::Display for Length {
    ghost output = { λ c. Some (decimal c.metres) };

    fn fmt<W: fmt::Write>(&self, f: &mut fmt::Formatter<W>) -> fmt::Result {
        write!(f, "{}", self.metres)
    }
}
