// Classes: grades of floor, of which a route has its worst.
ghost use Rattle.std.specs.Prelude.{◌≡◌, ◌≤◌, Some};
ghost use Rattle.std.specs.Fmt.{decimal};

use std::fmt;

// A grade of floor, of which 255 means beyond. The invariant lets the laws speak of every value.
// Not one generic type with `Length`: they share a constructor and how they are printed, and their fields have each its own name.
#[derive(Clone, Copy, PartialEq, Eq, PartialOrd, Ord, Debug)]
pub struct Class {
    pub grade: u8,
    ghost ok: { grade ≤ 255 },
}

impl From<u8> for Class {
    ghost from_gives = { λ grade r. r.grade ≡ grade };

    fn from(grade: u8) -> Class {
        Class { grade }
    }
}

impl Class {
    pub fn of(grade: u8) -> Class
        ensures { result.grade ≡ grade }
    {
        Class::from(grade)
    }
}

impl fmt::Display for Class {
    ghost output = { λ c. Some (decimal c.grade) };

    fn fmt<W: fmt::Write>(&self, f: &mut fmt::Formatter<W>) -> fmt::Result {
        write!(f, "{}", self.grade)
    }
}
