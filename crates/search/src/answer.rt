// What a search answers.
ghost use Rattle.std.specs.Prelude.{◌≡◌, Some, None};

// A least route: what it costs, and how many nodes of it stand in the route list.
#[derive(Clone, Copy, PartialEq, Eq, Debug)]
pub struct Route<C> {
    pub cost: C,
    pub nodes: u32,
}

// How many nodes each side of a search from both ends has scanned.
#[derive(Clone, Copy, PartialEq, Eq, Debug)]
pub struct Both {
    pub forward: u32,
    pub back: u32,
}

// How many nodes a search has scanned, and a least route. Where there is none, no walk costs less than beyond.
#[derive(Clone, Copy, PartialEq, Eq, Debug)]
pub struct Answer<C, N> {
    pub scanned: N,
    pub route: Option<Route<C>>,
}

// How many nodes a search has scanned: from its start, and from its goal too where it goes from both ends.
#[derive(Clone, Copy, PartialEq, Eq, Debug)]
pub struct Counts {
    pub forward: u32,
    pub back: Option<u32>,
}

impl From<u32> for Counts {
    ghost from_gives = { λ scanned r. r ≡ record { forward = scanned; back = None } };

    fn from(scanned: u32) -> Counts {
        Counts {
            forward: scanned,
            back: None,
        }
    }
}

impl From<Both> for Counts {
    ghost from_gives = { λ scanned r. r ≡ record { forward = scanned.forward; back = Some scanned.back } };

    fn from(scanned: Both) -> Counts {
        Counts {
            forward: scanned.forward,
            back: Some(scanned.back),
        }
    }
}

impl<C: Copy, N: Copy + Into<Counts>> Answer<C, N> {
    // The same answer, whichever way it was searched for.
    pub fn counted(self) -> Answer<C, Counts>
        ensures scanned { N.converts self.scanned result.scanned }
        ensures route { result.route ≡ self.route }
    {
        Answer {
            scanned: self.scanned.into(),
            route: self.route,
        }
    }
}
