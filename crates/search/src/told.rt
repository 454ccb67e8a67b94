// What a fault of a search, or of a call on a shift, is told as.
ghost use Rattle.std.specs.Prelude.{◌≡◌};
ghost use Rattle.search.specs.Told.{refusal_of, call_refusal_of};

use crate::fault::SearchFault;
use crate::reply::CallFault;
use plant::refusal::{Layer, Refusal};

impl From<SearchFault> for Refusal {
    ghost from_gives = { λ fault r. r ≡ refusal_of fault };

    fn from(fault: SearchFault) -> Refusal {
        // the numbers are those of `Refusal`, which the printed form fixes
        let (number, first) = match fault {
            SearchFault::Start(v) => (7, v as usize),
            SearchFault::Goal(v) => (7, v as usize),
            SearchFault::Rows
            | SearchFault::Queue
            | SearchFault::Route
            | SearchFault::Costs
            | SearchFault::Replies => (8, 0),
        };
        Refusal {
            number,
            layer: Layer::Search,
            first,
            second: 0,
        }
    }
}

impl SearchFault {
    // public, so it stays beside `From`
    pub fn refusal(self) -> Refusal
        ensures { result ≡ refusal_of self }
    {
        self.into()
    }
}

impl From<CallFault> for Refusal {
    ghost from_gives = { λ fault r. r ≡ call_refusal_of fault };

    fn from(fault: CallFault) -> Refusal {
        match fault {
            CallFault::Search(x) => x.into(),
            CallFault::Shift(x) => x.refusal(),
        }
    }
}

impl CallFault {
    // public, so it stays beside `From`
    pub fn refusal(self) -> Refusal
        ensures { result ≡ call_refusal_of self }
    {
        self.into()
    }
}
