// The replies to calls on a shift.
ghost use Rattle.std.specs.Prelude.{◌≡◌};
ghost use Rattle.search.specs.declared.reply.CallFault.TheVariants.{Search, Shift};

use crate::answer::{Answer, Counts};
use crate::fault::SearchFault;
use plant::layers::shift::ShiftFault;

// Why a call is refused.
#[derive(Clone, Copy, PartialEq, Eq, Debug)]
pub enum CallFault {
    Search(SearchFault),
    Shift(ShiftFault),
}

impl From<SearchFault> for CallFault {
    ghost from_gives = { λ fault r. r ≡ Search fault };

    fn from(fault: SearchFault) -> CallFault {
        CallFault::Search(fault)
    }
}

impl From<ShiftFault> for CallFault {
    ghost from_gives = { λ fault r. r ≡ Shift fault };

    fn from(fault: ShiftFault) -> CallFault {
        CallFault::Shift(fault)
    }
}

// What a call has done. The nodes of a route stand in the list of routes from the place `from` on: the list is the caller's.
#[derive(Clone, Copy, PartialEq, Eq, Debug)]
pub enum Done<C> {
    Closed(u32),
    Reopened(u32),
    Searched {
        answer: Answer<C, Counts>,
        from: usize,
    },
}

pub type Reply<C> = Result<Done<C>, CallFault>;
