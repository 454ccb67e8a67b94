// The printed forms of answers and refusals.
use cost::length::Length;
use format::fault::ReadFault;
use plant::refusal::Refusal;
use search::answer::{Counts, Route};
use search::reply::{Done, Reply};
use std::fmt;

// The nodes of a route, parted by spaces.
#[derive(Drop)]
pub struct Nodes<'a>(pub &'a [u32]);

impl fmt::Display for Nodes<'_> {
    fn fmt<W: fmt::Write>(&self, f: &mut fmt::Formatter<W>) -> fmt::Result {
        for (i, v) in self.0.iter().enumerate() {
            if i > 0 {
                f.write_str(" ")?;
            }
            write!(f, "{v}")?;
        }
        Ok(())
    }
}

// A refusal, and the line that the reader adds to a plant's.
#[derive(Drop)]
pub struct Refused {
    refusal: Refusal,
    line: Option<usize>,
}

impl From<Refusal> for Refused {
    fn from(refusal: Refusal) -> Refused {
        Refused {
            refusal,
            line: None,
        }
    }
}

impl From<ReadFault> for Refused {
    fn from(fault: ReadFault) -> Refused {
        Refused {
            refusal: Refusal::from(fault),
            line: fault.added_line(),
        }
    }
}

impl fmt::Display for Refused {
    fn fmt<W: fmt::Write>(&self, f: &mut fmt::Formatter<W>) -> fmt::Result {
        let Refusal {
            number,
            layer,
            first,
            second,
        } = self.refusal;
        write!(f, "(refused {number} {layer} {first} {second}")?;
        if let Some(line) = self.line {
            write!(f, " {line}")?;
        }
        f.write_str(")")
    }
}

// How many nodes a search has scanned, on one side or on both.
#[derive(Drop)]
struct Scans(Counts);

impl fmt::Display for Scans {
    fn fmt<W: fmt::Write>(&self, f: &mut fmt::Formatter<W>) -> fmt::Result {
        let Counts { forward, back } = self.0;
        write!(f, "{forward}")?;
        if let Some(back) = back {
            write!(f, " {back}")?;
        }
        Ok(())
    }
}

// The reply to a call, with the list that routes stand in.
#[derive(Drop)]
pub struct Told<'a> {
    pub reply: Reply<Length>,
    pub routes: &'a [u32],
}

// The nodes of a route, as many as the list has of them.
fn nodes_at(routes: &[u32], from: usize, nodes: u32) -> Nodes {
    let low = from.min(routes.len());
    let high = low.saturating_add(nodes as usize).min(routes.len());
    Nodes(&routes[low..high])
}

impl fmt::Display for Told<'_> {
    fn fmt<W: fmt::Write>(&self, f: &mut fmt::Formatter<W>) -> fmt::Result {
        match self.reply {
            Ok(Done::Closed(lane)) => write!(f, "(closed {lane})"),
            Ok(Done::Reopened(lane)) => write!(f, "(reopened {lane})"),
            Ok(Done::Searched { answer, from }) => {
                let scans = Scans(answer.scanned);
                match answer.route {
                    Some(Route { cost, nodes }) => {
                        let nodes = nodes_at(self.routes, from, nodes);
                        write!(f, "(route {cost} {scans} ({nodes}))")
                    }
                    None => write!(f, "(beyond {scans})"),
                }
            }
            Err(fault) => {
                let told = Refused::from(Refusal::from(fault));
                write!(f, "{told}")
            }
        }
    }
}
