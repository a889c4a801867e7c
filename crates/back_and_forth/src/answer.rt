// What a call answers, in this program's own words: how far it came, or why it refused and where.
use std::fmt;

pub(super) type Answer = Result<usize, Refusal>;

#[derive(Clone, Copy, PartialEq, Eq)]
pub(super) struct Refusal {
    pub(super) reason: Reason,
    pub(super) place: usize,
}

// The reasons that reading a listing has, and any other.
#[derive(Clone, Copy, PartialEq, Eq, PartialOrd, Ord)]
pub(super) enum Reason {
    BadState,
    NotAListing,
    Other(u32),
}

impl From<u32> for Reason {
    fn from(number: u32) -> Reason {
        match number {
            1 => Reason::BadState,
            19 => Reason::NotAListing,
            _ => Reason::Other(number),
        }
    }
}

impl From<Reason> for u32 {
    fn from(reason: Reason) -> u32 {
        match reason {
            Reason::BadState => 1,
            Reason::NotAListing => 19,
            Reason::Other(number) => number,
        }
    }
}

// The answer of a reason's number, which is 0 for success, and a place.
pub(super) fn numbered(reason: u32, place: usize) -> Answer {
    if reason == 0 {
        return Ok(place);
    }
    Err(Refusal {
        reason: Reason::from(reason),
        place,
    })
}

// An answer as it is printed.
#[derive(Clone, Copy)]
pub(super) struct Told(pub(super) Answer);

impl fmt::Display for Told {
    fn fmt<W: fmt::Write>(&self, f: &mut fmt::Formatter<W>) -> fmt::Result {
        match self.0 {
            Ok(place) => write!(f, "0 at {place}"),
            Err(Refusal { reason, place }) => write!(f, "{} at {place}", u32::from(reason)),
        }
    }
}
