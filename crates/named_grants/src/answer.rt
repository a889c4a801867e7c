// What calls answer. What is tested may answer wrongly, so that any reason and any place can be said.
use super::grant::MOST_GRANTS;
use std::fmt;

// The place at which the query succeeds where it tells no grant: a number that none has.
const NO_GRANT: usize = MOST_GRANTS;

// Why a call is refused. Reasons that no call here should give have only their number.
#[derive(Clone, Copy, PartialEq, Eq)]
pub(super) enum Reason {
    BadState,
    BadGrants,
    NotGranted,
    BadPair,
    Other(u32),
}

impl From<u32> for Reason {
    fn from(number: u32) -> Reason {
        match number {
            1 => Reason::BadState,
            2 => Reason::BadGrants,
            9 => Reason::NotGranted,
            14 => Reason::BadPair,
            _ => Reason::Other(number),
        }
    }
}

impl From<Reason> for u32 {
    fn from(reason: Reason) -> u32 {
        match reason {
            Reason::BadState => 1,
            Reason::BadGrants => 2,
            Reason::NotGranted => 9,
            Reason::BadPair => 14,
            Reason::Other(number) => number,
        }
    }
}

#[derive(Clone, Copy, PartialEq, Eq)]
pub(super) struct Refusal {
    pub(super) reason: Reason,
    pub(super) place: usize,
}

// What is refused as a whole has place 0.
impl From<Reason> for Refusal {
    fn from(reason: Reason) -> Refusal {
        Refusal { reason, place: 0 }
    }
}

// What the query answers: the number of a grant, or that it tells none.
#[derive(Clone, Copy, PartialEq, Eq)]
pub(super) struct Answer(pub(super) Result<Option<usize>, Refusal>);

// What succeeds at a place tells the grant of that number, if it can be one.
impl From<Result<usize, Refusal>> for Answer {
    fn from(outcome: Result<usize, Refusal>) -> Answer {
        Answer(outcome.map(|place| (place != NO_GRANT).then_some(place)))
    }
}

// From the one number that an answer is in the C call and on the page: the place times 256, and the reason.
impl From<u32> for Answer {
    fn from(number: u32) -> Answer {
        let place = (number / 256) as usize;
        Answer::from(match number % 256 {
            0 => Ok(place),
            reason => Err(Refusal {
                reason: Reason::from(reason),
                place,
            }),
        })
    }
}

impl fmt::Display for Answer {
    fn fmt<W: fmt::Write>(&self, f: &mut fmt::Formatter<W>) -> fmt::Result {
        let (place, reason) = match self.0 {
            Ok(grant) => (grant.unwrap_or(NO_GRANT), 0),
            Err(refusal) => (refusal.place, u32::from(refusal.reason)),
        };
        let number = (place as u64) << 8 | u64::from(reason);
        write!(f, "{number}")
    }
}
