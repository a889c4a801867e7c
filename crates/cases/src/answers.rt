// What a call answers, and what a case expects of it, in types of this program's own.

use std::{fmt, io};

// Why a call refuses, with the numbers of the rules. The reader and the lister give no other reason.
#[derive(Clone, Copy, PartialEq, Eq)]
pub(super) enum Reason {
    BadState = 1,
    BadGrants = 2,
    BadOffset = 3,
    BadCount = 4,
    BadSetting = 5,
    NoRegister = 6,
    BitSet = 7,
    BadValue = 8,
    NotGranted = 9,
    EndsInside = 10,
    NoRoom = 11,
    BadPair = 14,
}

impl Reason {
    pub(super) const ALL: [Reason; 12] = [
        Reason::BadState,
        Reason::BadGrants,
        Reason::BadOffset,
        Reason::BadCount,
        Reason::BadSetting,
        Reason::NoRegister,
        Reason::BitSet,
        Reason::BadValue,
        Reason::NotGranted,
        Reason::EndsInside,
        Reason::NoRoom,
        Reason::BadPair,
    ];
}

// A number that is no reason's.
#[derive(Clone, Copy)]
pub(super) struct UnknownReason;

impl From<UnknownReason> for io::Error {
    fn from(_: UnknownReason) -> io::Error {
        io::Error::new(io::ErrorKind::InvalidData, "no reason has this number")
    }
}

impl TryFrom<u32> for Reason {
    type Error = UnknownReason;

    fn try_from(number: u32) -> Result<Reason, UnknownReason> {
        Reason::ALL
            .into_iter()
            .find(|reason| *reason as u32 == number)
            .ok_or(UnknownReason)
    }
}

#[derive(Clone, Copy, PartialEq, Eq)]
pub(super) struct Refusal {
    pub(super) reason: Reason,
    pub(super) place: usize,
}

impl Refusal {
    pub(super) fn at(reason: Reason, place: usize) -> Refusal {
        Refusal { reason, place }
    }
}

// The place that success has, or the refusal.
pub(super) type Answer = Result<usize, Refusal>;

// The answer by its two numbers; reason 0 is success.
pub(super) fn answer_of(reason: u32, place: usize) -> Result<Answer, UnknownReason> {
    if reason == 0 {
        return Ok(Ok(place));
    }
    Ok(Err(Refusal::at(Reason::try_from(reason)?, place)))
}

// An answer by its two numbers, as the page states it and as it is printed; reason 0 is success. A page can state any
// numbers.
#[derive(Clone, Copy, PartialEq, Eq)]
pub(super) struct Numbers {
    reason: u32,
    place: usize,
}

impl Numbers {
    // As one number, which is the place times 256 and the reason: the bits above the reason's eight are the place's.
    pub(super) fn stated(reason: u32, place: usize) -> Numbers {
        Numbers {
            reason: reason % 256,
            place: place | (reason / 256) as usize,
        }
    }
}

impl From<Answer> for Numbers {
    fn from(answer: Answer) -> Numbers {
        match answer {
            Ok(place) => Numbers { reason: 0, place },
            Err(Refusal { reason, place }) => Numbers {
                reason: reason as u32,
                place,
            },
        }
    }
}

impl fmt::Display for Numbers {
    fn fmt<W: fmt::Write>(&self, f: &mut fmt::Formatter<W>) -> fmt::Result {
        let Numbers { reason, place } = *self;
        write!(f, "{reason} at {place}")
    }
}

// What a case expects.
#[derive(Clone, Copy)]
pub(super) enum Expected {
    Just(Numbers),
    // Any answer but this one.
    Not(Numbers),
    Any,
}

impl Expected {
    pub(super) fn allows(self, told: Answer) -> bool {
        let told = Numbers::from(told);
        match self {
            Expected::Just(stated) => told == stated,
            Expected::Not(other) => told != other,
            Expected::Any => true,
        }
    }
}

impl fmt::Display for Expected {
    fn fmt<W: fmt::Write>(&self, f: &mut fmt::Formatter<W>) -> fmt::Result {
        match self {
            Expected::Just(stated) => stated.fmt(f),
            // Kept: the output has the highest reason at the highest place here, which no answer has.
            _ => write!(f, "255 at 72057594037927935"),
        }
    }
}
