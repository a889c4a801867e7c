// What a call answers: how much it read or wrote, or why and where it refused.

pub(crate) type Answer = Result<usize, Refusal>;

#[derive(Clone, Copy, PartialEq, Eq)]
pub(crate) struct Refusal {
    pub reason: Reason,
    pub place: usize,
}

#[derive(Clone, Copy, PartialEq, Eq)]
pub(crate) enum Reason {
    BadState = 1,
    BadGrants = 2,
    NoOffset = 3,
    BadCount = 4,
    BadSetting = 5,
    NoRegister = 6,
    NotClear = 7,
    BadValue = 8,
    NotGranted = 9,
    EndsInside = 10,
    NoRoom = 11,
    BadCell = 12,
    BadPair = 14,
    Full = 23,
    // None of those: no call here may give it.
    Unlisted = 255,
}

impl Reason {
    pub(crate) fn at(self, place: usize) -> Refusal {
        Refusal {
            reason: self,
            place,
        }
    }

    // An engine is refused at opening already.
    pub(crate) fn is_at_opening(self) -> bool {
        matches!(self, Reason::BadState | Reason::BadGrants)
    }

    // It speaks of one word of a batch.
    pub(crate) fn is_of_word(self) -> bool {
        matches!(
            self,
            Reason::NoOffset
                | Reason::BadCount
                | Reason::BadSetting
                | Reason::NoRegister
                | Reason::NotClear
                | Reason::BadValue
                | Reason::NotGranted
        )
    }
}

impl From<u32> for Reason {
    fn from(number: u32) -> Reason {
        match number {
            1 => Reason::BadState,
            2 => Reason::BadGrants,
            3 => Reason::NoOffset,
            4 => Reason::BadCount,
            5 => Reason::BadSetting,
            6 => Reason::NoRegister,
            7 => Reason::NotClear,
            8 => Reason::BadValue,
            9 => Reason::NotGranted,
            10 => Reason::EndsInside,
            11 => Reason::NoRoom,
            12 => Reason::BadCell,
            14 => Reason::BadPair,
            23 => Reason::Full,
            _ => Reason::Unlisted,
        }
    }
}

// An answer as one number, as in the C call: the place times 256, and the reason.
pub(crate) fn number(answer: Answer) -> u64 {
    let (place, reason) = match answer {
        Ok(place) => (place, 0),
        Err(refusal) => (refusal.place, refusal.reason as u64),
    };
    (place as u64).wrapping_mul(256).wrapping_add(reason)
}
