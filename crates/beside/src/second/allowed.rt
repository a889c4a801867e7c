// The rules of the values.
use super::table::{Role, Rule};

impl Rule {
    // Whether a value with no bit set that must be clear may be stored.
    pub(crate) fn allows(self, v: u32) -> bool {
        match self {
            Rule::Size => v >> 12 & 0x7ff <= 1024 && v & 0x7ff <= 1024,
            Rule::Location => v >> 20 & 3 <= 1,
            Rule::Format => is_format(v >> 16 & 0xff),
            Rule::Elevens => v >> 6 & 63 <= 11 && v & 63 <= 11,
            Rule::Modes => are_modes(v),
            Rule::Codes => are_codes(v),
            Rule::NotThree => v & 3 != 3,
            Rule::Scaler(_) => v & 3 == 0,
            Rule::Any | Rule::Target => true,
        }
    }

    // The role of the address that a value holds, if it holds one.
    pub(crate) fn role(self) -> Option<Role> {
        match self {
            Rule::Target => Some(Role::Target),
            Rule::Scaler(role) => Some(role),
            _ => None,
        }
    }
}

impl Role {
    // The address in a value, as a whole number: a value of more than 24 bits holds one past 2^32 for the target.
    pub(crate) fn address_in(self, v: u32) -> u64 {
        match self {
            Role::Target => (v as u64) << 8,
            Role::FirstScaler | Role::SecondScaler => v as u64 & 0x1ffffff0,
        }
    }
}

// The format bytes with a size: the upper five bits, then which of the lower three.
fn is_format(byte: u32) -> bool {
    matches!(
        (byte >> 3, byte & 7),
        (0b00010, 5 | 6)
            | (0b00110, 0)
            | (0b10001 | 0b10101 | 0b11001 | 0b11100, 0..=3 | 5)
            | (0b10011 | 0b11011 | 0b11101, 0..=2)
            | (0b10111, 0..=3)
            | (0b11110, 0 | 4 | 5)
    )
}

// Bits 15:13, 12:10, 9:7 and 6:4 are at most 3 where none has its top bit. A 2 in the first goes with one in the third,
// and a 2 in the second with one in the fourth; alone it is refused.
fn are_modes(v: u32) -> bool {
    let is_two = |shift: u32| v >> shift & 3 == 2;
    v >> 16 & 31 <= 16
        && v & 0x9240 == 0
        && matches!(v & 15, 0 | 1 | 2 | 4)
        && is_two(13) == is_two(7)
        && is_two(10) == is_two(4)
}

fn are_codes(v: u32) -> bool {
    let is_code = |shift: u32| matches!(v >> shift & 7, 0..=3 | 7);
    v >> 19 & 7 <= 1 && v >> 16 & 7 <= 1 && is_code(6) && is_code(3) && is_code(0)
}
