// The lists of 64 grants: what each is where grant m is the one that has the address, or the first that has it.
use super::grant::{Grant, Owner};

// An address that each of the seven registers can hold; and the reach of the grants around it.
pub(super) const HERE: u32 = 0x07654300;

const REACH: u32 = 0x100;

// Why a grant does not admit the address: it starts behind it, or ends a byte too soon for the reach, or has no room for
// it, or is another role's.
#[derive(Clone, Copy)]
pub(super) enum Miss {
    StartsBehind,
    EndsTooSoon,
    NoRoom,
    AnotherRole,
}

const MISSES: [Miss; 4] = [
    Miss::StartsBehind,
    Miss::EndsTooSoon,
    Miss::NoRoom,
    Miss::AnotherRole,
];

// What the other grants of a list are where one has the address: all miss it in one way, or in each way in turn; or so do
// those before the one, and those behind it have the address too.
#[derive(Clone, Copy)]
pub(super) enum Others {
    All(Miss),
    InTurn,
    HaveItBehind,
}

pub(super) fn having(owner: Owner) -> Grant {
    Grant::new(owner, HERE, REACH, REACH)
}

fn missing(miss: Miss, owner: Owner) -> Grant {
    match miss {
        Miss::StartsBehind => Grant::new(owner, HERE + 1, 0x1000, REACH),
        Miss::EndsTooSoon => Grant::new(owner, HERE - 0x1000, 0x10ff, REACH),
        Miss::NoRoom => Grant::new(owner, HERE, REACH - 1, REACH),
        Miss::AnotherRole => having(owner.of_next_role()),
    }
}

// Grant g where grant m is the one, and the owner's.
pub(super) fn beside(others: Others, g: u32, m: u32, owner: Owner) -> Grant {
    let miss = match others {
        _ if g == m => return having(owner),
        Others::HaveItBehind if g > m => return having(owner),
        Others::All(miss) => miss,
        _ => MISSES[g as usize % 4],
    };
    missing(miss, owner)
}

// Each has three of eight addresses, every two of four in the other memory. They start at each of the eight in turn, at
// every second, at every fourth, or all at one, forwards or backwards, by m; and by m too the address is another of the
// eight.
pub(super) fn overlapping(g: u32, m: u32, owner: Owner) -> Grant {
    let step = (g << m % 4 ^ m / 4 % 2 * 7) % 8;
    let start = HERE + step * 0x100 - m / 8 % 8 * 0x100;
    let is_apart = g / 2 % 2 == 1;
    Grant::new(owner.in_other_memory_if(is_apart), start, 0x300, REACH)
}

// All have the address. Those before grant m are in the other memory than it, and behind it every second is.
pub(super) fn in_two_memories(g: u32, m: u32, owner: Owner) -> Grant {
    let is_apart = g < m || (g ^ m) % 2 == 1;
    having(owner.in_other_memory_if(is_apart))
}
