// Feeds a batch on standard input to an engine, word by word, and prints the answer at closing. The engine is opened with the
// empty state and the grants that the batches of bench/run need. bench/engine counts its instructions.
#![tactic(auto)]

use engine::Closed;
use std::alloc::{AllocError, Global};
use std::io::Read;
use std::{fmt, io};

// As many bytes as are read; what stands behind them is not looked at.
const MOST_BYTES: u64 = 65536;

// The bytes of a state.
const STATE_BYTES: usize = 808;

// What a grant's memory is for.
#[derive(Clone, Copy)]
enum Role {
    Target = 1,
    FirstScaler = 2,
    SecondScaler = 3,
}

#[derive(Clone, Copy)]
struct Grant {
    role: Role,
    start: u32,
    length: u32,
    reach: u32,
    memory: u32,
}

// A target at 00100000h, and a scaler's memory at 00200000h and at 00300000h.
const GRANTS: [Grant; 3] = [
    Grant {
        role: Role::Target,
        start: 0x0010_0000,
        length: 0x0008_0000,
        reach: 0x0008_0000,
        memory: 0,
    },
    Grant {
        role: Role::FirstScaler,
        start: 0x0020_0000,
        length: 0x0008_0000,
        reach: 0x0000_1000,
        memory: 0,
    },
    Grant {
        role: Role::SecondScaler,
        start: 0x0030_0000,
        length: 0x0008_0000,
        reach: 0x0000_1000,
        memory: 0,
    },
];

impl Grant {
    fn words(self) -> [u32; 5] {
        [
            self.role as u32,
            self.start,
            self.length,
            self.reach,
            self.memory,
        ]
    }
}

// The grants as a call takes them.
fn grant_bytes(alloc: Global) -> Result<Vec<u8>, AllocError> {
    let mut bytes = Vec::new(alloc);
    for grant in GRANTS {
        for word in grant.words() {
            bytes.extend_from_slice(&word.to_le_bytes())?;
        }
    }
    Ok(bytes)
}

// What closing told: the number of the reason, 0 for success, and the place.
#[derive(Clone, Copy)]
struct Told {
    reason: u32,
    place: usize,
}

impl From<Closed> for Told {
    fn from(closed: Closed) -> Told {
        Told {
            reason: closed.reason,
            place: closed.place,
        }
    }
}

impl fmt::Display for Told {
    fn fmt<W: fmt::Write>(&self, f: &mut fmt::Formatter<W>) -> fmt::Result {
        write!(f, "reason={} place={}", self.reason, self.place)
    }
}

// The only place that calls the engine. Bytes past the last whole word are not fed.
fn feed(batch: &[u8], grants: &[u8]) -> Told {
    let mut engine = engine::open(&[0; STATE_BYTES], grants);
    let (words, _) = batch.as_chunks::<4>();
    // Kept: a loop, since a fold over engine::feed costs a third more instructions, more than bench/engine allows.
    for word in words {
        engine = engine::feed(engine, u32::from_le_bytes(*word));
    }
    Told::from(engine::close(engine))
}

fn main(rt: HostRuntime) -> io::Result<()> {
    // Kept: room for all of it at once, so that no room is left behind on the way.
    let mut batch = Vec::with_capacity(rt.alloc(), MOST_BYTES as usize)?;
    rt.stdin().take(MOST_BYTES).read_to_end(&mut batch)?;
    println!(rt; "{}", feed(&batch, &grant_bytes(rt.alloc())?))
}
