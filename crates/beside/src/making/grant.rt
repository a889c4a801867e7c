// Makes up grants.
use super::value::some_bits;
use crate::dice::Seed;
use std::alloc::{AllocError, Global};

// Where a grant starts: mostly where a scaler's address reaches; at times so that it ends at 2^32.
fn some_start(seed: Seed, length: u32) -> u32 {
    if seed.0 % 8 == 0 {
        length.wrapping_neg()
    } else {
        seed.0 >> 3
    }
}

// The grant of that number: roles in turn, so that three grants have all of them; the target's are in either memory.
fn some_grant(number: u32, seed: Seed) -> [u32; 5] {
    let length = seed.throw(1).0 >> 8;
    let start = some_start(seed.throw(2), length);
    let reach = some_bits(seed.throw(3)) & 0xffff | 1;
    let memory = if number % 3 == 0 { seed.0 % 2 } else { 0 };
    [number % 3 + 1, start, length, reach, memory]
}

fn how_many(seed: Seed) -> u32 {
    match seed.0 % 16 {
        0 => 0,
        1 => 64,
        _ => seed.0 / 16 % 6 + 2,
    }
}

pub(crate) fn some_grants(alloc: Global, seed: Seed) -> Result<Vec<u32>, AllocError> {
    let mut grants = Vec::new(alloc);
    for number in 0..how_many(seed) {
        grants.extend_from_slice(&some_grant(number, seed.throw(number)))?;
    }
    Ok(grants)
}
