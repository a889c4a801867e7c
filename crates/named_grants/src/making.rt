// Makes up states and grants, by dice: all of a case in one small region, so that grants overlap, and addresses lie
// inside them, at their edges and a step off.
use super::address_registers::{LOCATION, TARGET};
use super::dice::dice;
use super::grant::{Grant, MOST_WORDS, Memory, Owner, Role, list_of};
use super::lent::{Case, Content, STATE_BYTES, STATE_WORDS, state_bytes};
use std::alloc::{AllocError, Global};
use std::array;

// At 0, across 2^29, near 2^32, or anywhere that a scaler's address reaches.
fn some_region(seed: u32) -> u32 {
    match seed % 8 {
        0 => 0,
        1 => 0x1ffffc00,
        2 => 0xffffe000,
        _ => seed & 0x1fffff00,
    }
}

// A value with an address of the region, its first one by 0. Of the bits that are no part of an address none is set, or
// any: in cell 1 they take the address past 2^32. In cell 2 bits 21:20 are mostly 0 or 1.
pub(super) fn some_value(cell: usize, region: u32, seed: u32) -> u32 {
    let address = region.wrapping_add(seed / 16 % 24 * 0x80);
    let bits = if seed / 8 % 2 == 0 { 0 } else { dice(seed, 1) };
    match cell {
        TARGET => address >> 8 | bits & 0xff000000,
        LOCATION => seed / 16 % 10 / 3 << 20 | bits & 0xffcfffff,
        _ => address & 0x1ffffff0 | bits & 0xe000000f,
    }
}

// Mostly marked: some seven of eight cells are.
fn some_content(cell: usize, region: u32, seed: u32) -> Content {
    if seed % 8 == 0 {
        Content::default()
    } else {
        Content::marked(some_value(cell, region, seed))
    }
}

// A well-formed state. None to three bytes more are lent.
fn some_state(alloc: Global, region: u32, seed: u32) -> Result<Vec<u8>, AllocError> {
    let cells = array::from_fn(|cell| some_content(cell, region, dice(seed, cell as u32)));
    let mut state = state_bytes(alloc, &cells)?;
    state.resize(STATE_BYTES + seed as usize % 4, 0)?;
    Ok(state)
}

// Whole steps of the region, at times with a byte more.
fn some_steps(seed: u32) -> u32 {
    seed % 12 * 0x100 + seed / 16 % 4 / 3
}

// The reach is mostly less than the length.
fn some_grant(region: u32, seed: u32) -> Grant {
    let owner = Owner {
        role: Role::by_remainder(seed),
        memory: Memory::by_remainder(seed >> 8),
    };
    let start = region.wrapping_add(some_steps(dice(seed, 1)));
    let length = some_steps(dice(seed, 2));
    let reach = some_steps(dice(seed, 3)) / 2 | 1;
    Grant::new(owner, start, length, reach)
}

pub(super) fn some_grants(
    alloc: Global,
    n: u32,
    region: u32,
    seed: u32,
) -> Result<Vec<u8>, AllocError> {
    list_of(alloc, n, |g| some_grant(region, dice(seed, g)))
}

// A case with n grants.
pub(super) fn some_case(alloc: Global, n: u32, seed: u32) -> Result<Case, AllocError> {
    let region = some_region(seed);
    Ok(Case {
        state: some_state(alloc, region, dice(seed, 1))?,
        grants: some_grants(alloc, n, region, dice(seed, 2))?,
    })
}

// How a case is damaged: a word of it is changed, or a list ends elsewhere. Kept: the numbers are parts of seeds.
#[derive(Clone, Copy)]
pub(super) enum Damage {
    StateWord = 0,
    GrantsWord = 1,
    StateLength = 2,
    GrantsLength = 3,
}

const DAMAGES: [Damage; 4] = [
    Damage::StateWord,
    Damage::GrantsWord,
    Damage::StateLength,
    Damage::GrantsLength,
];

impl Damage {
    // Damages the case in the i-th way of this kind.
    pub(super) fn apply(self, case: &mut Case, i: u32) -> Result<(), AllocError> {
        let i = i as usize;
        match self {
            Damage::StateWord => change(&mut case.state, i % STATE_WORDS, i / STATE_WORDS),
            Damage::GrantsWord => change(&mut case.grants, i % MOST_WORDS, i / MOST_WORDS),
            Damage::StateLength => case.state.resize(i % 1024, 0)?,
            Damage::GrantsLength => case.grants.resize(i % 1320, 0)?,
        }
        Ok(())
    }
}

// Where a grant's length stands, by where its start does, and the other way round.
fn across_from(i: usize) -> Option<usize> {
    if i % 5 == 1 {
        i.checked_add(1)
    } else {
        i.checked_sub(1)
    }
}

// Changes a word, if there is one. By what stands across from a start or a length, the grant then ends at 2^32, or a byte
// behind it.
fn change(bytes: &mut [u8], i: usize, way: usize) {
    let (words, _) = bytes.as_chunks_mut();
    let across = across_from(i).and_then(|i| words.get(i).copied());
    let across = across.map_or(0, u32::from_le_bytes);
    let Some(word) = words.get_mut(i) else { return };
    let old = u32::from_le_bytes(*word);
    let new = match way % 8 {
        0 => 0,
        1 => 1,
        2 => 2,
        3 => 4,
        4 => across.wrapping_neg(),
        5 => 1u32.wrapping_sub(across),
        6 => old ^ 0x80,
        _ => old ^ 0x80000000,
    };
    *word = new.to_le_bytes();
}

// A case with at most one grant too many, of which one in four is damaged.
pub(super) fn some_damaged_case(alloc: Global, seed: u32) -> Result<Case, AllocError> {
    let mut case = some_case(alloc, dice(seed, 3) % 66, seed)?;
    if let Some(damage) = DAMAGES.get(dice(seed, 4) as usize % 16) {
        damage.apply(&mut case, dice(seed, 5))?;
    }
    Ok(case)
}
