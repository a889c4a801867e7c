// Grants kept by role, each as the first and the last address that it covers, so that a test is two comparisons, and with its number.
#![tactic(auto)]

ghost use Rattle.std.specs.Prelude.{◌≡◌, ◌≤◌, ◌<◌};
ghost use Rattle.meaning.specs.Grants.{most_grants};
ghost use Rattle.grants.specs.Kept as kept;

mod asked;

use meaning::{MOST_GRANTS, Memory};

// The first address of each kept grant, or the last of each.
pub type Spans = [u32; MOST_GRANTS];

// The number of each kept grant in the list that it comes from, and MEMORY_STEP more where it is in memory 1. One byte bears both, so that
// nothing more is lent, or copied with an engine.
pub type Numbers = [u8; MOST_GRANTS];

// As many as there are numbers.
pub const MEMORY_STEP: u8 = 64;

// Where the kept grants of each role stand: from `bounds[role]` on, to before `bounds[4 + role]`. There is no role 0: `bounds[IN_MEMORY_1]` is
// 1 if some kept grant is in memory 1, and else 0.
pub const BOUNDS: usize = 8;

pub const IN_MEMORY_1: usize = 4;

pub type Bounds = [usize; BOUNDS];

// Where the kept grants of one role stand.
#[derive(Clone, Copy)]
pub struct Part {
    pub from: usize,
    pub to: usize,
}

// A grant list as it is kept. No part reaches past the room there is.
#[derive(Clone, Copy)]
pub struct Kept<'a> {
    pub starts: &'a Spans,
    pub lasts: &'a Spans,
    pub numbers: &'a Numbers,
    pub bounds: &'a Bounds,
    ghost bounded: { kept.Bounded bounds.now },
}

// The kept grants of one role.
#[derive(Clone, Copy)]
pub struct RoleGrants<'a> {
    pub starts: &'a Spans,
    pub lasts: &'a Spans,
    pub numbers: &'a Numbers,
    pub part: Part,
    ghost inside: { part.to ≤ most_grants },
}

// A kept grant is in the memory, by the byte that bears its number.
fn lies(memory: Memory, number: u8) -> bool
    ensures lies { result ≡ kept.lies_as memory number }
{
    match memory {
        Memory::Either => true,
        Memory::Only(m) => u32::from(number / MEMORY_STEP) == m,
    }
}

// The grant of a number, by the byte that bears it. A parameter is known to be a byte, which an element is not.
fn numbered(number: u8) -> usize
    ensures grant { result ≡ kept.number_in number }
{
    usize::from(number % MEMORY_STEP)
}
