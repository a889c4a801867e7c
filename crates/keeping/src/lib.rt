// The grant list: its rules, and how its grants come to be kept, each behind the others of its role.
#![tactic(auto)]

ghost use Rattle.std.specs.Prelude.{◌≡◌, false, ◌≤◌, ◌<◌, ◌/◌, T, length, set, MatchOption};
ghost use Rattle.meaning.specs.Words.{words_of};
ghost use Rattle.meaning.specs.Grants.{most_grants, grants_of, memory_fine, grant_fine, grants_fine};
ghost use Rattle.grants.specs.Kept.{bearing};
ghost use Rattle.keeping.specs.Keeping as kept;

use grants::{Bounds, IN_MEMORY_1, MEMORY_STEP, Numbers, Spans};
use meaning::{GRANT_WORDS, MOST_GRANTS};

// A grant of a list, by its five words.
#[derive(Clone, Copy)]
struct Grant {
    role: u32,
    start: u32,
    length: u32,
    reach: u32,
    memory: u32,
}

impl Grant {
    // That of a number.
    fn read(grants: &[u8], number: usize) -> Grant
        requires inside { number < length grants.now / 4 / 5 }
        ensures grant { kept.read_as result ≡ kept.number_of (grants_of (words_of grants.now)) number }
    {
        let at = GRANT_WORDS * number;
        Grant {
            role: words::word(grants, at),
            start: words::word(grants, at + 1),
            length: words::word(grants, at + 2),
            reach: words::word(grants, at + 3),
            memory: words::word(grants, at + 4),
        }
    }

    // Memory 0 or 1, and only the target's may be 1.
    #[tactic(auto, unfolding(meaning::specs::Grants::memory_fine))]
    fn memory_fine(self) -> bool
        ensures fine { result ≡ memory_fine (kept.read_as self) }
    {
        match self.memory {
            0 => true,
            1 => self.role == 1,
            _ => false,
        }
    }

    // A role from 1 to 3, an end of at most 2^32, a reach of at least 1 and a memory that the role may have. The sum is taken in 64 bits: an
    // end of 2^32 is allowed, and does not fit a word.
    #[tactic(auto, unfolding(meaning::specs::Grants::grant_fine))]
    fn fine(self) -> bool
        ensures fine { result ≡ grant_fine (kept.read_as self) }
    {
        matches!(self.role, 1..=3)
            && u64::from(self.start) + u64::from(self.length) <= 0x1_0000_0000
            && 1 <= self.reach
            && self.memory_fine()
    }
}

// Whole grants, at most 64, each of which is fine. How many have each role is counted on the way.
fn count_roles(grants: &[u8]) -> Option<[usize; 4]>
    ensures counts { MatchOption result (grants_fine (words_of grants.now) ≡ false) (kept.Counts (words_of grants.now)) }
{
    let words = grants.len() / 4;
    // Divided once, which serves `place` too: no remainder is taken.
    let many = words / GRANT_WORDS;
    if many * GRANT_WORDS != words || MOST_GRANTS < many {
        return None;
    }
    let mut counts = [0; 4];
    for number in 0..many {
        let grant = Grant::read(grants, number);
        if !grant.fine() {
            return None;
        }
        counts[grant.role as usize] += 1;
    }
    Some(counts)
}

// The rules of the list, and where the parts of what is kept of it begin; false, and nothing is begun, where the list breaks its rules. It and
// `place` are two functions, so that each is small enough to be compiled into every call that keeps grants.
// Kept: a bool beside bounds that are lent, since with the bounds in an Option the size and the writer need an instruction more a grant.
#[tactic(auto, unfolding(crate::specs::Keeping::begun_by, crate::specs::Keeping::beginnings))]
pub fn begin(grants: &[u8], bounds: &mut Bounds) -> bool
    requires none { bounds.old ≡ kept.no_bounds }
    ensures fine { result ≡ grants_fine (words_of grants.now) }
    ensures begun { bounds.new ≡ kept.begun_by (words_of grants.now) }
{
    let Some(counts) = count_roles(grants) else {
        return false;
    };
    let second = counts[1];
    let third = second + counts[2];
    *bounds = [0, 0, second, third, 0, 0, second, third];
    true
}

// Notes the number and the memory of the grant that is kept at a place. Only one in memory 1 is noted of the list too: nothing more is stored
// for the others, which are the most.
#[tactic(auto, unfolding(crate::specs::Keeping::noted))]
fn note(number: usize, memory: u32, at: usize, numbers: &mut Numbers, bounds: &mut Bounds)
    requires few { number < most_grants }
    requires memory { memory ≤ 1 }
    requires room { at < most_grants }
    ensures numbers { numbers.new ≡ set numbers.old at (bearing number memory) }
    ensures bounds { bounds.new ≡ kept.noted memory bounds.old }
{
    if memory == 0 {
        numbers[at] = number as u8;
        return;
    }
    numbers[at] = number as u8 + MEMORY_STEP;
    bounds[IN_MEMORY_1] = 1;
}

// Keeps each grant in its role's part, in the order of the list, and with it its number in the list and its memory. One whose reach is more
// than its length covers no address, and is left out.
pub fn place(
    grants: &[u8],
    starts: &mut Spans,
    lasts: &mut Spans,
    numbers: &mut Numbers,
    bounds: &mut Bounds,
)
    requires fine { T (grants_fine (words_of grants.now)) }
    requires begun { bounds.old ≡ kept.beginnings (grants_of (words_of grants.now)) }
    ensures starts { starts.new ≡ (kept.kept_of (grants_of (words_of grants.now)) starts.old lasts.old numbers.old).starts }
    ensures lasts { lasts.new ≡ (kept.kept_of (grants_of (words_of grants.now)) starts.old lasts.old numbers.old).lasts }
    ensures numbers { numbers.new ≡ (kept.kept_of (grants_of (words_of grants.now)) starts.old lasts.old numbers.old).numbers }
    ensures bounds { bounds.new ≡ (kept.kept_of (grants_of (words_of grants.now)) starts.old lasts.old numbers.old).bounds }
{
    for number in 0..grants.len() / 4 / GRANT_WORDS {
        let grant = Grant::read(grants, number);
        if grant.reach <= grant.length {
            let end = 4 + grant.role as usize;
            let at = bounds[end];
            starts[at] = grant.start;
            lasts[at] = grant.start + (grant.length - grant.reach);
            bounds[end] += 1;
            note(number, grant.memory, at, numbers, bounds);
        }
    }
}
