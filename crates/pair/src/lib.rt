// The pair of cells 1 and 2, the target's address and its location, judged once behind the last word of a batch. A batch is read on a copy
// of the state whose two marks are cleared: those that have come back tell what it wrote, and no flag goes through the loops.
#![tactic(auto)]

ghost use Rattle.std.specs.Prelude.{◌≡◌, true, ◌&&◌, ltb, eqb, length};
ghost use Rattle.meaning.specs.Words.{words_of};
ghost use Rattle.meaning.specs.State.{state_words};
ghost use Rattle.meaning.specs.Pair.{memory_named};
ghost use Rattle.pair.specs.Marks.{back, restored};
ghost use Rattle.pair.specs.Judged.{pair_of, which_by, fine_by, kept_by, KnownBy};

use grants::RoleGrants;
use meaning::{CELLS, Cell, LOCATION_CELL, Memory, State, TARGET_CELL};

// The two values, and their marks.
#[derive(Clone, Copy)]
pub struct Pair {
    pub target: u32,
    pub marked: u32,
    pub location: u32,
    pub located: u32,
}

impl Pair {
    // The pair of a state.
    fn of(state: &[u8]) -> Pair
        requires whole { length (words_of state.now) ≡ state_words }
        ensures pair { result ≡ pair_of (words_of state.now) }
    {
        Pair {
            target: states::value(state, Cell(TARGET_CELL)),
            marked: states::mark(state, Cell(TARGET_CELL)),
            location: states::value(state, Cell(LOCATION_CELL)),
            located: states::mark(state, Cell(LOCATION_CELL)),
        }
    }

    // The memory that the location names: its bits 21:20, and 0 where the cell is not marked.
    fn memory(self) -> u32
        ensures memory { result ≡ memory_named self.located self.location }
    {
        if self.located == 0 {
            return 0;
        }
        self.location / 0x100000 % 4
    }

    // The grant that admits the target's address in its memory. No grant ends above 2^32, where the address of a value of more than 24 bits
    // would lie. Here and below `part` are the target's grants.
    #[tactic(auto, unfolding(crate::specs::Judged::which_pair))]
    fn which(self, part: &RoleGrants<'_>) -> Option<usize>
        ensures which { result ≡ which_by part.now self }
    {
        if 0xffffff < self.target {
            return None;
        }
        part.which(
            Memory::Only(self.memory()),
            rows_3d::target_address(self.target),
        )
    }

    // Cell 1 is not marked, or its address is granted in the memory that cell 2 names.
    #[tactic(auto, unfolding(crate::specs::Judged::fine_in))]
    fn fine(self, part: &RoleGrants<'_>) -> bool
        ensures fine { result ≡ fine_by part.now self }
    {
        self.marked == 0 || self.which(part).is_some()
    }

    // An address that is known to be granted in memory 0 needs no second look if it is there that it lies. `mark` is 0 where there is none
    // that is known. The memory is made out last, where it is asked.
    fn settled(self, known: bool, mark: u32) -> bool
        ensures settled { result ≡ (known && (ltb 0 mark && eqb (memory_named self.located self.location) 0)) }
    {
        known && mark != 0 && self.memory() == 0
    }
}

// The grant that admits the target's address of a state, in its memory.
pub fn which(state: &[u8], part: &RoleGrants<'_>) -> Option<usize>
    requires whole { length (words_of state.now) ≡ state_words }
    ensures which { result ≡ which_by part.now (pair_of (words_of state.now)) }
{
    Pair::of(state).which(part)
}

// The pair of a state is fine. `known` says that its address, if it has one, is granted in memory 0, which the caller may have seen.
#[tactic(auto, using(crate::proofs::Judged::settled_fine))]
pub fn fine(state: &[u8], part: &RoleGrants<'_>, known: bool) -> bool
    requires whole { length (words_of state.now) ≡ state_words }
    requires known { known ≡ true → KnownBy part.now (words_of state.now) }
    ensures fine { result ≡ fine_by part.now (pair_of (words_of state.now)) }
{
    let pair = Pair::of(state);
    pair.settled(known, pair.marked) || pair.fine(part)
}

// A mark that has not come back is as it was.
fn back_to(mark: u32, entry: u32) -> u32
    ensures back { result ≡ back mark entry }
{
    if mark == 0 { entry } else { mark }
}

// Gives the two marks back as they are behind the batch, from `target` and `location`, those that it was entered with. Whether the batch
// keeps the pair: it wrote neither cell, or the pair is fine. `known` says that an address that the batch wrote is granted in memory 0, which
// its caller may have seen.
#[tactic(auto, unfolding(crate::specs::Judged::kept_in, crate::specs::Marks::came_back, crate::specs::Marks::restored))]
pub fn kept(target: u32, location: u32, own: &mut State, part: &RoleGrants<'_>, known: bool) -> bool
    requires whole { length own.old ≡ state_words }
    requires known { known ≡ true → KnownBy part.now own.old }
    ensures kept { result ≡ kept_by part.now target location own.old }
    ensures own { own.new ≡ restored target location own.old }
{
    let t = own[CELLS + TARGET_CELL];
    let l = own[CELLS + LOCATION_CELL];
    let pair = Pair {
        target: own[TARGET_CELL],
        marked: back_to(t, target),
        location: own[LOCATION_CELL],
        located: back_to(l, location),
    };
    own[CELLS + TARGET_CELL] = pair.marked;
    own[CELLS + LOCATION_CELL] = pair.located;
    if t == 0 && l == 0 {
        return true;
    }
    pair.settled(known, t) || pair.fine(part)
}
