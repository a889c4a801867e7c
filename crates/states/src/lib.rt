// The register state, values and then marks: as it is lent, in bytes, and as the reader's own copy, in words.
#![tactic(auto)]

ghost use Rattle.std.specs.Prelude.{◌≡◌, ◌-◌, ◌<◌, ◌≤◌, T, length, ◌==◌, nat_le};
ghost use Rattle.laws.specs.Lists.{over};
ghost use Rattle.laws.specs.Tests.{implies};
ghost use Rattle.meaning.specs.Words.{words_of, bytes_of};
ghost use Rattle.meaning.specs.Registers.{cells};
ghost use Rattle.meaning.specs.State.{state_words, value_at, mark_at, is_mark, marked, well_formed, one, count_in};
ghost use Rattle.states.specs.Marks.{marks_to, clear_to};

use meaning::{CELLS, Cell, STATE_WORDS, State};

// The value of a cell,
pub fn value(state: &[u8], cell: Cell) -> u32
    requires whole { length (words_of state.now) ≡ state_words }
    requires inside { cell.0 < cells }
    ensures value { result ≡ value_at (words_of state.now) cell }
{
    words::word(state, cell.0)
}

// and its mark.
pub fn mark(state: &[u8], cell: Cell) -> u32
    requires whole { length (words_of state.now) ≡ state_words }
    requires inside { cell.0 < cells }
    ensures mark { result ≡ mark_at (words_of state.now) cell }
{
    words::word(state, CELLS + cell.0)
}

// All marks, gathered by `|`: at most 1 exactly if each is.
fn gathered_marks(state: &[u8]) -> u32
    requires whole { length (words_of state.now) ≡ state_words }
    ensures small { nat_le result 1 ≡ marks_to (words_of state.now) cells }
{
    let mut marks: u32 = 0;
    for c in 0..CELLS {
        marks |= mark(state, Cell(c));
    }
    marks
}

// What a cell holds without a mark. Where the mark is 0, one less is all ones.
fn excess(value: u32, mark: u32) -> u32
    requires small { mark ≤ 1 }
    ensures clear { (result == 0) ≡ implies (mark == 0) (value == 0) }
{
    value & std::num::wrapping_sub_u32(mark, 1)
}

// What all cells hold without a mark, gathered by `|`: 0 exactly if no cell holds anything so.
fn gathered_excess(state: &[u8]) -> u32
    requires whole { length (words_of state.now) ≡ state_words }
    requires marks { T (marks_to (words_of state.now) cells) }
    ensures clear { (result == 0) ≡ clear_to (words_of state.now) cells }
{
    let mut held: u32 = 0;
    for c in 0..CELLS {
        held |= excess(value(state, Cell(c)), mark(state, Cell(c)));
    }
    held
}

// As many words as a state has, each mark 0 or 1, and an unmarked value is 0. Two loops with no early way out, so that each becomes one over vectors.
pub fn well_formed(state: &[u8]) -> bool
    ensures formed { result ≡ well_formed (words_of state.now) }
{
    if state.len() / 4 != STATE_WORDS {
        return false;
    }
    if 1 < gathered_marks(state) {
        return false;
    }
    gathered_excess(state) == 0
}

fn one(mark: u32) -> usize
    ensures one { result ≡ one (is_mark mark) }
    ensures few { result ≤ 1 }
{
    if mark == 0 {
        return 0;
    }
    1
}

// How many of the cells from `first` to before `end` are marked. The caller has seen to the sizes, so that the loop tests none.
pub fn marked_between(state: &[u8], first: usize, end: usize) -> usize
    requires inside { end ≤ cells }
    requires whole { length (words_of state.now) ≡ state_words }
    ensures count { result ≡ count_in (marked (words_of state.now)) first (end - first) }
{
    let mut n: usize = 0;
    for c in first..end {
        n += one(mark(state, Cell(c)));
    }
    n
}

// Copies a state out of bytes. A function is not told the length of an array behind a reference, so the caller tells it.
pub fn load(bytes: &[u8], state: &mut State)
    requires whole { length (words_of bytes.now) ≡ state_words }
    requires array { length state.old ≡ state_words }
    ensures loaded { state.new ≡ words_of bytes.now }
{
    for i in 0..STATE_WORDS {
        state[i] = words::word(bytes, i);
    }
}

// And back: bytes past the last whole word stay as they were.
pub fn store(state: &State, bytes: &mut [u8])
    requires whole { length (words_of bytes.old) ≡ state_words }
    requires array { length state.now ≡ state_words }
    ensures stored { bytes.new ≡ over (bytes_of state.now) bytes.old }
{
    for i in 0..STATE_WORDS {
        words::put_word(bytes, i, state[i]);
    }
}
