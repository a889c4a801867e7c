// The reader: a batch is read on a copy of the state, which takes the state's place only if all of the batch is accepted.
#![tactic(auto)]

ghost use Rattle.std.specs.Prelude.{◌≡◌, length};
ghost use Rattle.laws.specs.Lists.{over};
ghost use Rattle.meaning.specs.Words.{words_of, bytes_of};
ghost use Rattle.meaning.specs.State.{state_words};
ghost use Rattle.meaning.specs.Answers.{answer_in, settle};
ghost use Rattle.meaning.specs.Reader.{read_answer, read_leaves};
ghost use Rattle.pair.specs.Marks.{cleared};

use grants::{BOUNDS, IN_MEMORY_1, Kept};
use meaning::{
    Answer, CELLS, Cell, LOCATION_CELL, MOST_GRANTS, Reason, STATE_WORDS, State, TARGET_CELL,
};

// Clears the marks of the pair, so that those that come back tell what the batch wrote.
#[tactic(auto, unfolding(pair::specs::Marks::cleared))]
fn clear_pair(own: &mut State)
    requires whole { length own.old ≡ state_words }
    ensures cleared { own.new ≡ cleared own.old }
{
    own[CELLS + TARGET_CELL] = 0;
    own[CELLS + LOCATION_CELL] = 0;
}

// Reads a batch: 1 if the state is not well-formed, 2 if the grant list breaks its rules, then what the first bad word gives, or 10, or
// 14 if the batch does not keep the pair; or else the batch's length in words. The state is changed only if the whole batch is accepted;
// bytes past the last whole word of a buffer count for nothing.
pub fn read(batch: &[u8], grants: &[u8], state: &mut [u8]) -> Answer
    ensures answer { answer_in result ≡ read_answer (words_of batch.now) (words_of grants.now) (words_of state.old) }
    ensures bytes { state.new ≡ settle (answer_in result) (over (bytes_of (read_leaves (words_of batch.now) (words_of grants.now) (words_of state.old))) state.old) state.old }
{
    if !states::well_formed(state) {
        return Err(Reason::BadState.at(0));
    }
    let mut starts = [0u32; MOST_GRANTS];
    let mut lasts = [0u32; MOST_GRANTS];
    let mut numbers = [0u8; MOST_GRANTS];
    let mut bounds = [0usize; BOUNDS];
    if !keeping::begin(grants, &mut bounds) {
        return Err(Reason::BadGrants.at(0));
    }
    keeping::place(grants, &mut starts, &mut lasts, &mut numbers, &mut bounds);
    let kept = Kept {
        starts: &starts,
        lasts: &lasts,
        numbers: &numbers,
        bounds: &bounds,
    };
    let mut own = [0u32; STATE_WORDS];
    states::load(state, &mut own);
    clear_pair(&mut own);
    let place = packets::read_packets(batch, &kept, &mut own)?;
    let target = states::mark(state, Cell(TARGET_CELL));
    let location = states::mark(state, Cell(LOCATION_CELL));
    let part = kept.part_of(1);
    // Where no kept grant is in memory 1, an address that the batch wrote was found in memory 0.
    let known = kept.bounds[IN_MEMORY_1] == 0;
    if !pair::kept(target, location, &mut own, &part, known) {
        return Err(Reason::BadPair.at(place));
    }
    states::store(&own, state);
    Ok(place)
}
