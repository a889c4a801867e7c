// The size and the writer: how many words the batch has that reaches a state from the empty state, and that batch.
#![tactic(auto)]

ghost use Rattle.std.specs.Prelude.{◌≡◌, true, ◌/◌, length, IfOk};
ghost use Rattle.laws.specs.Lists.{over};
ghost use Rattle.meaning.specs.Words.{words_of, bytes_of};
ghost use Rattle.meaning.specs.Registers.{sections_3d};
ghost use Rattle.meaning.specs.State.{state_words, marked};
ghost use Rattle.meaning.specs.Answers.{answer_in, settle};
ghost use Rattle.meaning.specs.Writer.{written, need_among, with_pair, size_answer, write_answer};
ghost use Rattle.pair.specs.Judged.{pair_of, fine_by, KnownBy};
ghost use Rattle.writer.specs.Measured.{passes_target, words_needed};

use grants::{BOUNDS, IN_MEMORY_1, Kept, RoleGrants};
use meaning::{Answer, Cell, MOST_GRANTS, Reason, Refusal, TARGET_CELL};
use needs::Need;

// The lowest cell that may not be written, if there is one: what the search found, or cell 1 for a pair that is not fine, where cell 0 may be
// written. `near` says that no kept grant is in memory 1: an address that the search has let pass is then granted in memory 0.
fn with_pair(found: Option<Cell>, state: &[u8], part: &RoleGrants<'_>, near: bool) -> Option<Cell>
    requires whole { length (words_of state.now) ≡ state_words }
    requires near { near ≡ true → passes_target found ≡ true → KnownBy part.now (words_of state.now) }
    ensures lowest { result ≡ with_pair (fine_by part.now (pair_of (words_of state.now))) found }
{
    let known = match found {
        Some(Cell(0)) => return found,
        Some(Cell(TARGET_CELL)) => false,
        _ => near,
    };
    if !pair::fine(state, part, known) {
        return Some(Cell(TARGET_CELL));
    }
    found
}

// All that is asked of a state and its grants, and the words that are needed: what size and writer have in common.
#[tactic(auto, using(crate::proofs::Answers::refused_state, crate::proofs::Answers::refused_grants))]
fn measure(state: &[u8], grants: &[u8]) -> Result<Need, Refusal>
    ensures answer { answer_in (words_needed result) ≡ size_answer (words_of state.now) (words_of grants.now) }
    ensures before_video { IfOk result (λ need. need.before_video ≡ need_among (marked (words_of state.now)) sections_3d) }
{
    if !states::well_formed(state) {
        return Err(Reason::BadState.at(0));
    }
    let mut starts = [0u32; MOST_GRANTS];
    let mut lasts = [0u32; MOST_GRANTS];
    let mut numbers = [0u8; MOST_GRANTS];
    let mut bounds = [0usize; BOUNDS];
    if !keeping::begin(grants, &mut bounds) {
        return Err(Reason::BadGrants.at(0));
    }
    keeping::place(grants, &mut starts, &mut lasts, &mut numbers, &mut bounds);
    let kept = Kept {
        starts: &starts,
        lasts: &lasts,
        numbers: &numbers,
        bounds: &bounds,
    };
    let found = search::lowest_bad(state, &kept);
    let part = kept.part_of(1);
    let near = kept.bounds[IN_MEMORY_1] == 0;
    if let Some(cell) = with_pair(found, state, &part, near) {
        return Err(Reason::NotWritable.at(cell.0));
    }
    Ok(needs::needed(state))
}

// Tells how many words the batch has: 1 and 2 as the reader has them, 12 at the lowest cell that may not be written, else 0 and the words
// that are needed. Bytes past the last whole word of a buffer count for nothing.
pub fn size(state: &[u8], grants: &[u8]) -> Answer
    ensures answer { answer_in result ≡ size_answer (words_of state.now) (words_of grants.now) }
{
    Ok(measure(state, grants)?.in_all)
}

// Writes the batch: the reasons of the size, then 11 if the output has fewer words than are needed, else 0 and the words written. The
// output is changed only once nothing can be refused any more.
pub fn write(state: &[u8], grants: &[u8], out: &mut [u8]) -> Answer
    ensures answer { answer_in result ≡ write_answer (words_of state.now) (words_of grants.now) (length out.old / 4) }
    ensures bytes { out.new ≡ settle (answer_in result) (over (bytes_of (written (words_of state.now))) out.old) out.old }
{
    let need = measure(state, grants)?;
    if out.len() / 4 < need.in_all {
        return Err(Reason::NoRoom.at(0));
    }
    emitter::emit(state, out, need.before_video);
    Ok(need.in_all)
}
