// The query: which grant admits the address in a cell of a state.
#![tactic(auto)]

ghost use Rattle.std.specs.Prelude.{◌≡◌, ◌≢◌, List, ℕ, ◌<◌, ◌≤◌, T, length, IfSome};
ghost use Rattle.meaning.specs.declared.Memory.TheVariants.{Either};
ghost use Rattle.meaning.specs.Words.{words_of};
ghost use Rattle.meaning.specs.Registers.{register_at};
ghost use Rattle.meaning.specs.Grants.{grants_fine, terms_of};
ghost use Rattle.meaning.specs.State.{state_words};
ghost use Rattle.meaning.specs.Answers.{answer_in};
ghost use Rattle.meaning.specs.Query.{which_stored, which_at, query_answer};
ghost use Rattle.grants.specs.Held.{IsNamed};
ghost use Rattle.query.specs.Held.{held_as};

use grants::{BOUNDS, Kept};
use meaning::{Answer, CELLS, Cell, MOST_GRANTS, Memory, Reason, TARGET_CELL};

// The role of the scaler whose address the register of a cell holds, if it holds one. Cell 1, which holds the target's, is asked about
// elsewhere.
fn role_of(cell: Cell) -> Option<usize>
    ensures role { cell.0 ≢ 1 → (v : ℕ) → (register_at cell).holds v ≡ held_as result v }
    ensures known { IfSome result (λ role. (1 ≤ role) × (role < 4)) }
{
    match cell.0 {
        89 | 90 | 93 => Some(2),
        96 | 97 | 100 => Some(3),
        _ => None,
    }
}

// The grant that admits what a value holds in the register of a cell other than cell 1. Here and below `kept` are the grants as they are kept.
fn which_stored(cell: Cell, value: u32, kept: &Kept<'_>) -> Option<usize>
    ensures stored { (ws : List ℕ) → IsNamed (terms_of ws) kept.now → cell.0 ≢ 1 → result ≡ which_stored (terms_of ws) Either cell value }
{
    let role = role_of(cell)?;
    kept.part_of(role)
        .which(Memory::Either, rows_video::scaler_address(value))
}

// The same for a cell of a state, if there is such a cell and it is marked.
fn which_at(state: &[u8], cell: Cell, kept: &Kept<'_>) -> Option<usize>
    requires whole { length (words_of state.now) ≡ state_words }
    ensures at { (ws : List ℕ) → T (grants_fine ws) → IsNamed (terms_of ws) kept.now → result ≡ which_at (terms_of ws) (words_of state.now) cell }
{
    if CELLS <= cell.0 {
        return None;
    }
    if states::mark(state, cell) == 0 {
        return None;
    }
    if cell.0 == TARGET_CELL {
        return pair::which(state, &kept.part_of(1));
    }
    which_stored(cell, states::value(state, cell), kept)
}

// The number of the grant that admits the address in a cell, or 64 where none does: refused if the state is not well-formed, and if the grant
// list breaks its rules. Bytes past the last whole word of a buffer count for nothing.
pub fn which_grant(state: &[u8], grants: &[u8], cell: Cell) -> Answer
    ensures answer { answer_in result ≡ query_answer (words_of state.now) (words_of grants.now) cell }
{
    if !states::well_formed(state) {
        return Err(Reason::BadState.at(0));
    }
    let mut starts = [0u32; MOST_GRANTS];
    let mut lasts = [0u32; MOST_GRANTS];
    let mut numbers = [0u8; MOST_GRANTS];
    let mut bounds = [0usize; BOUNDS];
    if !keeping::begin(grants, &mut bounds) {
        return Err(Reason::BadGrants.at(0));
    }
    keeping::place(grants, &mut starts, &mut lasts, &mut numbers, &mut bounds);
    let kept = Kept {
        starts: &starts,
        lasts: &lasts,
        numbers: &numbers,
        bounds: &bounds,
    };
    Ok(which_at(state, cell, &kept).unwrap_or(MOST_GRANTS))
}
