// The only place that calls the library: the query, which is tested, and the reader, with which it has to agree. What they
// answer becomes the program's own here.
use super::answer::{Answer, Reason, Refusal};
use super::lent::{Case, STATE_BYTES};
use meaning::Cell;

fn outcome(told: meaning::Answer) -> Result<usize, Refusal> {
    told.map_err(|refusal| Refusal {
        reason: Reason::from(refusal.reason as u32),
        place: refusal.place,
    })
}

pub(super) fn which_grant(case: &Case, cell: usize) -> Answer {
    Answer::from(outcome(query::which_grant(&case.state, &case.grants, Cell(cell))))
}

// Reads the batch under the grants into an empty state. The answer is the batch's length in words.
pub(super) fn read(batch: &[u8], grants: &[u8]) -> Result<usize, Refusal> {
    outcome(reader::read(batch, grants, &mut [0; STATE_BYTES]))
}
