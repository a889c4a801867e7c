// The only place that calls what is tested.
use super::answer::{Answer, numbered};
use std::alloc::{AllocError, Global};

// The most bytes of a listing.
const MOST_LISTED: usize = 2568;

// As many bytes as are lent of a state: three past its last word.
pub(super) const STATE_BYTES: usize = 811;

// An answer of the library as our own.
fn told(answer: meaning::Answer) -> Answer {
    match answer {
        Ok(place) => numbered(0, place),
        Err(refusal) => numbered(refusal.reason as u32, refusal.place),
    }
}

// Reads a listing back into the buffer.
pub(super) fn read(text: &[u8], buffer: &mut [u8]) -> Answer {
    told(listing_reader::read_listing(text, buffer))
}

fn list_into(state: &[u8], out: &mut [u8]) -> Answer {
    let n = STATE_BYTES.min(state.len());
    told(lister::list(&state[..n], out))
}

// The listing of a state. It is empty where the state is refused, or where bytes past the listing's end have changed.
pub(super) fn list(alloc: Global, state: &[u8]) -> Result<Vec<u8>, AllocError> {
    let mut text = vec![in alloc; 0; MOST_LISTED]?;
    let length = list_into(state, &mut text).unwrap_or(0);
    // Kept: a fold over all that is behind, which is several times as quick as to stop at the first that has changed.
    let behind = text.get(length..).unwrap_or(&[]);
    let stays = behind.iter().fold(0, |changed, byte| changed | *byte) == 0;
    text.truncate(if stays { length } else { 0 });
    Ok(text)
}
