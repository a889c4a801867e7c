// What a call is lent: bytes, four for a word, the lowest first.
use std::alloc::{AllocError, Global};

// How many cells a state has.
pub(super) const CELLS: usize = 101;

// How long a state is.
pub(super) const STATE_WORDS: usize = 2 * CELLS;

pub(super) const STATE_BYTES: usize = 4 * STATE_WORDS;

// A word as it is lent.
pub(super) type Word = [u8; 4];

pub(super) fn bytes_of(alloc: Global, words: &[u32]) -> Result<Vec<u8>, AllocError> {
    let mut bytes = vec![in alloc; 0u8; words.len().wrapping_mul(4)]?;
    // Kept: over places that are there, which is quicker than to collect bytes.
    let (places, _) = bytes[..].as_chunks_mut::<4>();
    for (place, word) in places.iter_mut().zip(words) {
        *place = word.to_le_bytes();
    }
    Ok(bytes)
}

// What stands in a cell. By default it is not marked, and holds nothing.
#[derive(Clone, Copy, Default)]
pub(super) struct Content {
    pub(super) mark: u32,
    pub(super) value: u32,
}

impl Content {
    pub(super) fn marked(value: u32) -> Content {
        Content { mark: 1, value }
    }
}

// A state is all its values, then all its marks.
pub(super) fn state_bytes(alloc: Global, cells: &[Content; CELLS]) -> Result<Vec<u8>, AllocError> {
    let values = cells.iter().map(|content| content.value);
    let marks = cells.iter().map(|content| content.mark);
    let words: Vec<u32> = values.chain(marks).collect(alloc)?;
    bytes_of(alloc, &words)
}

// A state and a list of grants, whole or not.
#[derive(Drop)]
pub(super) struct Case {
    pub(super) state: Vec<u8>,
    pub(super) grants: Vec<u8>,
}
