// What is handed to a call, and its words as bytes.
use std::alloc::{AllocError, Global};

#[derive(Clone, Copy)]
pub(crate) struct Lists<'a> {
    pub batch: &'a [u32],
    pub grants: &'a [u32],
    pub state: &'a [u32],
}

// What stands in a buffer where no word was stored.
pub(crate) const BLANK: u8 = 0x5a;

// The words, the lowest byte of each first, and so many blank bytes behind them.
pub(crate) fn bytes_of(alloc: Global, words: &[u32], blanks: usize) -> Result<Vec<u8>, AllocError> {
    let size = words.len().saturating_mul(4).saturating_add(blanks);
    let mut bytes = vec![in alloc; BLANK; size]?;
    let (stored, _) = bytes.as_chunks_mut::<4>();
    for (bytes, word) in stored.iter_mut().zip(words) {
        *bytes = word.to_le_bytes();
    }
    Ok(bytes)
}
