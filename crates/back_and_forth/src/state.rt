// A state: of each cell its value, if it is marked. And the buffer that it is laid out in.
use super::dice::Dice;
use std::alloc::{AllocError, Global};

// How many cells there are, and the first of those with 32 bits: the others have 24.
pub(super) const CELLS: usize = 101;

pub(super) const FIRST_WIDE: usize = 84;

// The words of a state: the values, 0 where a cell is not marked, then the marks, 1 where it is.
pub(super) const STATE_WORDS: usize = 2 * CELLS;

// More bytes than any buffer has that is lent.
const BUFFER_BYTES: usize = 3072;

#[derive(Clone, Copy)]
pub(super) struct State([Option<u32>; CELLS]);

impl State {
    pub(super) fn empty() -> State {
        State([None; CELLS])
    }

    pub(super) fn mark(&mut self, cell: usize, value: u32) {
        if let Some(place) = self.0.get_mut(cell) {
            *place = Some(value);
        }
    }

    // A state with so many marked cells: each is marked with the chance that as many of those left are.
    pub(super) fn made_up(cells: usize, dice: Dice) -> State {
        let mut state = State::empty();
        let mut left = cells;
        for cell in 0..CELLS {
            let thrown = dice.throw(cell);
            if thrown as usize % (CELLS - cell) < left {
                state.mark(cell, some_value(cell, thrown));
                left -= 1;
            }
        }
        state
    }

    // Lays the state's words over the first ones of a buffer.
    pub(super) fn lay(&self, buffer: &mut [u8]) {
        let values = self.0.iter().map(|cell| cell.unwrap_or(0));
        let marks = self.0.iter().map(|cell| u32::from(cell.is_some()));
        let (words, _) = buffer.as_chunks_mut::<4>();
        for (word, laid) in words.iter_mut().zip(values.chain(marks)) {
            *word = laid.to_le_bytes();
        }
    }
}

// Any value that the cell's line has the width for, often the least or the greatest.
fn some_value(cell: usize, seed: u32) -> u32 {
    let value = match seed % 8 {
        0 => 0,
        1 => 0xffff_ffff,
        _ => Dice(seed).throw(1),
    };
    if cell < FIRST_WIDE {
        value & 0xff_ffff
    } else {
        value
    }
}

// What a buffer held before a call: any words.
pub(super) fn some_old_words(alloc: Global, dice: Dice) -> Result<Vec<u8>, AllocError> {
    let mut buffer = vec![in alloc; 0u8; BUFFER_BYTES]?;
    // Kept: over places that are there, which is quicker than to add four bytes at a time.
    let (words, _) = buffer[..].as_chunks_mut::<4>();
    for (i, word) in words.iter_mut().enumerate() {
        *word = dice.throw(i).to_le_bytes();
    }
    Ok(buffer)
}
