// A case: what is handed to the calls, made up and then damaged in one place.
use super::batch::some_batch;
use super::grant::some_grants;
use super::state::{make_pair, some_cells};
use super::value::moved;
use crate::dice::Seed;
use crate::lists::Lists;
use crate::second::granted::Grants;
use crate::second::held::Cells;
use crate::tally::Tally;
use std::alloc::{AllocError, Global};

#[derive(Clone, Copy)]
pub(crate) enum List {
    Batch,
    Grants,
    State,
}

// What is done to a list.
#[derive(Clone, Copy)]
pub(crate) enum Damage {
    Changed(List),
    Cut(List),
}

#[derive(Drop)]
pub(crate) struct Case {
    pub batch: Vec<u32>,
    pub grants: Vec<u32>,
    pub state: Vec<u32>,
}

impl Case {
    // A case in which of 32 values so many are to be refused.
    pub(crate) fn some(
        alloc: Global,
        tally: &mut Tally,
        refused: u32,
        seed: Seed,
    ) -> Result<Case, AllocError> {
        let grants = some_grants(alloc, seed.throw(1))?;
        let mut cells = some_cells(seed.throw(2));
        make_pair(&mut cells, Grants(&grants), seed.throw(6));
        let batch = some_batch(alloc, tally, Grants(&grants), refused, seed.throw(3))?;
        let state = Vec::from_slice(alloc, &cells.words())?;
        Ok(Case {
            batch,
            grants,
            state,
        })
    }

    // A batch with nothing in it that is refused, for the empty state.
    pub(crate) fn taken(
        alloc: Global,
        tally: &mut Tally,
        grants: Seed,
        batch: Seed,
    ) -> Result<Case, AllocError> {
        let grants = some_grants(alloc, grants)?;
        let batch = some_batch(alloc, tally, Grants(&grants), 0, batch)?;
        let state = Vec::from_slice(alloc, &Cells::EMPTY.words())?;
        Ok(Case {
            batch,
            grants,
            state,
        })
    }

    pub(crate) fn lists(&self) -> Lists<'_> {
        Lists {
            batch: &self.batch,
            grants: &self.grants,
            state: &self.state,
        }
    }

    fn list(&mut self, list: List) -> &mut Vec<u32> {
        match list {
            List::Batch => &mut self.batch,
            List::Grants => &mut self.grants,
            List::State => &mut self.state,
        }
    }

    pub(crate) fn damage(&mut self, damage: Damage, seed: Seed) {
        match damage {
            Damage::Changed(list) => change_word(self.list(list), seed),
            Damage::Cut(list) => cut(self.list(list), seed),
        }
    }
}

fn cut(words: &mut Vec<u32>, seed: Seed) {
    let left = seed.below(words.len());
    words.truncate(left);
}

// Another word: a count or a grant past the rules or at their very edge, the word before, any word, a bit changed.
fn changed(word: u32, before: u32, seed: u32) -> u32 {
    match seed % 16 {
        0 => 0,
        1 => seed / 16 % 5,
        2 => before.wrapping_neg(),
        3 => 1u32.wrapping_sub(before),
        4 => word.wrapping_add(0x10000),
        5 => word.wrapping_sub(0x10000),
        6 => word & 0xffff,
        7 => word & 0xffff | 0x00710000,
        8 => word & 0xffff | 0x00720000,
        9 => seed,
        10 => before,
        11 => moved(word, seed >> 4),
        _ => word ^ 1 << (seed >> 4 & 31),
    }
}

// Changes some word.
pub(crate) fn change_word(words: &mut [u32], seed: Seed) {
    let place = seed.throw(1).below(words.len());
    let before = match place.checked_sub(1) {
        Some(before) => words.get(before).copied().unwrap_or(0),
        None => 0,
    };
    if let Some(word) = words.get_mut(place) {
        *word = changed(*word, before, seed.throw(2).0);
    }
}
