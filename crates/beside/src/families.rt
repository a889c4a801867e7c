// The families: what is made up, how it is damaged, and how often.
use crate::dice::Seed;
use crate::lists::Lists;
use crate::making::case::{Case, Damage, List, change_word};
use crate::sides::Beside;
use std::alloc::AllocError;
use std::io;

// Made-up cases.
#[derive(Clone, Copy)]
pub(crate) struct Family {
    name: &'static str,
    seed: Seed,
    // Of 32 values in a batch so many are to be refused.
    refused: u32,
    damage: Option<Damage>,
    cases: u32,
}

pub(crate) const FAMILIES: [Family; 8] = [
    Family {
        name: "values-taken",
        seed: Seed(0),
        refused: 0,
        damage: None,
        cases: 12000,
    },
    Family {
        name: "values-some-refused",
        seed: Seed(4 << 20),
        refused: 4,
        damage: None,
        cases: 60000,
    },
    Family {
        name: "word-changed",
        seed: Seed(1 << 20),
        refused: 0,
        damage: Some(Damage::Changed(List::Batch)),
        cases: 20000,
    },
    Family {
        name: "grants-changed",
        seed: Seed(2 << 20),
        refused: 0,
        damage: Some(Damage::Changed(List::Grants)),
        cases: 12000,
    },
    Family {
        name: "state-changed",
        seed: Seed(3 << 20),
        refused: 0,
        damage: Some(Damage::Changed(List::State)),
        cases: 8000,
    },
    Family {
        name: "batch-cut",
        seed: Seed(4 << 20),
        refused: 0,
        damage: Some(Damage::Cut(List::Batch)),
        cases: 8000,
    },
    Family {
        name: "grants-cut",
        seed: Seed(5 << 20),
        refused: 0,
        damage: Some(Damage::Cut(List::Grants)),
        cases: 4000,
    },
    Family {
        name: "state-cut",
        seed: Seed(6 << 20),
        refused: 0,
        damage: Some(Damage::Cut(List::State)),
        cases: 4000,
    },
];

fn second_word(words: &[u32]) -> Option<u32> {
    words.get(1).copied()
}

impl Family {
    pub(crate) fn run(&self, rt: &impl Print, beside: &mut Beside) -> io::Result<()> {
        for number in 0..self.cases {
            self.check_case(beside, self.seed.throw(number))?;
        }
        beside.tally.end_family(rt, self.name)
    }

    // One of its cases. The nearly full engine is thrown from the second word, also where that is cut off.
    fn check_case(&self, beside: &mut Beside, seed: Seed) -> Result<(), AllocError> {
        let mut case = Case::some(beside.alloc, &mut beside.tally, self.refused, seed)?;
        let whole = second_word(&case.batch);
        if let Some(damage) = self.damage {
            case.damage(damage, seed.throw(4));
        }
        let thrown = second_word(&case.batch).or(whole).unwrap_or(0);
        if let Ok(cells) = beside.read(case.lists(), thrown)? {
            check_left(beside, &mut case.grants, &mut cells.words(), seed.throw(5))?;
        }
        Ok(())
    }
}

// The state that an accepted batch left; under other grants; and with a word of it changed.
fn check_left(
    beside: &mut Beside,
    grants: &mut [u32],
    state: &mut [u32],
    seed: Seed,
) -> Result<(), AllocError> {
    beside.write_around(state, grants)?;
    change_word(grants, seed.throw(1));
    beside.write_around(state, grants)?;
    change_word(state, seed.throw(2));
    beside.write_around(state, grants)
}

// The batch with each bit of a word changed.
fn check_bits(beside: &mut Beside, case: &mut Case, place: usize) -> Result<(), AllocError> {
    let Some(word) = case.batch.get(place).copied() else {
        return Ok(());
    };
    for bit in 0..32u32 {
        set_word(&mut case.batch, place, word ^ 1 << bit);
        let _ = beside.read(case.lists(), second_word(&case.batch).unwrap_or(0))?;
    }
    set_word(&mut case.batch, place, word);
    Ok(())
}

fn set_word(words: &mut [u32], place: usize, word: u32) {
    if let Some(stored) = words.get_mut(place) {
        *stored = word;
    }
}

// The batch up to each of its words, and with each of its bits changed.
fn check_prefixes_and_bits(beside: &mut Beside, mut case: Case) -> Result<(), AllocError> {
    for place in 0..case.batch.len() {
        let lists = case.lists();
        let prefix = Lists {
            batch: lists.batch.get(..place).unwrap_or(&[]),
            ..lists
        };
        let _ = beside.read(prefix, second_word(&case.batch).unwrap_or(0))?;
        check_bits(beside, &mut case, place)?;
    }
    Ok(())
}

// Batches with nothing in them that is refused, for the empty state.
pub(crate) fn every_prefix_and_bit(rt: &impl Print, beside: &mut Beside) -> io::Result<()> {
    for number in 0..100 {
        let grants = Seed(1).throw(number);
        let batch = Seed(2).throw(number);
        let case = Case::taken(beside.alloc, &mut beside.tally, grants, batch)?;
        check_prefixes_and_bits(beside, case)?;
    }
    beside.tally.end_family(rt, "every-prefix-and-every-bit")
}
