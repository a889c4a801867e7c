// Makes up batches of packets whose every value is made up. What a batch should be answered is not taken from here.
use super::value::some_value;
use crate::answer::Reason;
use crate::dice::Seed;
use crate::second::cell::Cell;
use crate::second::granted::Grants;
use crate::tally::Tally;
use std::alloc::{AllocError, Global};
use std::ops::Range;

// A cell: often of 01.00, where the pair is, or of the stages, of the samples, or for video.
fn some_cell(seed: Seed) -> Option<Cell> {
    let thrown = seed.0 as usize / 8;
    Cell::new(match seed.0 % 8 {
        0 | 1 => thrown % 4,
        2 => thrown % 32 + 4,
        3 | 4 => thrown % 48 + 36,
        _ => thrown % 17 + 84,
    })
}

// The cells that have the type and sub-type of a cell, or are in its row of video registers.
fn row_around(cell: Cell) -> Range<usize> {
    let number = cell.number();
    let (before, size) = match number {
        0..=3 => (number, 4),
        4..=35 => (number % 2, 2),
        36..=86 => (number % 3, 3),
        _ => (number.wrapping_add(4) % 7, 7),
    };
    let start = number.saturating_sub(before);
    start..start.saturating_add(size)
}

// The cell of the value so many behind the first: a video register's next one; or any of the same type and sub-type, seldom
// any 3D cell.
fn next_cell(first: Cell, behind: u32, seed: Seed) -> Option<Cell> {
    let row = row_around(first);
    Cell::new(if first.is_video() {
        first.number().saturating_add(behind as usize)
    } else if seed.0 % 64 == 0 {
        seed.0 as usize / 64 % 84
    } else {
        row.start.saturating_add(seed.below(row.len()))
    })
}

// A few parameters, seldom as many as there may be or one more; or a run within its row of video registers.
fn how_many_values(first: Cell, seed: Seed) -> u32 {
    if first.is_video() {
        let left = row_around(first).end.saturating_sub(first.number());
        return (seed.below(left) % 8) as u32 + 1;
    }
    match seed.0 % 64 {
        0 => 112,
        1 => 113,
        _ => seed.0 / 64 % 5 + 1,
    }
}

#[derive(Drop)]
struct Maker<'a> {
    grants: Grants<'a>,
    // Of 32 values so many are to be refused.
    refused: u32,
    tally: &'a mut Tally,
    batch: Vec<u32>,
}

impl Maker<'_> {
    // Why a value is to be refused, if it is: for 7, 8 or 9.
    fn some_reason(&self, seed: Seed) -> Option<Reason> {
        if seed.0 % 32 >= self.refused {
            return None;
        }
        Some(match seed.0 / 32 % 3 {
            0 => Reason::NotClear,
            1 => Reason::BadValue,
            _ => Reason::NotGranted,
        })
    }

    fn value(&mut self, cell: Cell, seed: Seed) -> Result<(), AllocError> {
        let wanted = self.some_reason(seed.throw(1));
        let value = some_value(self.grants, cell, wanted, seed);
        self.tally.count_value(cell, cell.judge(value, self.grants));
        self.batch.push(cell.word(value))?;
        Ok(())
    }

    // The values of a packet that begins at the cell.
    fn values(&mut self, first: Cell, values: u32, seed: Seed) -> Result<(), AllocError> {
        for behind in 0..values {
            let thrown = seed.throw(behind);
            if let Some(cell) = next_cell(first, behind, thrown) {
                self.value(cell, thrown)?;
            }
        }
        Ok(())
    }

    fn packet(&mut self, seed: Seed) -> Result<(), AllocError> {
        let Some(first) = some_cell(seed.throw(1)) else {
            return Ok(());
        };
        let values = how_many_values(first, seed.throw(2));
        self.batch.push(first.header(values))?;
        if let Some(setting) = first.setting() {
            self.batch.push(setting)?;
        }
        self.values(first, values, seed.throw(3))
    }
}

// A batch of some packets, in which of 32 values so many are to be refused. Its values are counted.
pub(crate) fn some_batch(
    alloc: Global,
    tally: &mut Tally,
    grants: Grants,
    refused: u32,
    seed: Seed,
) -> Result<Vec<u32>, AllocError> {
    let mut maker = Maker {
        grants,
        refused,
        tally,
        batch: Vec::new(alloc),
    };
    for packet in 0..seed.0 % 6 {
        maker.packet(seed.throw(packet))?;
    }
    Ok(maker.batch)
}
