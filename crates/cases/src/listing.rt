// The second lister, written from the rules a second time, with a table of its own. It shares nothing with the first:
// how long the text is, is told from the marks alone.

use super::answers::{Answer, Reason, Refusal};
use super::lists::{List, Word};
use super::state::CELLS;
use std::alloc::{AllocError, Global};

// The registers' names, in cell order.
static NAMES: [&str; CELLS] = [
    "01.00.3f", "01.00.50", "01.00.51", "01.00.52", "02.00.50", "02.00.51", "02.01.50", "02.01.51",
    "02.02.50", "02.02.51", "02.03.50", "02.03.51", "02.04.50", "02.04.51", "02.05.50", "02.05.51",
    "02.06.50", "02.06.51", "02.07.50", "02.07.51", "02.08.50", "02.08.51", "02.09.50", "02.09.51",
    "02.0a.50", "02.0a.51", "02.0b.50", "02.0b.51", "02.0c.50", "02.0c.51", "02.0d.50", "02.0d.51",
    "02.0e.50", "02.0e.51", "02.0f.50", "02.0f.51", "02.20.30", "02.20.31", "02.20.32", "02.21.30",
    "02.21.31", "02.21.32", "02.22.30", "02.22.31", "02.22.32", "02.23.30", "02.23.31", "02.23.32",
    "02.24.30", "02.24.31", "02.24.32", "02.25.30", "02.25.31", "02.25.32", "02.26.30", "02.26.31",
    "02.26.32", "02.27.30", "02.27.31", "02.27.32", "02.28.30", "02.28.31", "02.28.32", "02.29.30",
    "02.29.31", "02.29.32", "02.2a.30", "02.2a.31", "02.2a.32", "02.2b.30", "02.2b.31", "02.2b.32",
    "02.2c.30", "02.2c.31", "02.2c.32", "02.2d.30", "02.2d.31", "02.2d.32", "02.2e.30", "02.2e.31",
    "02.2e.32", "02.2f.30", "02.2f.31", "02.2f.32", "2208", "220c", "2210", "23e4", "23e8", "23ec",
    "23f0", "23f4", "23f8", "23fc", "33e4", "33e8", "33ec", "33f0", "33f4", "33f8", "33fc",
];

// The cells below this one have names of eight bytes, type, sub-type and sub-address; the others of four.
const FIRST_VIDEO: usize = 84;

fn number(word: &Word) -> u32 {
    u32::from_le_bytes(*word)
}

fn is_marked(mark: &Word) -> bool {
    number(mark) == 1
}

// A state that is well-formed.
#[derive(Clone, Copy)]
struct Cells<'a> {
    values: &'a [Word],
    marks: &'a [Word],
}

impl<'a> Cells<'a> {
    fn of(state: &'a List) -> Option<Cells<'a>> {
        let (values, marks) = state.words().split_at_checked(CELLS)?;
        let fine = values.iter().zip(marks).all(|(value, mark)| is_marked(mark)
            || number(mark) | number(value) == 0);
        if fine && marks.len() == CELLS {
            Some(Cells { values, marks })
        } else {
            None
        }
    }

    // How many are marked, and how many bytes their lines have.
    fn marked(&self) -> Marked {
        self.marks
            .iter()
            .enumerate()
            .filter(|(_, mark)| is_marked(mark))
            .map(|(cell, _)| if cell < FIRST_VIDEO { 26 } else { 22 })
            .fold(
                Marked { cells: 0, bytes: 0 },
                |marked, bytes| marked.with_line(bytes),
            )
    }

    fn text(&self, alloc: Global, marked: Marked) -> Result<String, AllocError> {
        let mut text = String::with_capacity(alloc, marked.length())?;
        writeln!(text, "cells={}", marked.cells)?;
        for ((name, value), mark) in NAMES.iter().zip(self.values).zip(self.marks) {
            if is_marked(mark) {
                let value = number(value);
                writeln!(text, "reg={name} val={value:08x}")?;
            }
        }
        Ok(text)
    }
}

// Cells, and the bytes of their lines.
#[derive(Clone, Copy)]
struct Marked {
    cells: usize,
    bytes: usize,
}

impl Marked {
    fn with_line(self, bytes: usize) -> Marked {
        Marked {
            cells: self.cells.wrapping_add(1),
            bytes: self.bytes.wrapping_add(bytes),
        }
    }

    // How many bytes the listing has.
    fn length(self) -> usize {
        let head = match self.cells {
            0..=9 => 8,
            10..=99 => 9,
            _ => 10,
        };
        self.bytes.wrapping_add(head)
    }
}

// What a lister is to answer on the state, and the text that then stands in the room of so many bytes: none behind a
// refusal.
pub(super) fn list(
    alloc: Global,
    state: &List,
    room: usize,
) -> Result<(Answer, String), AllocError> {
    let Some(cells) = Cells::of(state) else {
        return Ok((Err(Refusal::at(Reason::BadState, 0)), String::new(alloc)));
    };
    let marked = cells.marked();
    let length = marked.length();
    if room < length {
        return Ok((Err(Refusal::at(Reason::NoRoom, 0)), String::new(alloc)));
    }
    Ok((Ok(length), cells.text(alloc, marked)?))
}
