// The second listing reader, written from the rules a second time. It takes the text byte by byte, and keeps which cells
// the line at hand may still be of: those behind the last line's cell that leave enough cells for the count, and whose
// lines begin as this one does. The first byte that leaves no cell is the place. Nothing is shared with the first: no
// table, no definition, no function.
use super::answer::{Reason, Refusal};
use super::state::{CELLS, FIRST_WIDE, STATE_WORDS, State};
use std::alloc::{AllocError, Global};
use std::ops::Range;

// The parts of a text, where a reading may end: `cells=`, the count with its line's end, `reg=`, a name, ` val=`, a value,
// a line's end, behind the last line.
#[derive(Clone, Copy, PartialEq, Eq, PartialOrd, Ord)]
pub(super) enum Part {
    Key,
    Count,
    Reg,
    Name,
    Val,
    Value,
    LineEnd,
    Behind,
}

pub(super) const PARTS: [Part; 8] = [
    Part::Key,
    Part::Count,
    Part::Reg,
    Part::Name,
    Part::Val,
    Part::Value,
    Part::LineEnd,
    Part::Behind,
];

// Why a reading ended early: the buffer holds no state, or no listing goes on so in this part.
#[derive(Clone, Copy)]
pub(super) enum Stopped {
    BadState,
    NotAListing { place: usize, part: Part },
}

impl From<Stopped> for Refusal {
    fn from(stopped: Stopped) -> Refusal {
        match stopped {
            Stopped::BadState => Refusal {
                reason: Reason::BadState,
                place: 0,
            },
            Stopped::NotAListing { place, .. } => Refusal {
                reason: Reason::NotAListing,
                place,
            },
        }
    }
}

// What a hex digit counts.
fn digit(byte: u8) -> Option<u32> {
    match byte {
        b'0'..=b'9' => Some(u32::from(byte - b'0')),
        b'a'..=b'f' => Some(u32::from(byte - b'a') + 10),
        _ => None,
    }
}

// What stands in a column of a cell's line. In a table # stands for a digit.
#[derive(Clone, Copy)]
enum Wanted {
    Byte(u8),
    Digit,
}

impl From<u8> for Wanted {
    fn from(byte: u8) -> Wanted {
        match byte {
            b'#' => Wanted::Digit,
            _ => Wanted::Byte(byte),
        }
    }
}

impl Wanted {
    fn admits(self, byte: u8) -> bool {
        match self {
            Wanted::Byte(wanted) => byte == wanted,
            Wanted::Digit => digit(byte).is_some(),
        }
    }
}

// A line as it is known behind the last byte taken: its next column, and the cells that it may be of. The lines are in
// the order of their texts too, so cells whose lines begin alike stand side by side. With it, how many lines are wanted
// from it on, and the last eight hex digits.
#[derive(Drop)]
struct Line {
    column: usize,
    cells: Range<usize>,
    wanted: usize,
    digits: u32,
}

// Where the next byte stands: in a column of `cells=`, in the count, in a line, or behind the last.
#[derive(Drop)]
enum At {
    Key(usize),
    Count(Option<usize>),
    Line(Line),
    Behind,
}

const KEY: &[u8; 6] = b"cells=";

impl At {
    // A line's end is taken: the next one is of a cell from low on that leaves as many cells as lines are wanted behind
    // it.
    fn next_line(low: usize, wanted: usize) -> Option<At> {
        if wanted == 0 {
            return Some(At::Behind);
        }
        Some(At::Line(Line {
            column: 0,
            cells: low..(CELLS + 1).checked_sub(wanted)?,
            wanted,
            digits: 0,
        }))
    }

    fn take_in_key(column: usize, byte: u8) -> Option<At> {
        if *KEY.get(column)? != byte {
            return None;
        }
        Some(if column + 1 == KEY.len() {
            At::Count(None)
        } else {
            At::Key(column + 1)
        })
    }

    // The count does not go on behind a zero, nor to more than there are cells.
    fn take_in_count(count: Option<usize>, byte: u8) -> Option<At> {
        if byte == b'\n' {
            return At::next_line(0, count?);
        }
        if count == Some(0) || !byte.is_ascii_digit() {
            return None;
        }
        let grown = count
            .unwrap_or(0)
            .checked_mul(10)?
            .checked_add(usize::from(byte - b'0'))?;
        if grown > CELLS {
            return None;
        }
        Some(At::Count(Some(grown)))
    }

    // The part in which a reading that takes no more ends.
    fn part(&self) -> Part {
        match self {
            At::Key(_) => Part::Key,
            At::Count(_) => Part::Count,
            At::Line(line) => part_of_line(line.cells.start, line.column),
            At::Behind => Part::Behind,
        }
    }
}

// What stands in every line in front of the cell's eight bytes, and behind them: a value has eight digits, of which that
// of a 3D register uses six. The eight bytes of a video register end in ` val`.
const IN_FRONT: &[u8; 4] = b"reg=";

const BEHIND_3D: &[u8] = b" val=00######\n";

const BEHIND_VIDEO: &[u8] = b"=########\n";

// The part of a cell's line in which a column stands.
fn part_of_line(cell: usize, column: usize) -> Part {
    let name_ends = if cell < FIRST_WIDE { 12 } else { 8 };
    match column {
        0..=3 => Part::Reg,
        _ if column < name_ends => Part::Name,
        _ if column < name_ends + 5 => Part::Val,
        _ if column < name_ends + 13 => Part::Value,
        _ => Part::LineEnd,
    }
}

// The names of the cells, in their order: eight bytes of each one's line, those behind `reg=`.
#[derive(Drop)]
pub(super) struct Registers {
    names: Vec<u8>,
}

impl Registers {
    pub(super) fn new(alloc: Global) -> Registers {
        Registers {
            names: Vec::new(alloc),
        }
    }

    // Adds names, with or without commas between them.
    pub(super) fn lay_names(&mut self, names: &[u8]) -> Result<(), AllocError> {
        for name in names.split(|byte| *byte == b',') {
            self.names.extend_from_slice(name)?;
        }
        Ok(())
    }

    // Where the table has no name, and behind a line's end, the byte 0 is wanted.
    fn wanted(&self, cell: usize, column: usize) -> Wanted {
        let byte = match column {
            0..=3 => IN_FRONT.get(column),
            4..=11 => self
                .names
                .get(cell.wrapping_mul(8).wrapping_add(column - 4)),
            _ if cell < FIRST_WIDE => BEHIND_3D.get(column - 12),
            _ => BEHIND_VIDEO.get(column - 12),
        };
        Wanted::from(byte.copied().unwrap_or(0))
    }

    // Those of the cells whose line has that byte in the column.
    fn alike(&self, line: &Line, byte: u8) -> Option<Range<usize>> {
        let mut alike = (line.cells.start..line.cells.end).filter(|cell| self
            .wanted(*cell, line.column)
            .admits(byte));
        let lowest = alike.next()?;
        let highest = alike.next_back().unwrap_or(lowest);
        Some(lowest..highest.checked_add(1)?)
    }

    fn take_in_line(&self, line: &Line, byte: u8, state: &mut State) -> Option<At> {
        let cells = self.alike(line, byte)?;
        if byte == b'\n' {
            state.mark(cells.start, line.digits);
            return At::next_line(cells.start.checked_add(1)?, line.wanted.checked_sub(1)?);
        }
        Some(At::Line(Line {
            column: line.column.checked_add(1)?,
            cells,
            wanted: line.wanted,
            digits: line.digits << 4 | digit(byte).unwrap_or(0),
        }))
    }

    // Takes the byte; none, where no listing goes on with it.
    fn take(&self, at: &At, byte: u8, state: &mut State) -> Option<At> {
        match at {
            At::Key(column) => At::take_in_key(*column, byte),
            At::Count(count) => At::take_in_count(*count, byte),
            At::Line(line) => self.take_in_line(line, byte, state),
            At::Behind => None,
        }
    }

    // Reads the text into the buffer, if it is a listing.
    pub(super) fn read(&self, text: &[u8], buffer: &mut [u8]) -> Result<usize, Stopped> {
        if buffer.len() / 4 != STATE_WORDS {
            return Err(Stopped::BadState);
        }
        let mut state = State::empty();
        let mut at = At::Key(0);
        for (place, byte) in text.iter().enumerate() {
            let Some(next) = self.take(&at, *byte, &mut state) else {
                let part = at.part();
                return Err(Stopped::NotAListing { place, part });
            };
            at = next;
        }
        let place = text.len();
        match at.part() {
            Part::Behind => {
                state.lay(buffer);
                Ok(place)
            }
            part => Err(Stopped::NotAListing { place, part }),
        }
    }
}
