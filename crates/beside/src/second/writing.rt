// The second writer: the lowest cell that cannot be written; then the words, in cell order.
use super::cell::Cell;
use super::granted::Grants;
use super::held::Cells;
use super::reading::open;
use crate::answer::{Reason, Refusal};
use std::alloc::{AllocError, Global};

fn is_refused(cells: &Cells, cell: Cell, value: u32, grants: Grants) -> bool {
    cell.value_in(value) != value
        || cell.judge(value, grants).is_err()
        || cell == Cell::TARGET && !cells.pair_is_fine(grants)
}

// A state that can be written; else 1 or 2, or 12 at the lowest marked cell that cannot.
fn judge(state: &[u32], grants: &[u32]) -> Result<Cells, Refusal> {
    let (cells, grants) = open(state, grants)?;
    for cell in (0..Cell::COUNT).filter_map(Cell::new) {
        if let Some(value) = cells.get(cell) {
            if is_refused(&cells, cell, value, grants) {
                return Err(Reason::BadCell.at(cell.number()));
            }
        }
    }
    Ok(cells)
}

// The packet that takes further values: where its header stands, and its setting.
#[derive(Clone, Copy)]
struct Packet {
    header: usize,
    setting: Option<u32>,
}

#[derive(Drop)]
struct Writer {
    words: Vec<u32>,
    open: Option<Packet>,
}

impl Writer {
    // Where the header stands of the packet for the cell: the open one with that setting, or a new one with no value yet.
    fn packet(&mut self, cell: Cell) -> Result<usize, AllocError> {
        let setting = cell.setting();
        let open = self.open;
        match open {
            Some(open) if setting.is_some() && open.setting == setting => Ok(open.header),
            _ => self.begin(cell, setting),
        }
    }

    fn begin(&mut self, cell: Cell, setting: Option<u32>) -> Result<usize, AllocError> {
        let header = self.words.len();
        self.words.push(cell.header(0))?;
        if let Some(setting) = setting {
            self.words.push(setting)?;
        }
        self.open = Some(Packet { header, setting });
        Ok(header)
    }

    // One more value for the packet.
    fn put(&mut self, cell: Cell, value: u32) -> Result<(), AllocError> {
        let header = self.packet(cell)?;
        if let Some(header) = self.words.get_mut(header) {
            *header = header.wrapping_add(1 << 16);
        }
        self.words.push(cell.word(value))?;
        Ok(())
    }
}

fn words(alloc: Global, cells: &Cells) -> Result<Vec<u32>, AllocError> {
    let mut writer = Writer {
        words: Vec::new(alloc),
        open: None,
    };
    for cell in (0..Cell::COUNT).filter_map(Cell::new) {
        if let Some(value) = cells.get(cell) {
            writer.put(cell, value)?;
        }
    }
    let Writer { words, open: _ } = writer;
    Ok(words)
}

// The words that the state is written as, unless it is refused.
pub(crate) fn write(
    alloc: Global,
    state: &[u32],
    grants: &[u32],
) -> Result<Result<Vec<u32>, Refusal>, AllocError> {
    match judge(state, grants) {
        Ok(cells) => Ok(Ok(words(alloc, &cells)?)),
        Err(refusal) => Ok(Err(refusal)),
    }
}
