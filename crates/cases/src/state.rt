// A state as the rules have it: a value for each cell, and behind the values a mark for each.

use super::lists::List;

pub(super) const CELLS: usize = 101;

pub(super) const STATE_WORDS: u32 = 202;

#[derive(Clone, Copy, PartialEq, Eq)]
pub(super) struct State {
    list: List,
}

impl State {
    // No cell is marked.
    pub(super) fn empty() -> State {
        let mut list = List::new();
        list.cut(STATE_WORDS);
        State { list }
    }

    // The state with every cell marked, and with a value of its own.
    pub(super) fn filled(mut self) -> State {
        for (cell, number) in (0..CELLS).zip(0u32..) {
            self.store(cell, number.wrapping_mul(0x01234567));
        }
        self
    }

    // Kept: a number that is no cell's stores in the room all the same, where its value and its mark would stand.
    pub(super) fn store(&mut self, cell: usize, value: u32) {
        self.list.put(cell, value);
        self.list.put(cell.wrapping_add(CELLS), 1);
    }

    // Becomes the empty state.
    pub(super) fn clear(&mut self) {
        self.list.clear();
        self.list.cut(STATE_WORDS);
    }

    // Stores more: each cell's number, and behind it its value.
    pub(super) fn store_all(&mut self, cells: &List) {
        for i in (0..cells.len() as usize).step_by(2) {
            self.store(cells.get(i) as usize, cells.get(i.wrapping_add(1)));
        }
    }

    pub(super) fn cut(&mut self, length: u32) {
        self.list.cut(length);
    }

    pub(super) fn list(&self) -> &List {
        &self.list
    }

    // Changes a word, be it a value or a mark.
    pub(super) fn put(&mut self, i: usize, word: u32) {
        self.list.put(i, word);
    }

    pub(super) fn lent_mut(&mut self, more: usize) -> &mut [u8] {
        self.list.lent_mut(more)
    }

    // The cell's value, if it is marked.
    pub(super) fn get(&self, cell: usize) -> Option<u32> {
        let is_marked = self.list.get(cell.wrapping_add(CELLS)) == 1;
        is_marked.then_some(self.list.get(cell))
    }
}
