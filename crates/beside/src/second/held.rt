// A state: what each cell holds, if it is marked.
use super::cell::Cell;
use super::granted::{Grants, Memory};
use super::table::Role;

#[derive(Clone, Copy)]
pub(crate) struct Cells([Option<u32>; 101]);

// The words of a state: the values, then the marks.
pub(crate) type StateWords = [u32; 202];

impl Cells {
    pub(crate) const EMPTY: Cells = Cells([None; 101]);

    // The state of those words, if they are well-formed.
    pub(crate) fn parse(words: &[u32]) -> Option<Cells> {
        if words.len() != 202 {
            return None;
        }
        let (values, marks) = words.split_at(101);
        let mut cells = [None; 101];
        for (cell, (value, mark)) in cells.iter_mut().zip(values.iter().zip(marks)) {
            *cell = match (*mark, *value) {
                (0, 0) => None,
                (1, value) => Some(value),
                _ => return None,
            };
        }
        Some(Cells(cells))
    }

    pub(crate) fn words(&self) -> StateWords {
        let mut words = [0; 202];
        let (values, marks) = words.split_at_mut(101);
        for (cell, (value, mark)) in self.0.iter().zip(values.iter_mut().zip(marks)) {
            if let Some(held) = *cell {
                *value = held;
                *mark = 1;
            }
        }
        words
    }

    pub(crate) fn get(&self, cell: Cell) -> Option<u32> {
        self.0.get(cell.number()).copied().flatten()
    }

    pub(crate) fn set(&mut self, cell: Cell, value: Option<u32>) {
        if let Some(held) = self.0.get_mut(cell.number()) {
            *held = value;
        }
    }

    // Cell 1 is not marked, or its address is granted in the memory that cell 2 names. A cell that is not marked names
    // the first memory.
    pub(crate) fn pair_is_fine(&self, grants: Grants) -> bool {
        let Some(target) = self.get(Cell::TARGET) else {
            return true;
        };
        let address = Role::Target.address_in(target);
        Memory::named(self.get(Cell::LOCATION).unwrap_or(0)).is_some_and(
            |memory| grants.reach_target_in(memory, address),
        )
    }
}
