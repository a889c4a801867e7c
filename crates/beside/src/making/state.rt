// Makes up states.
use super::value::some_value;
use crate::answer::Reason;
use crate::dice::Seed;
use crate::second::cell::Cell;
use crate::second::granted::Grants;
use crate::second::held::Cells;

// A state, often the empty one: else of each eight cells some six are marked, with any values.
pub(crate) fn some_cells(seed: Seed) -> Cells {
    let mut cells = Cells::EMPTY;
    let share = seed.0 % 8 / 5 * 6;
    for (number, cell) in (0..).zip((0..Cell::COUNT).filter_map(Cell::new)) {
        let value = seed.throw(number).0;
        if value % 8 < share {
            cells.set(cell, Some(value));
        }
    }
    cells
}

// What cell 1 has: what it had, no mark, or an address: granted or not in some memory, or past 2^32.
fn some_target(held: Option<u32>, grants: Grants, seed: Seed) -> Option<u32> {
    let wanted = (seed.0 % 16 == 9).then_some(Reason::NotGranted);
    let value = some_value(grants, Cell::TARGET, wanted, seed.throw(1));
    match seed.0 % 16 {
        0..=6 => held,
        7 => None,
        8 => Some(value | 1 << (seed.0 / 128 % 8 + 24)),
        _ => Some(value),
    }
}

// What cell 2 has: what it had, no mark, or the name of memory 0, 1 or none.
fn some_location(held: Option<u32>, seed: Seed) -> Option<u32> {
    match seed.0 / 16 % 8 {
        0 => held,
        1 | 2 => None,
        3 => Some(seed.0 / 1024 % 4 << 20),
        _ => Some(seed.0 / 1024 % 2 << 20),
    }
}

// Makes up the pair of a state.
pub(crate) fn make_pair(cells: &mut Cells, grants: Grants, seed: Seed) {
    let target = some_target(cells.get(Cell::TARGET), grants, seed);
    let location = some_location(cells.get(Cell::LOCATION), seed);
    cells.set(Cell::TARGET, target);
    cells.set(Cell::LOCATION, location);
}
