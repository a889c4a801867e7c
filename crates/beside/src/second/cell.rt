// A cell, which holds what one register has: how its register is named in a batch, and what it takes.
ghost use Rattle.std.specs.Prelude.{◌<◌};

use super::granted::Grants;
use super::table::{Name, REGISTERS, Register};
use crate::answer::Reason;

#[derive(Clone, Copy, PartialEq, Eq)]
pub(crate) struct Cell {
    number: usize,
    ghost listed: { number < 101 },
}

// The offset of the packets for 3D registers.
pub(crate) const DRAWING: u32 = 0x043c;

impl Cell {
    pub(crate) const COUNT: usize = 101;

    // The pair: the target's address, and its location.
    pub(crate) const TARGET: Cell = Cell { number: 1 };

    pub(crate) const LOCATION: Cell = Cell { number: 2 };

    pub(crate) fn new(number: usize) -> Option<Cell> {
        if number < 101 {
            Some(Cell { number })
        } else {
            None
        }
    }

    // That of the register with the name.
    pub(crate) fn named(name: Name) -> Option<Cell> {
        REGISTERS
            .iter()
            .position(|register| register.name == name)
            .and_then(Cell::new)
    }

    pub(crate) fn number(self) -> usize {
        self.number
    }

    pub(crate) fn register(self) -> &'static Register {
        &REGISTERS[self.number]
    }

    pub(crate) fn is_video(self) -> bool {
        matches!(self.register().name, Name::Video(_))
    }

    pub(crate) fn is_of_pair(self) -> bool {
        self == Cell::TARGET || self == Cell::LOCATION
    }

    // The value in a word that is for the cell: before that of a 3D register stands its sub-address.
    pub(crate) fn value_in(self, word: u32) -> u32 {
        match self.register().name {
            Name::Drawing { .. } => word & 0xffffff,
            Name::Video(_) => word,
        }
    }

    // The word for a value.
    pub(crate) fn word(self, value: u32) -> u32 {
        match self.register().name {
            Name::Drawing { sub_address, .. } => (sub_address as u32) << 24 | value,
            Name::Video(_) => value,
        }
    }

    // The header of a packet with so many values, that begins at the cell.
    pub(crate) fn header(self, values: u32) -> u32 {
        match self.register().name {
            Name::Drawing { .. } => values.wrapping_add(1) << 16 | DRAWING,
            Name::Video(offset) => values << 16 | offset,
        }
    }

    // The setting of the cell's packet: one for a video register has none.
    pub(crate) fn setting(self) -> Option<u32> {
        match self.register().name {
            Name::Drawing { kind, sub_type, .. } => {
                Some(u32::from_le_bytes([0, 0, kind, sub_type]))
            }
            Name::Video(_) => None,
        }
    }

    // Whether its register takes the value; else 7, 8 or 9.
    pub(crate) fn judge(self, value: u32, grants: Grants) -> Result<(), Reason> {
        let register = self.register();
        if value & register.clear != 0 {
            return Err(Reason::NotClear);
        }
        if !register.rule.allows(value) {
            return Err(Reason::BadValue);
        }
        match register.rule.role() {
            Some(role) if !grants.reach(role, role.address_in(value)) => Err(Reason::NotGranted),
            _ => Ok(()),
        }
    }
}
