// The registers that hold an address: the target's, and of the seven of each scaler the third, the fourth and the seventh.
use super::grant::Role;

// The target's cell, and the one with its location.
pub(super) const TARGET: usize = 1;

pub(super) const LOCATION: usize = 2;

#[derive(Clone, Copy)]
pub(super) struct Register {
    pub(super) cell: usize,
    pub(super) role: Role,
    // The header of the packet that writes it.
    pub(super) header: u32,
    // The bits that may be set.
    pub(super) open: u32,
}

const REGISTERS: [Register; 7] = [
    Register {
        cell: TARGET,
        role: Role::Target,
        header: 0x0002043c,
        open: 0x00ffffff,
    },
    Register {
        cell: 89,
        role: Role::FirstScaler,
        header: 0x000123ec,
        open: 0xdffffff0,
    },
    Register {
        cell: 90,
        role: Role::FirstScaler,
        header: 0x000123f0,
        open: 0x1ffffff0,
    },
    Register {
        cell: 93,
        role: Role::FirstScaler,
        header: 0x000123fc,
        open: 0x1ffffff0,
    },
    Register {
        cell: 96,
        role: Role::SecondScaler,
        header: 0x000133ec,
        open: 0xdffffff0,
    },
    Register {
        cell: 97,
        role: Role::SecondScaler,
        header: 0x000133f0,
        open: 0x1ffffff0,
    },
    Register {
        cell: 100,
        role: Role::SecondScaler,
        header: 0x000133fc,
        open: 0x1ffffff0,
    },
];

impl Register {
    pub(super) fn by_remainder(number: u32) -> Register {
        REGISTERS[number as usize % 7]
    }

    // The register of a cell, if it holds an address.
    pub(super) fn of_cell(cell: usize) -> Option<Register> {
        REGISTERS
            .iter()
            .copied()
            .find(|register| register.cell == cell)
    }
}
