// The second query, written from the rules a second time. It goes through the grants as the list has them. Every address
// and every sum is a whole number of 64 bits: an address past 2^32 is one that no grant has. Nothing is shared with the
// first: no definition, no function, and nothing is kept beside the list.
ghost use Rattle.std.specs.Prelude.{◌<◌, ◌^◌};

use super::address_registers::{LOCATION, Register};
use super::answer::Reason;
use super::grant::{Grant, MOST_GRANTS, Memory, Owner, Role};
use super::lent::{CELLS, Case, Word};

// Why there is no address in a cell.
#[derive(Clone, Copy)]
pub(super) enum Lack {
    NoCell,
    NotMarked,
    NoAddress,
}

// An address that some grant has to admit.
#[derive(Clone, Copy)]
pub(super) struct Address {
    // None if the location names no memory.
    owner: Option<Owner>,
    at: u64,
    ghost narrow: { at < 2 ^ 40 },
}

impl Address {
    fn is_admitted_by(self, grant: Grant) -> bool {
        self.owner == Some(grant.owner)
            && u64::from(grant.start) <= self.at
            && self.at + u64::from(grant.reach) <= grant.end()
    }
}

fn number(word: &Word) -> u32 {
    u32::from_le_bytes(*word)
}

// Where a mark is not 1, neither it nor the value may have any bit.
fn is_well_formed(value: &Word, mark: &Word) -> bool {
    number(mark) == 1 || number(mark) | number(value) == 0
}

fn grant_of(words: &[Word; 5]) -> Result<Grant, Reason> {
    Grant::try_from(words.map(u32::from_le_bytes))
}

// A state and a list of grants that keep their rules, as they are lent.
#[derive(Clone, Copy)]
pub(super) struct Terms<'a> {
    values: &'a [Word],
    marks: &'a [Word],
    grants: &'a [[Word; 5]],
}

impl<'a> Terms<'a> {
    // Bytes behind the last whole word of a buffer count for nothing.
    pub(super) fn of(case: &'a Case) -> Result<Terms<'a>, Reason> {
        let (state, _) = case.state.as_chunks();
        let (values, marks) = state.split_at_checked(CELLS).ok_or(Reason::BadState)?;
        let mut cells = values.iter().zip(marks);
        if marks.len() != CELLS || !cells.all(|(value, mark)| is_well_formed(value, mark)) {
            return Err(Reason::BadState);
        }
        let (words, _) = case.grants.as_chunks();
        let (grants, rest) = words.as_chunks();
        if !rest.is_empty() || grants.len() > MOST_GRANTS {
            return Err(Reason::BadGrants);
        }
        for words in grants {
            grant_of(words)?;
        }
        Ok(Terms {
            values,
            marks,
            grants,
        })
    }

    // The memory that the location names, by two of its bits; where it is not marked none of them is set.
    fn named_memory(&self) -> Option<Memory> {
        match self.values.get(LOCATION).map_or(0, number) >> 20 & 3 {
            0 => Some(Memory::Zero),
            1 => Some(Memory::One),
            _ => None,
        }
    }

    // The address in a cell. The target's is in the memory that the location names, and a scaler's in memory 0, as all its
    // grants are.
    pub(super) fn address(&self, cell: usize) -> Result<Address, Lack> {
        let cells = self.values.get(cell).zip(self.marks.get(cell));
        let (value, mark) = cells.ok_or(Lack::NoCell)?;
        if number(mark) == 0 {
            return Err(Lack::NotMarked);
        }
        let role = Register::of_cell(cell).ok_or(Lack::NoAddress)?.role;
        let value = u64::from(number(value));
        Ok(match role {
            Role::Target => Address {
                owner: self.named_memory().map(|memory| Owner { role, memory }),
                at: value * 0x100,
            },
            _ => Address {
                owner: Some(Owner {
                    role,
                    memory: Memory::Zero,
                }),
                at: value & 0x1ffffff0,
            },
        })
    }

    // The lowest-numbered grant that admits the address, of those from one on.
    pub(super) fn lowest(&self, address: Address, from: usize) -> Option<usize> {
        self.grants
            .iter()
            .enumerate()
            .skip(from)
            .find(|(_, words)| grant_of(words).is_ok_and(|grant| address.is_admitted_by(grant)))
            .map(|(number, _)| number)
    }

    // Whether a grant behind that one admits the address in the cell too.
    pub(super) fn is_admitted_behind(&self, cell: usize, grant: usize) -> bool {
        let from = grant.saturating_add(1);
        self.address(cell)
            .is_ok_and(|address| self.lowest(address, from).is_some())
    }

    pub(super) fn which_grant(&self, cell: usize) -> Option<usize> {
        self.lowest(self.address(cell).ok()?, 0)
    }
}
