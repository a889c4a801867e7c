// The grants, read from their words.
use super::table::Role;

#[derive(Clone, Copy, PartialEq, Eq)]
pub(crate) enum Memory {
    First,
    Second,
}

impl Memory {
    // The memory that a location names: none for 2 and 3.
    pub(crate) fn named(location: u32) -> Option<Memory> {
        match location >> 20 & 3 {
            0 => Some(Memory::First),
            1 => Some(Memory::Second),
            _ => None,
        }
    }
}

#[derive(Clone, Copy)]
struct Grant {
    role: Role,
    memory: Memory,
    start: u64,
    end: u64,
    reach: u64,
}

impl Grant {
    // The grant of five words, unless they break the rules: a scaler's grant is in the first memory.
    fn parse(words: &[u32]) -> Option<Grant> {
        let &[role, start, length, reach, memory] = words else {
            return None;
        };
        let (role, memory) = match (role, memory) {
            (1, 0) => (Role::Target, Memory::First),
            (1, 1) => (Role::Target, Memory::Second),
            (2, 0) => (Role::FirstScaler, Memory::First),
            (3, 0) => (Role::SecondScaler, Memory::First),
            _ => return None,
        };
        let end = start as u64 + length as u64;
        (reach > 0 && end <= 1 << 32).then_some(Grant {
            role,
            memory,
            start: start as u64,
            end,
            reach: reach as u64,
        })
    }

    // The address may be any whole number: past 2^32 no grant covers it.
    fn covers(&self, role: Role, address: u64) -> bool {
        self.role == role && self.start <= address && address.saturating_add(self.reach) <= self.end
    }
}

// The words of grants, which stand five words apart.
#[derive(Clone, Copy)]
pub(crate) struct Grants<'a>(pub &'a [u32]);

impl Grants<'_> {
    // Words past the last whole grant, and a 65th, break the rules.
    pub(crate) fn are_fine(&self) -> bool {
        self.0.len() <= 320 && self.0.chunks(5).all(|words| Grant::parse(words).is_some())
    }

    fn any<F: Fn(&Grant) -> bool>(&self, is_it: F) -> bool
        requires { (f : _) (x : _) → F.pre f x }
    {
        self.0
            .chunks(5)
            .filter_map(Grant::parse)
            .any(|grant| is_it(&grant))
    }

    // Some grant of the role covers the address, in either memory.
    pub(crate) fn reach(&self, role: Role, address: u64) -> bool {
        self.any(|grant| grant.covers(role, address))
    }

    // Some grant of the target covers the address in that memory.
    pub(crate) fn reach_target_in(&self, memory: Memory, address: u64) -> bool {
        self.any(|grant| grant.memory == memory && grant.covers(Role::Target, address))
    }
}
