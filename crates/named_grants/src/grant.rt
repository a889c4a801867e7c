// Grants: their words, and the rules that each has to keep.
use super::answer::Reason;
use super::lent::bytes_of;
use std::alloc::{AllocError, Global};

// How many grants a list may have.
pub(super) const MOST_GRANTS: usize = 64;

// How many words these are.
pub(super) const MOST_WORDS: usize = 5 * MOST_GRANTS;

#[derive(Clone, Copy, PartialEq, Eq)]
pub(super) enum Role {
    Target = 1,
    FirstScaler = 2,
    SecondScaler = 3,
}

// The roles, to be picked by a number's remainder.
const ROLES: [Role; 3] = [Role::Target, Role::FirstScaler, Role::SecondScaler];

impl Role {
    pub(super) fn by_remainder(number: u32) -> Role {
        ROLES[number as usize % 3]
    }

    // Another role: the next one, and behind the last the first.
    fn next(self) -> Role {
        Role::by_remainder(self as u32)
    }
}

impl TryFrom<u32> for Role {
    type Error = Reason;

    fn try_from(word: u32) -> Result<Role, Reason> {
        match word {
            1 => Ok(Role::Target),
            2 => Ok(Role::FirstScaler),
            3 => Ok(Role::SecondScaler),
            _ => Err(Reason::BadGrants),
        }
    }
}

#[derive(Clone, Copy, PartialEq, Eq)]
pub(super) enum Memory {
    Zero = 0,
    One = 1,
}

impl Memory {
    pub(super) fn by_remainder(number: u32) -> Memory {
        if number % 2 == 0 {
            Memory::Zero
        } else {
            Memory::One
        }
    }

    // The other memory, or this one.
    fn other_if(self, is_other: bool) -> Memory {
        Memory::by_remainder(self as u32 ^ is_other as u32)
    }
}

// Whose a grant is.
#[derive(Clone, Copy, PartialEq, Eq)]
pub(super) struct Owner {
    pub(super) role: Role,
    pub(super) memory: Memory,
}

impl Owner {
    pub(super) fn of_next_role(self) -> Owner {
        Owner {
            role: self.role.next(),
            ..self
        }
    }

    pub(super) fn in_other_memory_if(self, is_other: bool) -> Owner {
        Owner {
            memory: self.memory.other_if(is_other),
            ..self
        }
    }

    // The grants of a scaler are all in memory 0.
    fn in_own_memory(self) -> Owner {
        match self.role {
            Role::Target => self,
            role => Owner {
                role,
                memory: Memory::Zero,
            },
        }
    }
}

#[derive(Clone, Copy)]
pub(super) struct Grant {
    pub(super) owner: Owner,
    pub(super) start: u32,
    pub(super) length: u32,
    pub(super) reach: u32,
}

impl Grant {
    // In the memory that is asked for if its role has it.
    pub(super) fn new(owner: Owner, start: u32, length: u32, reach: u32) -> Grant {
        Grant {
            owner: owner.in_own_memory(),
            start,
            length,
            reach,
        }
    }

    // The first byte behind what is granted.
    pub(super) fn end(self) -> u64 {
        u64::from(self.start) + u64::from(self.length)
    }

    pub(super) fn words(self) -> [u32; 5] {
        [
            self.owner.role as u32,
            self.start,
            self.length,
            self.reach,
            self.owner.memory as u32,
        ]
    }
}

// A grant keeps its rules if there is its role, it is in a memory that the role has, its reach is not 0, and it ends at
// 2^32 or before.
impl TryFrom<[u32; 5]> for Grant {
    type Error = Reason;

    fn try_from(words: [u32; 5]) -> Result<Grant, Reason> {
        let [role, start, length, reach, memory] = words;
        let role = Role::try_from(role)?;
        let memory = match (role, memory) {
            (_, 0) => Memory::Zero,
            (Role::Target, 1) => Memory::One,
            _ => return Err(Reason::BadGrants),
        };
        let grant = Grant {
            owner: Owner { role, memory },
            start,
            length,
            reach,
        };
        if reach == 0 || grant.end() > 1 << 32 {
            return Err(Reason::BadGrants);
        }
        Ok(grant)
    }
}

// A list of n grants, as it is lent.
pub(super) fn list_of<F: Fn(u32) -> Grant>(
    alloc: Global,
    n: u32,
    grant: F,
) -> Result<Vec<u8>, AllocError>
    requires { F.IsAlwaysCallable grant }
{
    let words: Vec<u32> = (0..n).flat_map(|g| grant(g).words()).collect(alloc)?;
    bytes_of(alloc, &words)
}
