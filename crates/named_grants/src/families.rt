// The families that are made here: what is laid out for each call of one, by the call's number k.
use super::address_registers::{Register, TARGET};
use super::answer::{Answer, Reason, Refusal};
use super::calls;
use super::dice::dice;
use super::grant::{Grant, Memory, Owner, Role, list_of};
use super::laying::{HERE, Miss, Others, beside, in_two_memories, overlapping};
use super::lent::{Content, bytes_of};
use super::making::{Damage, some_case, some_damaged_case, some_grants, some_value};
use super::run::Run;
use std::alloc::{AllocError, Global};
use std::io;

// The first three have 64 grants: one has the address; or each has some of eight addresses; or all have the target's, in
// two memories.
#[derive(Clone, Copy)]
pub(super) enum Family {
    OneOf64(Others),
    Overlapping,
    InTwoMemories,
    Damaged(Damage),
    MadeUp,
    BesideReader,
}

// By the page's numbers; every higher one is the reader's too.
const FAMILIES: [Family; 14] = [
    Family::OneOf64(Others::All(Miss::StartsBehind)),
    Family::OneOf64(Others::All(Miss::EndsTooSoon)),
    Family::OneOf64(Others::All(Miss::NoRoom)),
    Family::OneOf64(Others::All(Miss::AnotherRole)),
    Family::OneOf64(Others::InTurn),
    Family::OneOf64(Others::HaveItBehind),
    Family::Overlapping,
    Family::Damaged(Damage::StateWord),
    Family::Damaged(Damage::GrantsWord),
    Family::Damaged(Damage::StateLength),
    Family::Damaged(Damage::GrantsLength),
    Family::MadeUp,
    Family::BesideReader,
    Family::InTwoMemories,
];

impl From<u32> for Family {
    fn from(number: u32) -> Family {
        FAMILIES
            .get(number as usize)
            .copied()
            .unwrap_or(Family::BesideReader)
    }
}

// The locations that states are asked with, in turn: not marked, and marked with 0 to 3.
fn location_by(form: u32) -> Content {
    match form.checked_sub(1) {
        Some(named) => Content::marked(named << 20),
        None => Content::default(),
    }
}

// Which of 64 grants is the one.
fn the_one(k: u32) -> u32 {
    k / 7 % 64
}

// The packet that writes the location, if it is marked, and the one that writes the address.
fn batch_of(
    alloc: Global,
    location: Content,
    register: Register,
    value: u32,
) -> Result<Vec<u8>, AllocError> {
    let mut words = Vec::new(alloc);
    if location.mark == 1 {
        words.extend_from_slice(&[0x0002043c, 0x00010000, 0x51000000 | location.value])?;
    }
    match register.role {
        Role::Target => {
            words.extend_from_slice(&[register.header, 0x00010000, 0x50000000 | value])?;
        }
        _ => words.extend_from_slice(&[register.header, value])?,
    }
    bytes_of(alloc, &words)
}

// What the query has to answer where the reader answers that: some grant, the one that it tells, where the write is
// accepted, and none where its address is not granted, or not in that memory.
fn due(read: Result<usize, Refusal>, told: Answer) -> Answer {
    Answer(match read {
        Ok(_) => Ok(Some(told.0.ok().flatten().unwrap_or(0))),
        Err(refusal) => match refusal.reason {
            Reason::NotGranted | Reason::BadPair => Ok(None),
            reason => Err(Refusal::from(reason)),
        },
    })
}

// A cell, or a number that no cell has: above the cells, or a cell's with 2^32 more.
fn any_number(seed: u32) -> usize {
    seed as usize / 2 % 128 | (seed as usize % 2) << 32
}

impl<R: Print + AllocGlobal> Run<R> {
    // The query of a register that holds that value, in a state that is empty but for it and the location.
    fn ask_register(&mut self, register: Register, value: u32) -> io::Result<Answer> {
        self.ask(register.cell, Content::marked(value))
    }

    // The one is grant m, and that is the answer.
    fn one_of_64(&mut self, others: Others, k: u32) -> io::Result<()> {
        let told = self.ask_64(k, |g, m, owner| beside(others, g, m, owner))?;
        self.hold(told, Answer(Ok(Some(the_one(k) as usize))))
    }

    // The query of each register in turn, where the one is grant m, and grant g what the function makes of both.
    fn ask_64<F: Fn(u32, u32, Owner) -> Grant>(&mut self, k: u32, grant: F) -> io::Result<Answer>
        requires { F.IsAlwaysCallable grant }
    {
        let register = Register::by_remainder(k);
        let m = the_one(k);
        self.location = location_by(k / 448 % 3);
        let owner = Owner {
            role: register.role,
            memory: Memory::by_remainder(self.location.value >> 20),
        };
        self.case.grants = list_of(self.rt.alloc(), 64, |g| grant(g, m, owner))?;
        self.ask_register(register, some_value(register.cell, HERE, 0))
    }

    // 64 grants have the target's address, and of those in the memory that the location names m is the first. No grant is
    // told where it names none.
    fn in_two_memories(&mut self, k: u32) -> io::Result<()> {
        let m = k % 64;
        self.location = location_by(k / 64 % 5);
        let named = self.location.value >> 20;
        let owner = Owner {
            role: Role::Target,
            memory: Memory::by_remainder(named),
        };
        self.case.grants = list_of(self.rt.alloc(), 64, |g| in_two_memories(g, m, owner))?;
        let told = self.ask(TARGET, Content::marked(HERE >> 8))?;
        self.hold(told, Answer(Ok((named < 2).then_some(m as usize))))
    }

    // A case with as many grants as there may be, or with two more, that is damaged in that way.
    fn damaged(&mut self, damage: Damage, k: u32) -> io::Result<()> {
        let seed = dice((damage as u32) << 28, k);
        self.case = some_case(self.rt.alloc(), 64 + k % 2 * 2, seed)?;
        damage.apply(&mut self.case, k / 2)?;
        self.check(Register::by_remainder(seed).cell)?;
        Ok(())
    }

    // One case for eight calls: for the seven cells with an address, and for any number.
    fn made_up(&mut self, k: u32) -> io::Result<()> {
        let seed = dice(0x50000000, k / 8);
        if k % 8 == 0 {
            self.case = some_damaged_case(self.rt.alloc(), seed)?;
        }
        let cell = if k % 8 == 7 {
            any_number(seed)
        } else {
            Register::by_remainder(k % 8).cell
        };
        self.check(cell)?;
        Ok(())
    }

    // One list of grants for seven batches, each of which writes an address; the query is asked for that address.
    fn beside_reader(&mut self, k: u32) -> io::Result<()> {
        let alloc = self.rt.alloc();
        if k % 7 == 0 {
            self.case.grants = some_grants(alloc, k / 7 % 66, HERE, dice(k, 2))?;
        }
        let register = Register::by_remainder(k);
        let value = some_value(register.cell, HERE, dice(k, 1)) & register.open;
        self.location = location_by(dice(k, 3) % 3);
        let batch = batch_of(alloc, self.location, register, value)?;
        let read = calls::read(&batch, &self.case.grants);
        let told = self.ask_register(register, value)?;
        self.hold(told, due(read, told))
    }

    pub(super) fn turn(&mut self, family: Family, k: u32) -> io::Result<()> {
        match family {
            Family::OneOf64(others) => self.one_of_64(others, k),
            Family::Overlapping => self.ask_64(k, overlapping).map(drop),
            Family::InTwoMemories => self.in_two_memories(k),
            Family::Damaged(damage) => self.damaged(damage, k),
            Family::MadeUp => self.made_up(k),
            Family::BesideReader => self.beside_reader(k),
        }
    }
}
