// The pair of cells 1 and 2 in every combination, judged a second time beside the reader, from the rules alone. A case
// has a number: by it cell 1 is not marked, or has one of two addresses or one past 2^32; cell 2 is not marked, or has 0
// to 3; each address is granted in neither memory, in one or in both; and two words write one of the two addresses, a
// location of 0, 1 or 2, what cell 1 or cell 2 had, or another register.

use super::answers::{Answer, Numbers, Reason, Refusal};
use super::calls::Lists;
use super::checks::Checker;
use super::lists::List;
use super::state::State;
use std::alloc::{AllocError, Global};
use std::io;

const TARGET: usize = 1;

const LOCATION: usize = 2;

// The two addresses, as cell 1 has them; and one past 2^32, which without its top bit is the first.
const HERE: u32 = 0x001000;

const THERE: u32 = 0x002000;

const PAST: u32 = 0x01001000;

// What the other register is written with.
const OTHER: u32 = 0x400400;

// The length of a batch.
const END: usize = 4;

// The bits of a word that are its value.
const VALUE: u32 = 0xffffff;

// An address with just its 256 bytes, in that memory.
#[derive(Clone, Copy)]
struct Grant {
    // Set in a case's number of grants where this is one of them.
    bit: u32,
    address: u32,
    memory: u32,
}

impl Grant {
    fn words(self) -> [u32; 5] {
        [1, self.address << 8, 0x100, 0x100, self.memory]
    }
}

const GRANTS: [Grant; 4] = [
    Grant {
        bit: 1,
        address: HERE,
        memory: 0,
    },
    Grant {
        bit: 2,
        address: HERE,
        memory: 1,
    },
    Grant {
        bit: 4,
        address: THERE,
        memory: 0,
    },
    Grant {
        bit: 8,
        address: THERE,
        memory: 1,
    },
];

fn is_granted(granted: &[Grant], address: u32, memory: u32) -> bool {
    granted
        .iter()
        .any(|grant| grant.address == address && grant.memory == memory)
}

// The memory that the location in a value of cell 2 names: 2 and 3 name none.
fn memory_named(value: u32) -> Option<u32> {
    match value / 0x100000 % 4 {
        0 => Some(0),
        1 => Some(1),
        _ => None,
    }
}

// What a word writes.
#[derive(Clone, Copy)]
enum Write {
    Other,
    Target(u32),
    Location(u32),
}

impl Write {
    fn by(kind: u32, state: &State) -> Write {
        match kind % 8 {
            0 => Write::Other,
            1 => Write::Target(HERE),
            2 => Write::Target(THERE),
            3 => Write::Target(state.get(TARGET).unwrap_or(0) & VALUE),
            4 => Write::Location(0),
            5 => Write::Location(0x100000),
            6 => Write::Location(0x200000),
            _ => Write::Location(state.get(LOCATION).unwrap_or(0) & VALUE),
        }
    }

    fn word(self) -> u32 {
        match self {
            Write::Other => 0x3f000000 | OTHER,
            Write::Target(value) => 0x50000000 | value,
            Write::Location(value) => 0x51000000 | value,
        }
    }

    fn store(self, state: &mut State) {
        match self {
            Write::Other => state.store(0, OTHER),
            Write::Target(value) => state.store(TARGET, value),
            Write::Location(value) => state.store(LOCATION, value),
        }
    }

    fn is_of_pair(self) -> bool {
        match self {
            Write::Other => false,
            Write::Target(_) | Write::Location(_) => true,
        }
    }

    // What speaks against the word by itself: a location of 2 or 3, or an address that is granted in neither memory.
    fn judge(self, granted: &[Grant]) -> Result<(), Reason> {
        match self {
            Write::Target(value) if !granted.iter().any(|grant| grant.address == value) => {
                Err(Reason::NotGranted)
            }
            Write::Location(value) if memory_named(value).is_none() => Err(Reason::BadValue),
            _ => Ok(()),
        }
    }
}

#[derive(Drop)]
struct Case {
    state: State,
    granted: Vec<Grant>,
    writes: [Write; 2],
}

impl Case {
    fn numbered(alloc: Global, number: u32) -> Result<Case, AllocError> {
        let mut state = State::empty();
        match number % 4 {
            0 => {}
            1 => state.store(TARGET, HERE),
            2 => state.store(TARGET, THERE),
            _ => state.store(TARGET, PAST),
        }
        let location = number / 4 % 5;
        if location < 4 {
            state.store(LOCATION, location << 20);
        }
        Ok(Case {
            state,
            granted: GRANTS
                .into_iter()
                .filter(|grant| number / 20 & grant.bit != 0)
                .collect(alloc)?,
            writes: [
                Write::by(number / 320, &state),
                Write::by(number / 2560, &state),
            ],
        })
    }

    // The state with the writes.
    fn written(&self) -> State {
        let mut state = self.state;
        for write in self.writes {
            write.store(&mut state);
        }
        state
    }

    // What speaks against the pair of the state with the writes, if one of them is of the pair.
    fn judge_pair(&self) -> Result<(), Reason> {
        let written = self.written();
        let Some(address) = written.get(TARGET) else {
            return Ok(());
        };
        // A cell that is not marked holds 0.
        let memory = memory_named(written.get(LOCATION).unwrap_or(0));
        let fine = memory.is_some_and(|memory| is_granted(&self.granted, address, memory));
        if fine || !self.writes.iter().any(|write| write.is_of_pair()) {
            Ok(())
        } else {
            Err(Reason::BadPair)
        }
    }

    // The answer on the two words, behind a header that counts right, or a word more than there are.
    fn answer(&self, more: bool) -> Answer {
        for (write, place) in self.writes.iter().zip(2..) {
            write
                .judge(&self.granted)
                .map_err(|reason| Refusal::at(reason, place))?;
        }
        if more {
            return Err(Refusal::at(Reason::EndsInside, END));
        }
        self.judge_pair()
            .map_err(|reason| Refusal::at(reason, END))?;
        Ok(END)
    }

    fn check(&self, checker: &mut Checker, more: bool) -> io::Result<()> {
        let header = if more { 0x0004043c } else { 0x0003043c };
        let [first, second] = self.writes;
        let mut batch = List::new();
        batch.push_words(&[header, 0x00010000, first.word(), second.word()]);
        let mut grants = List::new();
        for grant in &self.granted {
            grants.push_words(&grant.words());
        }
        let lists = Lists {
            batch: &batch,
            grants: &grants,
            state: &self.state,
        };
        let answer = self.answer(more);
        let left = if answer.is_ok() {
            self.written()
        } else {
            self.state
        };
        checker.check_stored(lists, Numbers::from(answer), &left)
    }
}

// As many cases, and every seventh once more with a header that counts too many words.
pub(super) fn go_through(alloc: Global, checker: &mut Checker, cases: u32) -> io::Result<()> {
    for number in 0..cases {
        checker.tally.begin_case(number);
        let case = Case::numbered(alloc, number)?;
        case.check(checker, false)?;
        if number % 7 == 0 {
            case.check(checker, true)?;
        }
    }
    Ok(())
}
