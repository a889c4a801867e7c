// The first ones beside the second ones: the same is handed to both, and each difference is counted.
use crate::answer::{Answer, Reason, Refusal};
use crate::calls::{self, Feeding};
use crate::dice::Seed;
use crate::due::Due;
use crate::lists::{BLANK, Lists, bytes_of};
use crate::second::held::{Cells, StateWords};
use crate::second::{reading, writing};
use crate::tally::{Call, Tally};
use std::alloc::{AllocError, Global};

// Bytes enough for any state.
const MUCH_ROOM: usize = 4095;

// What the second reader and the second writer make of what is handed in: the state that is left, and the words written.
pub(crate) type Left = Result<Cells, Refusal>;

type Written = Result<Vec<u32>, Refusal>;

// The words that are due in room for so many bytes.
fn in_room(due: &Written, room: usize) -> Result<&[u32], Refusal> {
    match due {
        Ok(words) if words.len() <= room / 4 => Ok(words),
        Ok(_) => Err(Reason::NoRoom.at(0)),
        Err(refusal) => Err(*refusal),
    }
}

fn size_of(due: &Written) -> Answer {
    match due {
        Ok(words) => Ok(words.len()),
        Err(refusal) => Err(*refusal),
    }
}

// What is handed in, as bytes, with three blank bytes behind each list.
#[derive(Drop)]
struct Lent {
    batch: Vec<u8>,
    grants: Vec<u8>,
    state: Vec<u8>,
}

impl Lent {
    fn new(alloc: Global, lists: Lists) -> Result<Lent, AllocError> {
        Ok(Lent {
            batch: bytes_of(alloc, lists.batch, 3)?,
            grants: bytes_of(alloc, lists.grants, 3)?,
            state: bytes_of(alloc, lists.state, 3)?,
        })
    }
}

// The words of a list, and none to three of the blank bytes behind them, which must count for nothing.
fn part(list: &[u8], blanks: usize) -> &[u8] {
    let end = list.len().saturating_sub(3 - blanks % 4);
    list.get(..end).unwrap_or(list)
}

#[derive(Drop)]
pub(crate) struct Beside {
    pub alloc: Global,
    pub tally: Tally,
}

impl Beside {
    pub(crate) fn new(alloc: Global) -> Beside {
        Beside {
            alloc,
            tally: Tally::new(alloc),
        }
    }

    // The batch, read at once, and fed to two engines, one of them nearly full: how nearly, the second word and the size of
    // the state tell. Answers what the second reader does.
    pub(crate) fn read(&mut self, lists: Lists, second_word: u32) -> Result<Left, AllocError> {
        let left = reading::read(self.alloc, lists)?;
        let lent = Lent::new(self.alloc, lists)?;
        let told = left.map(|_| lists.batch.len());
        self.read_at_once(lists, &lent, &left, told)?;
        self.feed(lists, &lent, &left, Due { told, taken: 0 })?;
        let size = lists.state.len() % 1024 * 4 + lists.batch.len() % 4;
        let seed = Seed(second_word).throw(size as u32);
        self.feed(lists, &lent, &left, Due::nearly_full(told, seed))?;
        Ok(left)
    }

    fn read_at_once(
        &mut self,
        lists: Lists,
        lent: &Lent,
        left: &Left,
        told: Answer,
    ) -> Result<(), AllocError> {
        let blanks = lists.batch.len() % 4;
        let mut buffer = bytes_of(self.alloc, lists.state, blanks)?;
        let first = calls::read(
            part(&lent.batch, blanks),
            part(&lent.grants, blanks),
            &mut buffer,
        );
        let same = match left {
            Ok(cells) => buffer == bytes_of(self.alloc, &cells.words(), blanks)?,
            Err(_) => buffer.as_slice() == part(&lent.state, blanks),
        };
        self.tally.compare(Call::Read, first, told, same)
    }

    // Opens an engine with the state and the grants, and feeds it the batch.
    fn feed(&mut self, lists: Lists, lent: &Lent, left: &Left, due: Due) -> Result<(), AllocError> {
        let blanks = lists.batch.len();
        let mut engine = Feeding::open(part(&lent.state, blanks), part(&lent.grants, blanks));
        let opened = Due {
            told: due.told,
            taken: 0,
        };
        self.tally
            .compare(Call::Feed, engine.answer(), opened.after(0), true)?;
        engine.pretend(due.taken);
        for (fed, word) in (1..).zip(lists.batch) {
            engine.feed(*word);
            self.tally
                .compare(Call::Feed, engine.answer(), due.after(fed), true)?;
        }
        let (answer, state) = engine.close();
        let closing = due.closing(lists.batch.len());
        let same = is_handed_back(&state, closing, left, lists.state);
        self.tally.compare(Call::Close, answer, closing, same)
    }

    // The size, and the state written: in as much room as it tells, in one byte less and in one word more. Where the size
    // is refused for a cell, the room is around that cell's number; where no byte less is left, there is much room.
    pub(crate) fn write_around(&mut self, state: &[u32], grants: &[u32]) -> Result<(), AllocError> {
        let due = writing::write(self.alloc, state, grants)?;
        let lists = Lists {
            batch: &[],
            grants,
            state,
        };
        let lent = Lent::new(self.alloc, lists)?;
        self.size(&lent, grants.len(), &due)?;
        let told = match &due {
            Ok(words) => words.len(),
            Err(refusal) => refusal.place,
        };
        let room = told % 0x10000 * 4;
        self.write(&lent, &due, room)?;
        self.write(&lent, &due, room.checked_sub(1).unwrap_or(MUCH_ROOM))?;
        self.write(&lent, &due, room + 4)
    }

    fn size(&mut self, lent: &Lent, blanks: usize, due: &Written) -> Result<(), AllocError> {
        let first = calls::size(part(&lent.state, blanks), part(&lent.grants, blanks));
        self.tally.compare(Call::Write, first, size_of(due), true)
    }

    // The state written, into a buffer of so many bytes.
    fn write(&mut self, lent: &Lent, due: &Written, room: usize) -> Result<(), AllocError> {
        let mut buffer = vec![in self.alloc; BLANK; room]?;
        let first = calls::write(
            part(&lent.state, room),
            part(&lent.grants, room),
            &mut buffer,
        );
        let due = in_room(due, room);
        let words = due.unwrap_or(&[]);
        let blanks = room.saturating_sub(words.len().saturating_mul(4));
        let written = bytes_of(self.alloc, words, blanks)?;
        let told = due.map(|words| words.len());
        self.tally
            .compare(Call::Write, first, told, buffer == written)
    }
}

// Whether closing with that answer hands back the state that it has to: what the batch leaves; the empty state of an engine
// that was not opened; else what was handed in.
fn is_handed_back(state: &StateWords, closing: Answer, left: &Left, handed_in: &[u32]) -> bool {
    match (closing, left) {
        (Ok(_), Ok(cells)) => *state == cells.words(),
        (Ok(_), Err(_)) => false,
        (Err(refusal), _) if refusal.reason.is_at_opening() => *state == Cells::EMPTY.words(),
        (Err(_), _) => state.as_slice() == handed_in,
    }
}
