// Makes the calls, looks whether all that they answer and leave is as expected, and counts them.

use super::answers::{Answer, Expected, Numbers};
use super::calls::{Listed, Lists};
use super::lists::List;
use super::state::{STATE_WORDS, State};
use super::tally::Tally;
use super::{calls, listing};
use std::alloc::Global;
use std::io;

// More bytes than any listing has.
pub(super) const WIDE: usize = 2700;

#[derive(Drop)]
pub(super) struct Checker {
    pub(super) tally: Tally,
    alloc: Global,
    // What the last read left of the state, with all its room. Kept: one for all reads, since to hand one back takes longer than to read.
    left: State,
}

impl Checker {
    pub(super) fn new(alloc: Global, tally: Tally) -> Checker {
        Checker {
            tally,
            alloc,
            left: State::empty(),
        }
    }

    // The first lister beside the second.
    pub(super) fn check_list(&mut self, state: &List, room: usize) -> io::Result<Listed> {
        let listed = calls::list(self.alloc, state, room)?;
        let (due, text) = listing::list(self.alloc, state, room)?;
        let fine = listed.holds(text.as_bytes());
        let due = Expected::Just(Numbers::from(due));
        self.tally.note(listed.told, due, fine)?;
        Ok(listed)
    }

    // The state is listed as that text.
    pub(super) fn check_text(&mut self, state: &List, text: &[u8]) -> io::Result<()> {
        let listed = self.check_list(state, WIDE)?;
        let stated = Expected::Just(Numbers::from(Ok(text.len())));
        self.tally.note(listed.told, stated, listed.holds(text))
    }

    // The state that the last read left, listed: in room enough, in just enough, in one byte less, and with a word changed.
    fn check_lists(&mut self) -> io::Result<()> {
        let mut state = self.left;
        let length = self.check_list(state.list(), WIDE)?.told.unwrap_or(0);
        self.check_list(state.list(), length)?;
        self.check_list(state.list(), length.saturating_sub(1))?;
        let changed = self.tally.calls() % STATE_WORDS;
        state.put(changed as usize, 256);
        self.check_list(state.list(), WIDE)?;
        Ok(())
    }

    // Counts a read; the state that an accepted batch left is listed.
    fn note_read(&mut self, told: Answer, expected: Expected, fine: bool) -> io::Result<()> {
        self.tally.note(told, expected, fine)?;
        if told.is_ok() {
            self.check_lists()?;
        }
        Ok(())
    }

    // The reader's answer is as expected, and a refusal leaves the state.
    pub(super) fn check_read(&mut self, lists: Lists<'_>, expected: Expected) -> io::Result<()> {
        let told = calls::read(lists, &mut self.left)?;
        let fine = told.is_ok() || self.left == *lists.state;
        self.note_read(told, expected, fine)
    }

    // The reader's answer is the stated one, and it leaves that state.
    pub(super) fn check_stored(
        &mut self,
        lists: Lists<'_>,
        stated: Numbers,
        due: &State,
    ) -> io::Result<()> {
        let told = calls::read(lists, &mut self.left)?;
        let fine = self.left == *due;
        self.note_read(told, Expected::Just(stated), fine)
    }
}
