// The only place that calls what is tested. A call is lent a list's words, and none to three bytes more; how many goes
// by the lengths of all the lists.

use super::answers::{Answer, answer_of};
use super::lists::List;
use super::state::State;
use std::alloc::Global;
use std::io;

// What fills a room that a listing is to be written to.
const FILLER: u8 = 0xa5;

// What a reader's call is lent.
#[derive(Clone, Copy)]
pub(super) struct Lists<'a> {
    pub(super) batch: &'a List,
    pub(super) grants: &'a List,
    pub(super) state: &'a State,
}

impl Lists<'_> {
    // How many words these are.
    fn count(&self) -> usize {
        [self.batch, self.grants, self.state.list()]
            .iter()
            .map(|list| list.len() as usize)
            .fold(0, usize::wrapping_add)
    }
}

// What a call of the lister told, and what the room then held.
#[derive(Drop)]
pub(super) struct Listed {
    pub(super) told: Answer,
    room: Vec<u8>,
}

impl Listed {
    // The text stands in front of the room, and behind it all is as it was.
    pub(super) fn holds(&self, text: &[u8]) -> bool {
        // Kept: a fold over all that is behind, which is several times as quick as to stop at the first that is not.
        self.room.split_at_checked(text.len()).is_some_and(|(front, behind)| front == text
            && behind.iter().fold(0, |apart, byte| apart | byte ^ FILLER) == 0)
    }
}

// An answer of the library as our own.
fn told(answer: meaning::Answer) -> io::Result<Answer> {
    let told = match answer {
        Ok(place) => answer_of(0, place)?,
        Err(refusal) => answer_of(refusal.reason as u32, refusal.place)?,
    };
    Ok(told)
}

// Reads the batch into a copy of the state.
pub(super) fn read(lists: Lists<'_>, copy: &mut State) -> io::Result<Answer> {
    let more = lists.count();
    *copy = *lists.state;
    told(reader::read(
        lists.batch.lent(more),
        lists.grants.lent(more),
        copy.lent_mut(more),
    ))
}

// Lists the state into a room of so many bytes.
pub(super) fn list(alloc: Global, state: &List, room: usize) -> io::Result<Listed> {
    let more = room;
    let mut room = vec![in alloc; FILLER; room]?;
    let told = told(lister::list(state.lent(more), &mut room))?;
    Ok(Listed { told, room })
}
