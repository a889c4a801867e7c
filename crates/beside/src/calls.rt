// The only place that calls what is tested, the first ones. What they answer becomes an answer of our own here.
use crate::answer::{Answer, Reason};
use crate::second::held::StateWords;
use engine::Engine;

fn answer(reason: u32, place: usize) -> Answer {
    match reason {
        0 => Ok(place),
        _ => Err(Reason::from(reason).at(place)),
    }
}

fn told(told: meaning::Answer) -> Answer {
    told.map_err(|refusal| Reason::from(refusal.reason as u32).at(refusal.place))
}

pub(crate) fn read(batch: &[u8], grants: &[u8], state: &mut [u8]) -> Answer {
    told(reader::read(batch, grants, state))
}

pub(crate) fn size(state: &[u8], grants: &[u8]) -> Answer {
    told(writer::size(state, grants))
}

pub(crate) fn write(state: &[u8], grants: &[u8], out: &mut [u8]) -> Answer {
    told(writer::write(state, grants, out))
}

// An engine that is fed a batch.
#[derive(Clone, Copy)]
pub(crate) struct Feeding(Engine);

impl Feeding {
    pub(crate) fn open(state: &[u8], grants: &[u8]) -> Feeding {
        Feeding(engine::open(state, grants))
    }

    // The engine is told that it has taken so many words already, since so many cannot be fed.
    pub(crate) fn pretend(&mut self, taken: u32) {
        self.0.place = taken;
    }

    pub(crate) fn feed(&mut self, word: u32) {
        self.0 = engine::feed(self.0, word);
    }

    // The answer that stands.
    pub(crate) fn answer(&self) -> Answer {
        answer(self.0.reason, self.0.place as usize)
    }

    // The answer at closing, and the state that is handed back.
    pub(crate) fn close(self) -> (Answer, StateWords) {
        let closed = engine::close(self.0);
        let state = closed.state;
        (answer(closed.reason, closed.place), state)
    }
}
