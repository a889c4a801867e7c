// What an engine has to answer: what the second reader answers on the whole batch tells what every word and the closing
// have to be answered, and what is handed back. It is written from the rules and shares nothing with the engine.
use crate::answer::{Answer, Reason, Refusal};
use crate::dice::Seed;

// The most words that are taken.
const MOST: u32 = 0xffffffff;

#[derive(Clone, Copy)]
pub(crate) struct Due {
    // What the reader answers on the whole batch.
    pub told: Answer,
    // How many words the engine has taken before.
    pub taken: u32,
}

impl Due {
    // An engine that is nearly full has taken all but fewer than 32 of the most, and none if it was not opened.
    pub(crate) fn nearly_full(told: Answer, seed: Seed) -> Due {
        let taken = match told {
            Err(refusal) if refusal.reason.is_at_opening() => 0,
            _ => MOST - seed.0 % 32,
        };
        Due { told, taken }
    }

    fn place(&self, fed: usize) -> usize {
        (self.taken as usize).saturating_add(fed)
    }

    // After so many words: the refusal at opening; that of a word among them, if there was room for that word; where there
    // is no room for them all, 23.
    pub(crate) fn after(&self, fed: usize) -> Answer {
        let room = (MOST - self.taken) as usize;
        match self.told {
            Err(refusal) if refusal.reason.is_at_opening() => Err(refusal),
            Err(Refusal { reason, place }) if reason.is_of_word() && place < fed.min(room) => {
                Err(reason.at(self.place(place)))
            }
            _ if fed <= room => Ok(self.place(fed)),
            _ => Err(Reason::Full.at(MOST as usize)),
        }
    }

    // At closing, when the whole batch of so many words has been fed.
    pub(crate) fn closing(&self, fed: usize) -> Answer {
        let place = self.after(fed)?;
        match self.told {
            Ok(_) => Ok(place),
            Err(refusal) => Err(refusal.reason.at(place)),
        }
    }
}
