// The two readers side by side: each text is read by both, out of buffers with the same old words.
use super::answer::{Answer, Refusal};
use super::calls;
use super::dice::Dice;
use super::second::{Registers, Stopped};
use super::state::{STATE_WORDS, some_old_words};
use super::tally::{Counted, Stop, Tally};
use std::alloc::Global;
use std::io;

#[derive(Drop)]
pub(super) struct Readers {
    pub(super) alloc: Global,
    // The second reader's table.
    pub(super) registers: Registers,
    // What a buffer holds before a call.
    pub(super) old: Vec<u8>,
    pub(super) tally: Tally,
}

// What the first reader told, and the buffer as it left it.
#[derive(Drop)]
pub(super) struct Read {
    pub(super) told: Answer,
    pub(super) left: Vec<u8>,
}

// The first bytes of the buffer, or all where they are fewer.
fn lent(buffer: &mut [u8], bytes: usize) -> &mut [u8] {
    let n = bytes.min(buffer.len());
    &mut buffer[..n]
}

impl Readers {
    pub(super) fn new(rt: HostRuntime) -> io::Result<Readers> {
        let alloc = rt.alloc();
        Ok(Readers {
            alloc,
            registers: Registers::new(alloc),
            old: some_old_words(alloc, Dice(1))?,
            tally: Tally::new(rt),
        })
    }

    // The second reader's answer, with where it stopped counted.
    fn read_second(&mut self, text: &[u8], buffer: &mut [u8]) -> io::Result<Answer> {
        let stopped = match self.registers.read(text, buffer) {
            Ok(place) => return Ok(Ok(place)),
            Err(stopped) => stopped,
        };
        if let Stopped::NotAListing { place, part } = stopped {
            let stop = if place < text.len() {
                Stop::AnotherByte
            } else {
                Stop::CutShort
            };
            self.tally.count(Counted::Stopped(part, stop))?;
        }
        Ok(Err(Refusal::from(stopped)))
    }

    // The first reader beside the second, each lent so many bytes. They have to agree, in every byte too, and a refusal
    // has changed none.
    pub(super) fn check_lent(&mut self, text: &[u8], bytes: usize) -> io::Result<Read> {
        let mut left = self.old.clone()?;
        let mut right = self.old.clone()?;
        let told = calls::read(text, lent(&mut left, bytes));
        self.tally.count_call(&told)?;
        let expected = self.read_second(text, lent(&mut right, bytes))?;
        let kept = told.is_ok() || left == self.old;
        if !kept || told != expected || left != right {
            self.tally.note_difference(told, expected)?;
        }
        Ok(Read { told, left })
    }

    // A state's bytes are lent, and none to three more, which must stay.
    pub(super) fn check(&mut self, text: &[u8]) -> io::Result<Read> {
        self.check_lent(text, 4 * STATE_WORDS + text.len() % 4)
    }

    pub(super) fn check_stated(&mut self, text: &[u8], stated: Answer) -> io::Result<Read> {
        let read = self.check(text)?;
        if read.told != stated {
            self.tally.note_difference(read.told, stated)?;
        }
        Ok(read)
    }
}
