// A made-up state and its listing, and texts out of the listing's lines.
ghost use Rattle.std.specs.Prelude.{◌≤◌};

use super::calls;
use super::dice::Dice;
use super::state::State;
use std::alloc::{AllocError, Global};
use std::io;
use std::io::Write;
use std::ops::Range;

#[derive(Drop)]
pub(super) struct Listing {
    pub(super) cells: usize,
    pub(super) state: State,
    pub(super) text: Vec<u8>,
    ghost few: { cells ≤ 101 },
}

impl Listing {
    // The listing of a state with so many marked cells.
    pub(super) fn made_up(alloc: Global, cells: usize, dice: Dice) -> Result<Listing, AllocError>
        requires { cells ≤ 101 }
    {
        let state = State::made_up(cells, dice);
        let mut words = [0; calls::STATE_BYTES];
        state.lay(&mut words);
        let text = calls::list(alloc, &words)?;
        Ok(Listing { cells, state, text })
    }

    // Adds those of the listing's lines to a text; its head is line 0.
    fn push_lines(&self, lines: &Range<usize>, text: &mut Vec<u8>) -> Result<(), AllocError> {
        let all = self.text.split_inclusive(|byte| *byte == b'\n');
        for line in all.take(lines.end).skip(lines.start) {
            text.extend_from_slice(line)?;
        }
        Ok(())
    }

    // A text of a head with that count, in at least so many digits, and of those of the listing's lines.
    pub(super) fn text_of(
        &self,
        count: usize,
        digits: usize,
        parts: &[Range<usize>],
    ) -> io::Result<Vec<u8>> {
        let mut text = Vec::new(*self.text.allocator());
        writeln!(text, "cells={count:0digits$}")?;
        for lines in parts {
            self.push_lines(lines, &mut text)?;
        }
        Ok(text)
    }
}
