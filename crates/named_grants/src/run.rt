// The run: what calls are lent at the moment, and the calls, of the first query and of the second beside it.
use super::address_registers::LOCATION;
use super::answer::{Answer, Refusal};
use super::calls;
use super::lent::{CELLS, Case, Content, state_bytes};
use super::second::Terms;
use super::tally::Tally;
use std::io;

#[derive(Drop)]
pub(super) struct Run<R> {
    pub(super) rt: R,
    pub(super) case: Case,
    // What stands in cell 2 of the states that are empty but for it and a cell.
    pub(super) location: Content,
    pub(super) tally: Tally,
}

impl<R: Print + AllocGlobal> Run<R> {
    pub(super) fn new(rt: R) -> Run<R> {
        let alloc = rt.alloc();
        Run {
            rt,
            case: Case {
                state: Vec::new(alloc),
                grants: Vec::new(alloc),
            },
            location: Content::default(),
            tally: Tally::default(),
        }
    }

    // Holds an answer to the one that it has to be.
    pub(super) fn hold(&mut self, first: Answer, expected: Answer) -> io::Result<()> {
        self.tally.hold(&self.rt, first, expected)
    }

    // The first query beside the second.
    pub(super) fn check(&mut self, cell: usize) -> io::Result<Answer> {
        let first = calls::which_grant(&self.case, cell);
        let terms = Terms::of(&self.case);
        let second = terms.map(|terms| terms.which_grant(cell));
        self.tally.note(first, terms, cell);
        self.hold(first, Answer(second.map_err(Refusal::from)))?;
        Ok(first)
    }

    // The query of a cell, in a state that is empty but for it and the location.
    pub(super) fn ask(&mut self, cell: usize, content: Content) -> io::Result<Answer> {
        let mut cells = [Content::default(); CELLS];
        cells[LOCATION] = self.location;
        if let Some(place) = cells.get_mut(cell) {
            *place = content;
        }
        self.case.state = state_bytes(self.rt.alloc(), &cells)?;
        self.check(cell)
    }
}
