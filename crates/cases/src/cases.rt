// Runs the page, line by line.

use super::answers::Expected;
use super::calls::Lists;
use super::checks::{Checker, WIDE};
use super::lists::List;
use super::page::{Cut, Kind, Lengths, Line, Pool, Sweep, listing_in};
use super::pairs;
use super::state::State;
use super::tally::Tally;
use std::alloc::Global;
use std::io;

// Of the pool, only so many packets stand in front of cases.
const FRONT: u32 = 16;

// The most packets in front of a case: the pool's, twice over.
const MOST_FRONT: u32 = 32;

#[derive(Drop)]
pub(super) struct Run {
    alloc: Global,
    checker: Checker,
    pool: Pool,
}

impl Run {
    pub(super) fn new(alloc: Global, rt: HostRuntime) -> Run {
        Run {
            alloc,
            checker: Checker::new(alloc, Tally::new(alloc, rt)),
            pool: Pool::new(),
        }
    }

    // What stands behind the last line end is no line, but can be a listing's last.
    pub(super) fn page(&mut self, page: &[u8]) -> io::Result<()> {
        // Kept: one line for all, since to hand one over takes longer than to read it.
        let mut cases = Line::new();
        let mut end = 0usize;
        for line in page.split_inclusive(|byte| *byte == b'\n') {
            end = end.wrapping_add(line.len());
            if let [text @ .., b'\n'] = line {
                self.checker.tally.begin_line();
                self.line(text, page.get(end..).unwrap_or(&[]), &mut cases)?;
            }
        }
        Ok(())
    }

    pub(super) fn tell_all(&self) -> io::Result<()> {
        self.checker.tally.tell_all()
    }

    // A line, and those below it.
    fn line(&mut self, text: &[u8], below: &[u8], cases: &mut Line) -> io::Result<()> {
        let Some(first) = text.first().copied() else {
            return Ok(());
        };
        if first == b'=' {
            let name = Vec::from_slice(self.alloc, text.get(2..).unwrap_or(&[]))?;
            return self.checker.tally.begin_family(name);
        }
        match Kind::of(first) {
            Some(kind) => {
                cases.read(text, &mut self.pool);
                self.cases(kind, cases, below)
            }
            None => Ok(()),
        }
    }

    // A line with cases of that kind.
    fn cases(&mut self, kind: Kind, line: &mut Line, below: &[u8]) -> io::Result<()> {
        match kind {
            Kind::Written => self.written(line),
            Kind::Entered => self.entered(line, &line.entry),
            Kind::Sweep => self.sweep(line),
            Kind::Packet => {
                self.pool.add(&line.batch);
                Ok(())
            }
            Kind::Lengths => self.lengths(line),
            Kind::Pairs => {
                let [cases] = line.first::<1>();
                pairs::go_through(self.alloc, &mut self.checker, cases)
            }
            Kind::Listing => self.listing(line, listing_in(below)),
        }
    }

    fn written(&mut self, line: &Line) -> io::Result<()> {
        self.case_alone(line, &line.entry)?;
        self.entered(line, &line.entry.filled())
    }

    // The case on that state, alone and behind fronts.
    fn entered(&mut self, line: &Line, state: &State) -> io::Result<()> {
        self.case_alone(line, state)?;
        for packets in 1..=MOST_FRONT {
            self.checker.tally.begin_case(packets);
            let mut batch = List::new();
            self.push_front(packets, &mut batch);
            let stated = line.stated_behind(batch.len());
            batch.push_all(&line.batch);
            let lists = Lists {
                batch: &batch,
                grants: &line.grants,
                state,
            };
            self.checker.check_read(lists, Expected::Just(stated))?;
        }
        Ok(())
    }

    fn case_alone(&mut self, line: &Line, state: &State) -> io::Result<()> {
        let lists = Lists {
            batch: &line.batch,
            grants: &line.grants,
            state,
        };
        let mut due = *state;
        due.store_all(&line.listed);
        self.checker
            .check_stored(lists, line.stated_behind(0), &due)
    }

    // Whole packets of the pool, that any grants permit.
    fn push_front(&self, packets: u32, batch: &mut List) {
        for packet in 0..packets {
            self.pool.push_packet((packet % FRONT) as usize, batch);
        }
    }

    // Every code of the field, under as many sub-types as the line says.
    fn sweep(&mut self, line: &mut Line) -> io::Result<()> {
        let sweep = Sweep::on(line);
        for _ in 0..sweep.times {
            self.sweep_codes(&sweep, line)?;
            let setting = line.batch.get(1);
            line.batch.put(1, setting.wrapping_add(0x01000000));
        }
        Ok(())
    }

    // Kept: the line's own batch takes the codes, since a copy for each takes longer than to read it.
    fn sweep_codes(&mut self, sweep: &Sweep, line: &mut Line) -> io::Result<()> {
        let word = line.batch.get(sweep.at);
        for code in 0..sweep.codes {
            self.checker.tally.begin_case(code);
            line.batch.put(sweep.at, sweep.change.of(word, code));
            let lists = Lists {
                batch: &line.batch,
                grants: &line.grants,
                state: &line.entry,
            };
            self.checker
                .check_read(lists, sweep.expected(code, &line.listed))?;
        }
        line.batch.put(sweep.at, word);
        Ok(())
    }

    fn lengths(&mut self, line: &mut Line) -> io::Result<()> {
        let lengths = Lengths::on(line);
        for length in 0..lengths.most {
            self.checker.tally.begin_case(length);
            match lengths.cut {
                Cut::State => line.entry.cut(length),
                Cut::Grants => line.grants.cut(length),
                Cut::Batch => line.batch.cut(length),
                Cut::PoolWords => self.pool.words.cut(length),
                Cut::PoolStarts => self.pool.starts.cut(length),
                Cut::Other => {}
            }
            let lists = Lists {
                batch: &line.batch,
                grants: &line.grants,
                state: &line.entry,
            };
            self.checker
                .check_read(lists, Expected::Just(lengths.answer(length)))?;
        }
        Ok(())
    }

    // The state with the line's cells is listed as that text; and the two listers agree in every room.
    fn listing(&mut self, line: &Line, text: &[u8]) -> io::Result<()> {
        let mut state = line.entry;
        state.store_all(&line.listed);
        self.checker.check_text(state.list(), text)?;
        for room in 0..=WIDE {
            self.checker.check_list(state.list(), room)?;
        }
        Ok(())
    }
}
