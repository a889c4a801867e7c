// What is counted: calls of the family at work, differences, with the first few of them, calls by reason, and made-up
// values by row and reason.
use crate::answer::{Answer, Reason, number};
use crate::second::cell::Cell;
use std::alloc::{AllocError, Global};
use std::{fmt, io};

// What is asked, in the order of the columns of the reasons' table. The size is counted with the writes.
#[derive(Clone, Copy)]
pub(crate) enum Call {
    Read,
    Write,
    Feed,
    Close,
}

// A line of a table: what is counted in each of its columns.
#[derive(Clone, Copy)]
struct Line([u64; 4]);

impl Line {
    const EMPTY: Line = Line([0; 4]);

    fn count(&mut self, column: usize) {
        if let Some(counted) = self.0.get_mut(column) {
            *counted = counted.saturating_add(1);
        }
    }
}

impl fmt::Display for Line {
    fn fmt<W: fmt::Write>(&self, f: &mut fmt::Formatter<W>) -> fmt::Result {
        for counted in self.0 {
            write!(f, " {counted}")?;
        }
        Ok(())
    }
}

// Two answers that differ, or that left different buffers.
#[derive(Clone, Copy)]
struct Difference {
    call: u64,
    first: Answer,
    second: Answer,
}

impl fmt::Display for Difference {
    fn fmt<W: fmt::Write>(&self, f: &mut fmt::Formatter<W>) -> fmt::Result {
        let call = self.call;
        let first = number(self.first);
        let second = number(self.second);
        write!(
            f,
            "difference, in the family below: call={call} first={first} second={second}"
        )
    }
}

// So many of the differences are told one by one.
const TOLD: u64 = 5;

#[derive(Drop)]
pub(crate) struct Tally {
    calls: u64,
    feeds: u64,
    differences: u64,
    // Those that have still to be told.
    noted: Vec<Difference>,
    accepted: Line,
    refused: [Line; 14],
    values: [Line; 25],
}

impl Tally {
    pub(crate) fn new(alloc: Global) -> Tally {
        Tally {
            calls: 0,
            feeds: 0,
            differences: 0,
            noted: Vec::new(alloc),
            accepted: Line::EMPTY,
            refused: [Line::EMPTY; 14],
            values: [Line::EMPTY; 25],
        }
    }

    // Counts an answer of the first one beside what the second says. They agree if the buffers are the same too.
    pub(crate) fn compare(
        &mut self,
        call: Call,
        first: Answer,
        second: Answer,
        same_buffers: bool,
    ) -> Result<(), AllocError> {
        match call {
            Call::Read | Call::Write => self.calls = self.calls.saturating_add(1),
            Call::Feed | Call::Close => self.feeds = self.feeds.saturating_add(1),
        }
        self.count_answer(call, first);
        if first == second && same_buffers {
            return Ok(());
        }
        self.note(first, second)
    }

    fn count_answer(&mut self, call: Call, answer: Answer) {
        let column = call as usize;
        let Err(refusal) = answer else {
            self.accepted.count(column);
            return;
        };
        if let Some(line) = self.refused.get_mut(line_of(refusal.reason)) {
            line.count(column);
        }
    }

    fn note(&mut self, first: Answer, second: Answer) -> Result<(), AllocError> {
        self.differences = self.differences.saturating_add(1);
        if self.differences <= TOLD {
            let call = self.calls;
            self.noted.push(Difference {
                call,
                first,
                second,
            })?;
        }
        Ok(())
    }

    // Counts a made-up value for a cell: as taken, or by reason 7, 8 or 9.
    pub(crate) fn count_value(&mut self, cell: Cell, judged: Result<(), Reason>) {
        let column = match judged {
            Err(Reason::NotClear) => 1,
            Err(Reason::BadValue) => 2,
            Err(Reason::NotGranted) => 3,
            _ => 0,
        };
        if let Some(line) = self.values.get_mut(row_of(cell.number())) {
            line.count(column);
        }
    }

    // Ends a family: its lines, and its counts from 0 again.
    pub(crate) fn end_family(&mut self, rt: &impl Print, name: &str) -> io::Result<()> {
        for difference in &self.noted {
            println!(rt; "{difference}")?;
        }
        self.noted.clear();
        let calls = self.calls;
        let feeds = self.feeds;
        let differences = self.differences;
        self.calls = 0;
        self.feeds = 0;
        println!(rt;
            "family={name} calls={calls} openings, words and closings={feeds} differences so far={differences}"
        )
    }

    pub(crate) fn tell(&self, rt: &impl Print) -> io::Result<()> {
        rt.println(
            "reasons 0 to 12, 14 and 23, a line each: reads, writes with sizes, openings and words fed, closings",
        )?;
        rt.println(self.accepted)?;
        tell_lines(rt, &self.refused)?;
        rt.println("rows of the table, a line each: made-up values taken, refused by 7, 8, 9")?;
        tell_lines(rt, &self.values)?;
        match self.differences {
            0 => rt.println("all as expected"),
            differences => println!(rt; "NOT as expected: differences={differences}"),
        }
    }
}

fn tell_lines(rt: &impl Print, lines: &[Line]) -> io::Result<()> {
    for line in lines {
        rt.println(*line)?;
    }
    Ok(())
}

// The line of a reason among the refusals: behind 12 stand 14 and 23. Past them there is none.
fn line_of(reason: Reason) -> usize {
    match reason {
        Reason::BadPair => 12,
        Reason::Full => 13,
        _ => (reason as usize).wrapping_sub(1),
    }
}

// The row of a cell's values: four for 01.00, one for all stages, three for all samples, and one for each video register.
fn row_of(cell: usize) -> usize {
    match cell {
        0..=3 => cell,
        4..=35 => 4,
        36..=83 => cell % 3 + 5,
        _ => cell.saturating_sub(76),
    }
}
