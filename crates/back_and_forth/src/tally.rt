// What is counted and told: calls of the family at work, differences with a line for each of the first, calls by reason,
// and where the second reader stopped in a text that is no listing.
use super::answer::{Answer, Reason, Told};
use super::second::{PARTS, Part};
use std::alloc::AllocError;
use std::collections::BTreeMap;
use std::io;
use std::io::Write;

// How a text stops being a listing: it ends, or goes on with a byte that begins none.
#[derive(Clone, Copy, PartialEq, Eq, PartialOrd, Ord)]
pub(super) enum Stop {
    CutShort,
    AnotherByte,
}

// What is counted over all families: calls by their answer, and texts by where and how they stop.
#[derive(Clone, Copy, PartialEq, Eq, PartialOrd, Ord)]
pub(super) enum Counted {
    Success,
    Refused(Reason),
    Stopped(Part, Stop),
}

// What the page can ask for: what is counted over all families, the calls since the last family's line, the differences
// so far, and by any other number nothing.
#[derive(Clone, Copy)]
enum Asked {
    Counted(Counted),
    Calls,
    Differences,
    Nothing,
}

// The page's numbers: reasons from 0 on; from 32 on two for each part of a text; 60 and 61.
impl From<usize> for Asked {
    fn from(number: usize) -> Asked {
        match number {
            0 => Asked::Counted(Counted::Success),
            1..=31 => Asked::Counted(Counted::Refused(Reason::from(number as u32))),
            60 => Asked::Calls,
            61 => Asked::Differences,
            _ => {
                let line = number - 32;
                let stop = if line % 2 == 0 {
                    Stop::CutShort
                } else {
                    Stop::AnotherByte
                };
                PARTS.get(line / 2).map_or(Asked::Nothing, |part| {
                    Asked::Counted(Counted::Stopped(*part, stop))
                })
            }
        }
    }
}

// The bytes of a title that are printed; behind a longer one comes its length, in at most four bytes.
const MOST_TITLE: usize = 3068;

#[derive(Drop)]
pub(super) struct Tally {
    rt: HostRuntime,
    counts: BTreeMap<Counted, u32>,
    calls: u32,
    differences: u32,
}

impl Tally {
    pub(super) fn new(rt: HostRuntime) -> Tally {
        Tally {
            rt,
            counts: BTreeMap::new(rt.alloc()),
            calls: 0,
            differences: 0,
        }
    }

    pub(super) fn count(&mut self, what: Counted) -> Result<(), AllocError> {
        let counted = self.counts.entry(what)?.or_insert(0);
        *counted = counted.wrapping_add(1);
        Ok(())
    }

    pub(super) fn count_call(&mut self, told: &Answer) -> Result<(), AllocError> {
        self.calls = self.calls.wrapping_add(1);
        match told {
            Ok(_) => self.count(Counted::Success),
            Err(refusal) => self.count(Counted::Refused(refusal.reason)),
        }
    }

    // The first five differences are told: in the family whose line comes next, the call, and the two answers.
    pub(super) fn note_difference(&mut self, first: Answer, expected: Answer) -> io::Result<()> {
        self.differences = self.differences.wrapping_add(1);
        if self.differences > 5 {
            return Ok(());
        }
        let calls = self.calls;
        let first = Told(first);
        let expected = Told(expected);
        println!(self.rt; "difference: call={calls} first={first} expected={expected}")
    }

    fn print_title(&self, title: &[u8]) -> io::Result<()> {
        let printed = title.len().min(MOST_TITLE);
        let more = (title.len() - printed).min(4);
        let mut out = self.rt.stdout();
        out.write_all(&title[..printed])?;
        out.write_all(&title.len().to_le_bytes()[..more])
    }

    pub(super) fn end_family(&mut self, title: &[u8]) -> io::Result<()> {
        self.print_title(title)?;
        let calls = self.calls;
        let differences = self.differences;
        self.calls = 0;
        println!(self.rt; " calls={calls} differences so far={differences}")
    }

    fn asked(&self, asked: Asked) -> u32 {
        match asked {
            Asked::Counted(what) => self.counts.get(&what).copied().unwrap_or(0),
            Asked::Calls => self.calls,
            Asked::Differences => self.differences,
            Asked::Nothing => 0,
        }
    }

    // So many counts from the first on, under the title.
    pub(super) fn tell_counts(&self, first: usize, n: usize, title: &[u8]) -> io::Result<()> {
        self.print_title(title)?;
        for number in (first..usize::MAX).take(n) {
            print!(self.rt; " {}", self.asked(Asked::from(number)))?;
        }
        println!(self.rt; "")
    }

    pub(super) fn tell_end(&self) -> io::Result<()> {
        match self.differences {
            0 => println!(self.rt; "all as expected"),
            n => println!(self.rt; "NOT as expected: differences={n}"),
        }
    }
}
