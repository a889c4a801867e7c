// What is counted and told: calls of the family at work by their answers, differences, and over the whole run how often
// each grant was told.
use super::answer::{Answer, Reason};
use super::grant::MOST_GRANTS;
use super::second::{Lack, Terms};
use std::{fmt, io, mem};

// How many differences are told.
const MOST_TOLD: u32 = 5;

// Kept: the page names the counts of the whole run by numbers, the differences, and from there on how often each grant was
// told.
const DIFFERENCES: usize = 0;

const BY_GRANT: usize = 100;

fn add(count: &mut u32) {
    *count = count.wrapping_add(1);
}

// Of a family: calls, those answered 1, those answered 2, those that tell a grant, and of these the ones where another
// grant admits the address too; then those that tell none, since no grant admits the address, or there is none.
#[derive(Default, Drop)]
struct Counts {
    calls: u32,
    bad_state: u32,
    bad_grants: u32,
    told: u32,
    another_too: u32,
    not_admitted: u32,
    no_cell: u32,
    not_marked: u32,
    no_address: u32,
}

impl fmt::Display for Counts {
    fn fmt<W: fmt::Write>(&self, f: &mut fmt::Formatter<W>) -> fmt::Result {
        let Counts {
            calls,
            bad_state,
            bad_grants,
            told,
            another_too,
            not_admitted,
            no_cell,
            not_marked,
            no_address,
        } = *self;
        write!(f, "{calls} {bad_state} {bad_grants} {told} {another_too}")?;
        write!(f, " {not_admitted} {no_cell} {not_marked} {no_address}")
    }
}

#[derive(Default, Drop)]
pub(super) struct Tally {
    family: Counts,
    by_grant: [u32; MOST_GRANTS],
    differences: u32,
}

impl Tally {
    // A call of the family at work, by what the first query answered. The terms are those of the second.
    pub(super) fn note(&mut self, first: Answer, terms: Result<Terms<'_>, Reason>, cell: usize) {
        add(&mut self.family.calls);
        match first.0 {
            Ok(Some(grant)) => self.note_told(grant, terms, cell),
            Ok(None) => self.note_none(terms, cell),
            Err(refusal) => self.note_refused(refusal.reason),
        }
    }

    fn note_told(&mut self, grant: usize, terms: Result<Terms<'_>, Reason>, cell: usize) {
        add(&mut self.family.told);
        if let Some(count) = self.by_grant.get_mut(grant) {
            add(count);
        }
        if terms.is_ok_and(|terms| terms.is_admitted_behind(cell, grant)) {
            add(&mut self.family.another_too);
        }
    }

    fn note_none(&mut self, terms: Result<Terms<'_>, Reason>, cell: usize) {
        let Ok(terms) = terms else { return };
        add(match terms.address(cell) {
            Ok(_) => &mut self.family.not_admitted,
            Err(Lack::NoCell) => &mut self.family.no_cell,
            Err(Lack::NotMarked) => &mut self.family.not_marked,
            Err(Lack::NoAddress) => &mut self.family.no_address,
        });
    }

    fn note_refused(&mut self, reason: Reason) {
        match reason {
            Reason::BadState => add(&mut self.family.bad_state),
            Reason::BadGrants => add(&mut self.family.bad_grants),
            _ => {}
        }
    }

    // Holds an answer to the one that it has to be. The first five differences are told: in the family whose line comes
    // next, the call, and the two answers.
    pub(super) fn hold(
        &mut self,
        rt: &impl Print,
        first: Answer,
        expected: Answer,
    ) -> io::Result<()> {
        if first == expected {
            return Ok(());
        }
        add(&mut self.differences);
        if self.differences > MOST_TOLD {
            return Ok(());
        }
        let call = self.family.calls;
        println!(rt; "difference: call={call} first={first} expected={expected}")
    }

    pub(super) fn end_family(&mut self, rt: &impl Print, name: &[u8]) -> io::Result<()> {
        let counts = mem::take(&mut self.family);
        rt.write_all(name)?;
        println!(rt; " {counts}")
    }

    fn count_at(&self, i: usize) -> u32 {
        if i == DIFFERENCES {
            return self.differences;
        }
        let grant = i.checked_sub(BY_GRANT);
        let count = grant.and_then(|grant| self.by_grant.get(grant));
        count.copied().unwrap_or(0)
    }

    // So many counts of the whole run.
    pub(super) fn tell_counts(&self, rt: &impl Print, first: u32, n: u32) -> io::Result<()> {
        for i in 0..n {
            let count = self.count_at(first as usize + i as usize);
            print!(rt; " {count}")?;
        }
        println!(rt)
    }

    pub(super) fn tell_end(&self, rt: &impl Print) -> io::Result<()> {
        let differences = self.differences;
        let verdict = if differences == 0 { "all" } else { "NOT" };
        println!(rt; "{verdict} as expected: differences={differences}")
    }
}
