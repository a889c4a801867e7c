// The families: what is done to a listing, and how often.
ghost use Rattle.std.specs.Prelude.{◌≤◌};

use super::calls;
use super::dice::Dice;
use super::listing::Listing;
use super::readers::Readers;
use super::state::{CELLS, some_old_words};
use std::io;

// What is done to each listing: it is read back as it is; cut after each of its bytes; changed in each byte, in eight
// ways; damaged in its lines; counted otherwise; made of two of its lines; read into buffers of all lengths.
#[derive(Clone, Copy, PartialEq, Eq)]
pub(super) enum Family {
    ThereAndBack,
    Cut,
    Changed,
    Lines,
    Counted,
    Paired,
    Lent,
}

// The page's numbers: with 0, or any other, a listing is read back as it is.
impl From<u8> for Family {
    fn from(number: u8) -> Family {
        match number {
            1 => Family::Cut,
            2 => Family::Changed,
            3 => Family::Lines,
            4 => Family::Counted,
            5 => Family::Paired,
            6 => Family::Lent,
            _ => Family::ThereAndBack,
        }
    }
}

impl Family {
    // The listings are of every number of cells in turn; those whose every byte is changed, of every fifth.
    fn cells(self, k: usize) -> usize
        ensures { result ≤ 101 }
    {
        match self {
            Family::Changed => CELLS - k % 21 * 5,
            _ => CELLS - k % 102,
        }
    }
}

// Ways to another byte, or by chance the same: a bit off, in the other case, past ASCII; a line's end, 0, a digit, a
// letter, any.
#[derive(Clone, Copy)]
enum Change {
    Bit,
    Case,
    PastAscii,
    LineEnd,
    Zero,
    Digit,
    Letter,
    Any,
}

const CHANGES: [Change; 8] = [
    Change::Bit,
    Change::Case,
    Change::PastAscii,
    Change::LineEnd,
    Change::Zero,
    Change::Digit,
    Change::Letter,
    Change::Any,
];

impl Change {
    fn of(self, byte: u8, thrown: u32) -> u8 {
        match self {
            Change::Bit => byte ^ 1,
            Change::Case => byte ^ 0x20,
            Change::PastAscii => byte ^ 0x80,
            Change::LineEnd => b'\n',
            Change::Zero => b'0',
            Change::Digit => b'0' + (thrown % 10) as u8,
            Change::Letter => b'a' + (thrown % 6) as u8,
            Change::Any => (thrown % 256) as u8,
        }
    }
}

// More than the lines of any listing.
const ALL: usize = 999;

impl Readers {
    // So many made-up listings, each gone through as the family of that number has it.
    pub(super) fn run_family(&mut self, number: u8, listings: usize) -> io::Result<()> {
        let family = Family::from(number);
        let dice = Dice(u32::from(number) << 20);
        for k in 0..listings {
            let thrown = dice.thrown(k);
            let listing = Listing::made_up(self.alloc, family.cells(k), thrown.thrown(1))?;
            self.old = some_old_words(self.alloc, thrown.thrown(2))?;
            self.go_through(family, &listing)?;
        }
        Ok(())
    }

    fn go_through(&mut self, family: Family, listing: &Listing) -> io::Result<()> {
        match family {
            Family::ThereAndBack => self.there_and_back(listing),
            Family::Cut => self.cut(listing),
            Family::Changed => self.change(listing),
            Family::Lines => self.damage_lines(listing),
            Family::Counted => self.count_otherwise(listing),
            Family::Paired => self.pair_lines(listing),
            Family::Lent => self.lend(listing),
        }
    }

    // The state comes back, into the buffer's words and nowhere else; and listed again it is the same text.
    fn there_and_back(&mut self, listing: &Listing) -> io::Result<()> {
        let stated = Ok(listing.text.len());
        let left = self.check_stated(&listing.text, stated)?.left;
        let mut expected = self.old.clone()?;
        listing.state.lay(&mut expected);
        if left != expected {
            self.tally.note_difference(stated, stated)?;
        }
        let again = calls::list(self.alloc, &left)?;
        if again != listing.text {
            self.tally.note_difference(stated, stated)?;
        }
        Ok(())
    }

    // Every length.
    fn cut(&mut self, listing: &Listing) -> io::Result<()> {
        let text = &listing.text;
        for n in 0..text.len() {
            self.check(&text[..n])?;
        }
        Ok(())
    }

    // Every byte changed in every way, and one more behind the end.
    fn change(&mut self, listing: &Listing) -> io::Result<()> {
        for i in 0..=listing.text.len() {
            for change in CHANGES {
                let thrown = Dice(change as u32).throw(i);
                let mut text = listing.text.clone()?;
                match text.get_mut(i) {
                    Some(byte) => *byte = change.of(*byte, thrown),
                    None => text.push(change.of(0, thrown))?,
                }
                self.check(&text)?;
            }
        }
        Ok(())
    }

    // Every line left out, with the count as it was and as it then should be; doubled, with one count or the other; and
    // exchanged with one of the next eight, or moved to the end where there is none.
    fn damage_lines(&mut self, listing: &Listing) -> io::Result<()> {
        let cells = listing.cells;
        for line in 1..=cells {
            let without = [1..line, line + 1..ALL];
            self.check(&listing.text_of(cells, 0, &without)?)?;
            self.check(&listing.text_of(cells - 1, 0, &without)?)?;
            let doubled = [1..line + 1, line..ALL];
            self.check(&listing.text_of(cells + line % 2, 0, &doubled)?)?;
            let other = line + line % 8 + 1;
            let exchanged = [
                1..line,
                other..other + 1,
                line + 1..other,
                line..line + 1,
                other + 1..ALL,
            ];
            self.check(&listing.text_of(cells, 0, &exchanged)?)?;
        }
        Ok(())
    }

    // Every count up to two more than there are cells; then the true one with two digits, and with three.
    fn count_otherwise(&mut self, listing: &Listing) -> io::Result<()> {
        for count in 0..CELLS + 3 {
            self.check(&listing.text_of(count, 0, &[1..ALL])?)?;
        }
        for digits in 2..4 {
            self.check(&listing.text_of(listing.cells, digits, &[1..ALL])?)?;
        }
        Ok(())
    }

    // Every line in front of every other, under the count of two; and alone, under every count.
    fn pair_lines(&mut self, listing: &Listing) -> io::Result<()> {
        for line in 1..CELLS + 1 {
            for other in 0..CELLS + 1 {
                let two = [line..line + 1, other..other + 1];
                self.check(&listing.text_of(2, 0, &two)?)?;
                self.check(&listing.text_of(other, 0, &[line..line + 1])?)?;
            }
        }
        Ok(())
    }

    // Buffers of no words, of one word, of some around a state's number, and of far more; each for the listing and for
    // the text without its last byte.
    fn lend(&mut self, listing: &Listing) -> io::Result<()> {
        let whole = listing.text.as_slice();
        let short = &whole[..whole.len().saturating_sub(1)];
        for bytes in (0..8).chain(792..824).chain((40..64).map(|k| k * 48)) {
            self.check_lent(whole, bytes)?;
            self.check_lent(short, bytes)?;
        }
        Ok(())
    }
}
