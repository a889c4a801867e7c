// The page. The second reader's table stands behind @, a comma between the names. A text by hand is a line with the
// reason, the place and the text, a colon behind each of the first two; in the text | stands for the byte that ends a
// line. A family is ~, what is done to its listings, how many they are, and its title. What is told is ?, the first count
// of how many, and their title. All other lines are passed over, and so is what stands behind the last line's end.
use super::answer::numbered;
use super::readers::Readers;
use std::alloc::{AllocError, Global};
use std::io;

// Two numbers and the text behind them. A missing one is 0, and a missing text is empty.
#[derive(Drop)]
struct Entry {
    first: u8,
    second: usize,
    text: Vec<u8>,
}

// A number, which wraps around. Any byte counts as a digit, by its low four bits.
fn number(digits: &[u8]) -> usize {
    digits.iter().fold(0, |number: usize, digit| {
        number
            .wrapping_mul(10)
            .wrapping_add(usize::from(digit & 15))
    })
}

// The bytes that a text of the page stands for.
fn meant(alloc: Global, text: &[u8]) -> Result<Vec<u8>, AllocError> {
    text.iter()
        .map(|byte| if *byte == b'|' { b'\n' } else { *byte })
        .collect(alloc)
}

impl Entry {
    // The first number is a byte: what it has above is laid over the second.
    fn of(alloc: Global, line: &[u8]) -> Result<Entry, AllocError> {
        let mut parts = line.splitn(3, |byte| *byte == b':');
        let first = number(parts.next().unwrap_or(&[]));
        let second = number(parts.next().unwrap_or(&[]));
        let told = second << 8 | first;
        Ok(Entry {
            first: (told % 256) as u8,
            second: told / 256,
            text: meant(alloc, parts.next().unwrap_or(&[]))?,
        })
    }
}

impl Readers {
    fn run_case(&mut self, line: &[u8]) -> io::Result<()> {
        let case = Entry::of(self.alloc, line)?;
        let stated = numbered(u32::from(case.first), case.second);
        self.check_stated(&case.text, stated)?;
        Ok(())
    }

    fn run_made_up(&mut self, line: &[u8]) -> io::Result<()> {
        let entry = Entry::of(self.alloc, line)?;
        self.run_family(entry.first, entry.second % 65536)?;
        self.tally.end_family(&entry.text)
    }

    fn run_told(&mut self, line: &[u8]) -> io::Result<()> {
        let entry = Entry::of(self.alloc, line)?;
        self.tally
            .tell_counts(usize::from(entry.first), entry.second, &entry.text)
    }

    fn run_line(&mut self, line: &[u8]) -> io::Result<()> {
        match line {
            [b'0'..=b'9', ..] => self.run_case(line),
            [b'@', names @ ..] => Ok(self.registers.lay_names(names)?),
            [b'~', family @ ..] => self.run_made_up(family),
            [b'?', counts @ ..] => self.run_told(counts),
            _ => Ok(()),
        }
    }

    pub(super) fn run_page(&mut self, page: &[u8]) -> io::Result<()> {
        for line in page.split_inclusive(|byte| *byte == b'\n') {
            if let [line @ .., b'\n'] = line {
                self.run_line(line)?;
            }
        }
        Ok(())
    }
}
