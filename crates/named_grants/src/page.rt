// The page. The first byte of a line says what it is for. The grants are g, the location is l, calls with their answer are
// ?, and calls that are made here ~; the name of a family is =, and its line is then told; a text to tell is : and counts
// of the whole run to tell are #. A space stands before each number, which is decimal, or hex behind 0x. All other lines
// are passed over.
//
// Any bytes are a page. What is no digit of a number counts for nothing in it, and of a number that is too long for a word
// the lowest bits are left.
use super::answer::Answer;
use super::families::Family;
use super::lent::{Content, bytes_of};
use super::run::Run;
use std::io;

// So many numbers of a line are kept, but for the last of them, with which the list is empty again. What then follows
// takes their places from the first on.
const ROOM: usize = 352;

fn digit(byte: u8) -> Option<u32> {
    match byte {
        b'0'..=b'9' => Some(u32::from(byte - b'0')),
        b'a'..=b'f' => Some(u32::from(byte - b'a') + 10),
        _ => None,
    }
}

// From its x on a number is hex. Before it the letters are digits too.
fn number(word: &[u8]) -> u32 {
    let mut base = 10;
    let mut number = 0u32;
    for byte in word {
        if *byte == b'x' {
            base = 16;
        } else if let Some(digit) = digit(*byte) {
            number = number.wrapping_mul(base).wrapping_add(digit);
        }
    }
    number
}

// The numbers of a line. Kept: in places that are there, whatever the line has.
#[derive(Clone, Copy)]
struct Numbers {
    places: [u32; ROOM],
    // The place that the next number takes.
    next: usize,
}

impl Numbers {
    // One behind each space.
    fn read(text: &[u8]) -> Numbers {
        let mut numbers = Numbers {
            places: [0; ROOM],
            next: 0,
        };
        for word in text.split(|byte| *byte == b' ').skip(1) {
            numbers.push(number(word));
        }
        numbers
    }

    fn push(&mut self, number: u32) {
        if let Some(place) = self.places.get_mut(self.next) {
            *place = number;
        }
        self.next = self.next.wrapping_add(1) % ROOM;
    }

    // Those in the first places; each that the line does not have is 0.
    fn first<const N: usize>(&self) -> [u32; N] {
        let mut first = [0; N];
        for (place, number) in first.iter_mut().zip(self.places.iter()) {
            *place = *number;
        }
        first
    }

    // The list as it stands.
    fn list(&self) -> &[u32] {
        self.places.get(..self.next).unwrap_or(&self.places)
    }
}

impl<R: Print + AllocGlobal> Run<R> {
    // A line's numbers are the cell, its mark and its value in the empty state, and the answer; then how many more calls
    // have that answer, and by how much the cell and the value grow from each to the next.
    fn run_calls(&mut self, numbers: &Numbers) -> io::Result<()> {
        let [cell, mark, value, stated, more, cell_step, value_step] = numbers.first::<7>();
        let mut cell = cell as usize;
        let mut content = Content { mark, value };
        for _ in 0..=more {
            let told = self.ask(cell, content)?;
            self.hold(told, Answer::from(stated))?;
            cell = cell.wrapping_add(cell_step as usize);
            content.value = content.value.wrapping_add(value_step);
        }
        Ok(())
    }

    fn run_family(&mut self, numbers: &Numbers) -> io::Result<()> {
        let [family, calls] = numbers.first::<2>();
        let family = Family::from(family);
        for k in 0..calls {
            self.turn(family, k)?;
        }
        Ok(())
    }

    // The words of the list as it stands at the end of the line.
    fn take_grants(&mut self, numbers: &Numbers) -> io::Result<()> {
        self.case.grants = bytes_of(self.rt.alloc(), numbers.list())?;
        Ok(())
    }

    fn take_location(&mut self, numbers: &Numbers) {
        let [mark, value] = numbers.first::<2>();
        self.location = Content { mark, value };
    }

    fn tell_counts(&self, numbers: &Numbers) -> io::Result<()> {
        let [first, n] = numbers.first::<2>();
        self.tally.tell_counts(&self.rt, first, n)
    }

    // A line that is for that.
    fn run_line(&mut self, what: u8, text: &[u8]) -> io::Result<()> {
        let numbers = Numbers::read(text);
        match what {
            b'g' => self.take_grants(&numbers)?,
            b'l' => self.take_location(&numbers),
            b'?' => self.run_calls(&numbers)?,
            b'~' => self.run_family(&numbers)?,
            b'=' => self.tally.end_family(&self.rt, text)?,
            b':' => self.rt.write_all(text)?,
            b'#' => self.tell_counts(&numbers)?,
            _ => {}
        }
        Ok(())
    }

    // What stands behind the last line end is passed over.
    pub(super) fn run_page(&mut self, page: &[u8]) -> io::Result<()> {
        for line in page.split_inclusive(|byte| *byte == b'\n') {
            if let [what, text @ .., b'\n'] = line {
                self.run_line(*what, text)?;
            }
        }
        Ok(())
    }
}
