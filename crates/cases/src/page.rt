// The page: what the program reads from standard input, and its only table of cases. A family has a line with its
// name, and below it lines with its cases, each in up to four parts with `|` between:
//
//   reason place | cell value .. | grants | batch
//       A case written by hand, with what it stores.
//   @ reason place | cell value .. | grants | batch | cell value ..
//       The same from the state with the last part's cells.
//   ~ times word shift width, reason place, reason place | low high .. | grants | batch
//       Every code of a field of that word of the batch: the first answer for a code that is not listed, the second
//       for one that is; reason 99 states that it is not the other one. A shift of 99 changes one bit, the code's,
//       of as many as the width says. The same again for the next sub-type, that many times.
//   + | | | batch
//       A packet that needs no grant. The first 16 stand in front of the cases written by hand.
//   * list reason most | | grants
//       Every length below the most of the state (list 1) or of the grants (list 6), with the reason of a wrong one.
//   % cases
//       So many cases of the pair.
//   > | cell value ..
//       A state, with its listing on the lines below, up to an empty one: in every room.
//
// A number of six digits or more is hex, a shorter one decimal. Other lines say nothing.
//
// Any bytes are a page: what is no digit ends a number, a number that is not there is 0, and of one that is too long for a
// word the lowest bits are left.

use super::answers::{Expected, Numbers};
use super::lists::List;
use super::state::{STATE_WORDS, State};

// What a line with cases is, by its first byte.
#[derive(Clone, Copy)]
pub(super) enum Kind {
    Written,
    Entered,
    Sweep,
    Packet,
    Lengths,
    Pairs,
    Listing,
}

impl Kind {
    pub(super) fn of(byte: u8) -> Option<Kind> {
        match byte {
            b'0'..=b'9' => Some(Kind::Written),
            b'@' => Some(Kind::Entered),
            b'~' => Some(Kind::Sweep),
            b'+' => Some(Kind::Packet),
            b'*' => Some(Kind::Lengths),
            b'%' => Some(Kind::Pairs),
            b'>' => Some(Kind::Listing),
            _ => None,
        }
    }
}

// Packets that need no grant, one after the other, and where each starts.
#[derive(Clone, Copy)]
pub(super) struct Pool {
    pub(super) words: List,
    pub(super) starts: List,
}

impl Pool {
    pub(super) fn new() -> Pool {
        Pool {
            words: List::new(),
            starts: List::new(),
        }
    }

    pub(super) fn add(&mut self, packet: &List) {
        self.starts.push(self.words.len());
        self.words.push_all(packet);
    }

    // Adds that packet to a batch: its header, and as many words as this counts. A packet that there is not is the first.
    pub(super) fn push_packet(&self, packet: usize, batch: &mut List) {
        let start = self.starts.get(packet) as usize;
        let more = (self.words.get(start) >> 16) as usize;
        for i in start..=start.wrapping_add(more) {
            batch.push(self.words.get(i));
        }
    }
}

// A line with cases, in its parts.
#[derive(Clone, Copy)]
pub(super) struct Line {
    // The first part: what they are is said by the line's kind.
    numbers: List,
    // What a case stores, each cell and its value; or a field's listed codes, from a low one to a high one.
    pub(super) listed: List,
    pub(super) grants: List,
    pub(super) batch: List,
    // The last part's cells, and the state that its cases start from: empty but for these.
    cells: List,
    pub(super) entry: State,
}

impl Line {
    // A line with nothing in it.
    pub(super) fn new() -> Line {
        Line {
            numbers: List::new(),
            listed: List::new(),
            grants: List::new(),
            batch: List::new(),
            cells: List::new(),
            entry: State::empty(),
        }
    }

    // Becomes the line of that text.
    // Kept: the numbers of a sixth part go into the pool, as words, and those of a seventh, as starts.
    pub(super) fn read(&mut self, text: &[u8], pool: &mut Pool) {
        self.clear();
        let mut parts = text.split(|byte| *byte == b'|');
        push_numbers(&mut self.numbers, parts.next());
        push_numbers(&mut self.listed, parts.next());
        push_numbers(&mut self.grants, parts.next());
        push_numbers(&mut self.batch, parts.next());
        push_numbers(&mut self.cells, parts.next());
        push_numbers(&mut pool.words, parts.next());
        push_numbers(&mut pool.starts, parts.next());
        self.entry.store_all(&self.cells);
    }

    fn clear(&mut self) {
        self.numbers.clear();
        self.listed.clear();
        self.grants.clear();
        self.batch.clear();
        self.cells.clear();
        self.entry.clear();
    }

    // The first N of its numbers.
    pub(super) fn first<const N: usize>(&self) -> [u32; N] {
        self.numbers.first::<N>()
    }

    // What it states of a case that stands behind so many words. Reasons 1 and 2 stand at 0.
    pub(super) fn stated_behind(&self, front: u32) -> Numbers {
        let [reason, place] = self.first::<2>();
        match reason {
            1 | 2 => Numbers::stated(reason, 0),
            _ => Numbers::stated(reason, (place as usize).wrapping_add(front as usize)),
        }
    }
}

fn digit(byte: u8) -> Option<u32> {
    match byte {
        b'0'..=b'9' => Some(u32::from(byte - b'0')),
        b'a'..=b'f' => Some(u32::from(byte - b'a') + 10),
        _ => None,
    }
}

// Kept: from_str_radix has no number for letters in a decimal one, which count for 10 to 15, nor for more digits than a
// word has.
fn number_of(digits: &[u8]) -> u32 {
    let base = if digits.len() < 6 { 10 } else { 16 };
    let mut number = 0u32;
    for byte in digits {
        number = number
            .wrapping_mul(base)
            .wrapping_add(digit(*byte).unwrap_or(0));
    }
    number
}

fn push_numbers(list: &mut List, part: Option<&[u8]>) {
    for digits in part.unwrap_or(&[]).split(|byte| digit(*byte).is_none()) {
        if !digits.is_empty() {
            list.push(number_of(digits));
        }
    }
}

// What the codes of a field do to its word.
#[derive(Clone, Copy)]
pub(super) enum Change {
    // The field, this far up, has the code.
    Field(u32),
    // The code's bit is the other one.
    Bit,
}

impl Change {
    pub(super) fn of(self, word: u32, code: u32) -> u32 {
        match self {
            Change::Field(shift) => word | code.checked_shl(shift).unwrap_or(0),
            Change::Bit => word ^ 1u32.checked_shl(code).unwrap_or(0),
        }
    }

    // How many codes there are.
    fn codes(self, width: u32) -> u32 {
        match self {
            Change::Field(_) => 1u32.checked_shl(width).unwrap_or(0),
            Change::Bit => width,
        }
    }
}

// Every code of a field.
#[derive(Clone, Copy)]
pub(super) struct Sweep {
    pub(super) times: u32,
    // Which word of the batch has the field.
    pub(super) at: usize,
    pub(super) change: Change,
    pub(super) codes: u32,
    unlisted: Expected,
    listed: Expected,
}

// The reason that stands for an answer that is not stated, and the shift that stands for a bit to be changed.
const UNSTATED: u32 = 99;

const ONE_BIT: u32 = 99;

fn answer_if_stated(reason: u32, place: u32) -> Option<Numbers> {
    (reason != UNSTATED).then_some(Numbers::stated(reason, place as usize))
}

// The answer that is stated; else any but the other one.
fn expected(stated: Option<Numbers>, other: Option<Numbers>) -> Expected {
    stated
        .map(Expected::Just)
        .or(other.map(Expected::Not))
        .unwrap_or(Expected::Any)
}

impl Sweep {
    pub(super) fn on(line: &Line) -> Sweep {
        let [
            times,
            at,
            shift,
            width,
            unlisted_reason,
            unlisted_place,
            listed_reason,
            listed_place,
        ] = line.first::<8>();
        let change = if shift == ONE_BIT {
            Change::Bit
        } else {
            Change::Field(shift)
        };
        let unlisted = answer_if_stated(unlisted_reason, unlisted_place);
        let listed = answer_if_stated(listed_reason, listed_place);
        Sweep {
            times,
            at: at as usize,
            change,
            codes: change.codes(width),
            unlisted: expected(unlisted, listed),
            listed: expected(listed, unlisted),
        }
    }

    // What is expected of a code, by the line's ranges. A last one that has no high code ends at 0.
    pub(super) fn expected(&self, code: u32, ranges: &List) -> Expected {
        for i in (0..ranges.len() as usize).step_by(2) {
            if ranges.get(i) <= code && code <= ranges.get(i.wrapping_add(1)) {
                return self.listed;
            }
        }
        self.unlisted
    }
}

// Which list has every length. Of other lists than these no call is lent any.
#[derive(Clone, Copy)]
pub(super) enum Cut {
    State,
    Grants,
    Batch,
    PoolWords,
    PoolStarts,
    Other,
}

impl From<u32> for Cut {
    fn from(number: u32) -> Cut {
        match number {
            1 => Cut::State,
            6 => Cut::Grants,
            7 => Cut::Batch,
            9 => Cut::PoolWords,
            10 => Cut::PoolStarts,
            _ => Cut::Other,
        }
    }
}

impl Cut {
    // A state has 202 words; a list of grants whole grants, up to 64.
    fn allows(self, length: u32) -> bool {
        match self {
            Cut::State => length == STATE_WORDS,
            _ => length % 5 == 0 && length <= 320,
        }
    }
}

#[derive(Clone, Copy)]
pub(super) struct Lengths {
    pub(super) cut: Cut,
    reason: u32,
    pub(super) most: u32,
}

impl Lengths {
    pub(super) fn on(line: &Line) -> Lengths {
        let [list, reason, most] = line.first::<3>();
        Lengths {
            cut: Cut::from(list),
            reason,
            most,
        }
    }

    // The answer on an empty batch, with so many words.
    pub(super) fn answer(&self, length: u32) -> Numbers {
        let reason = if self.cut.allows(length) {
            0
        } else {
            self.reason
        };
        Numbers::stated(reason, 0)
    }
}

// The listing that stands at the front of these lines: up to an empty one, or to the end.
pub(super) fn listing_in(below: &[u8]) -> &[u8] {
    let end = below
        .windows(2)
        .position(|bytes| bytes == b"\n\n".as_slice())
        .map_or(below.len(), |i| i.wrapping_add(1));
    below.get(..end).unwrap_or(below)
}
