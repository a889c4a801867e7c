// The second reader: what each word of a batch is, by the headers' counts alone; then the words, judged one by one.
use super::cell::{Cell, DRAWING};
use super::granted::Grants;
use super::held::Cells;
use super::table::Name;
use crate::answer::{Reason, Refusal};
use crate::lists::Lists;
use std::alloc::{AllocError, Global};

#[derive(Clone, Copy)]
struct Header {
    offset: u32,
    count: u32,
}

impl From<u32> for Header {
    fn from(word: u32) -> Header {
        Header {
            offset: word & 0xffff,
            count: word >> 16,
        }
    }
}

impl Header {
    fn is_drawing(self) -> bool {
        self.offset == DRAWING
    }

    // The cell of the video register so many words behind the first one.
    fn video_cell(self, behind: usize) -> Option<Cell> {
        let behind = u32::try_from(behind).ok()?;
        Cell::named(Name::Video(self.offset.checked_add(behind.checked_mul(4)?)?))
    }

    // A setting and up to 112 parameters; or a run of video registers alone.
    fn has_fine_count(self) -> bool {
        if self.is_drawing() {
            return (2..=113).contains(&self.count);
        }
        self.count > 0 && (0..self.count as usize).all(|behind| self.video_cell(behind).is_some())
    }

    fn judge(self) -> Result<(), Reason> {
        if !self.is_drawing() && self.video_cell(0).is_none() {
            return Err(Reason::NoOffset);
        }
        if self.has_fine_count() {
            Ok(())
        } else {
            Err(Reason::BadCount)
        }
    }
}

// The cell of a parameter under a setting.
fn parameter_cell(setting: u32, word: u32) -> Option<Cell> {
    let [_, _, kind, sub_type] = setting.to_le_bytes();
    let [_, _, _, sub_address] = word.to_le_bytes();
    Cell::named(Name::Drawing {
        kind,
        sub_type,
        sub_address,
    })
}

fn judge_setting(setting: u32) -> Result<(), Reason> {
    match setting.to_le_bytes() {
        [0, 0, 0x01, 0x00] | [0, 0, 0x02, 0x00..=0x0f | 0x20..=0x2f] => Ok(()),
        _ => Err(Reason::BadSetting),
    }
}

// What a word of a batch is: a header, a setting, or for a cell, if there is a register for it.
#[derive(Clone, Copy)]
enum Kind {
    Header,
    Setting,
    Value(Option<Cell>),
}

impl Kind {
    // What the last of these words is, with which a packet begins.
    fn of_last(packet: &[u32]) -> Kind {
        let [first, behind @ ..] = packet else {
            return Kind::Header;
        };
        let header = Header::from(*first);
        match *behind {
            [] => Kind::Header,
            [_] if header.is_drawing() => Kind::Setting,
            [setting, .., word] if header.is_drawing() => {
                Kind::Value(parameter_cell(setting, word))
            }
            [.., _] => Kind::Value(header.video_cell(behind.len().wrapping_sub(1))),
        }
    }

    fn judge(self, word: u32, grants: Grants) -> Result<(), Reason> {
        match self {
            Kind::Header => Header::from(word).judge(),
            Kind::Setting => judge_setting(word),
            Kind::Value(None) => Err(Reason::NoRegister),
            Kind::Value(Some(cell)) => cell.judge(cell.value_in(word), grants),
        }
    }
}

// A batch with what each word of it is.
#[derive(Drop)]
struct Noted<'a> {
    batch: &'a [u32],
    kinds: Vec<Kind>,
    // Whether it ends where a packet ends.
    is_whole: bool,
}

impl<'a> Noted<'a> {
    fn new(alloc: Global, batch: &'a [u32]) -> Result<Noted<'a>, AllocError> {
        let mut kinds = Vec::new(alloc);
        let mut start = 0usize;
        let mut next = 0usize;
        for (i, word) in batch.iter().enumerate() {
            if i == next {
                start = i;
                next = i.saturating_add(1).saturating_add((*word >> 16) as usize);
            }
            kinds.push(Kind::of_last(batch.get(start..=i).unwrap_or(&[])))?;
        }
        Ok(Noted {
            batch,
            kinds,
            is_whole: next == batch.len(),
        })
    }

    // The words from the front: the first that is refused, or that they end inside a packet.
    fn judge(&self, grants: Grants) -> Result<(), Refusal> {
        for (place, (kind, word)) in self.kinds.iter().zip(self.batch).enumerate() {
            if let Err(reason) = kind.judge(*word, grants) {
                return Err(reason.at(place));
            }
        }
        if self.is_whole {
            Ok(())
        } else {
            Err(Reason::EndsInside.at(self.batch.len()))
        }
    }

    fn store(&self, cells: &mut Cells) {
        for (kind, word) in self.kinds.iter().zip(self.batch) {
            if let Kind::Value(Some(cell)) = *kind {
                cells.set(cell, Some(cell.value_in(*word)));
            }
        }
    }

    // It writes cell 1 or cell 2.
    fn writes_pair(&self) -> bool {
        self.kinds.iter().any(|kind| matches!(kind, Kind::Value(Some(cell)) if cell.is_of_pair()))
    }

    // The state that it leaves.
    fn read(&self, grants: &[u32], state: &[u32]) -> Result<Cells, Refusal> {
        let (mut cells, grants) = open(state, grants)?;
        self.judge(grants)?;
        self.store(&mut cells);
        if self.writes_pair() && !cells.pair_is_fine(grants) {
            return Err(Reason::BadPair.at(self.batch.len()));
        }
        Ok(cells)
    }
}

// A state and grants that keep their rules; else 1 or 2.
pub(crate) fn open<'a>(state: &[u32], grants: &'a [u32]) -> Result<(Cells, Grants<'a>), Refusal> {
    let cells = Cells::parse(state).ok_or(Reason::BadState.at(0))?;
    let grants = Grants(grants);
    if !grants.are_fine() {
        return Err(Reason::BadGrants.at(0));
    }
    Ok((cells, grants))
}

// The state that the batch leaves, unless it is refused.
pub(crate) fn read(alloc: Global, lists: Lists) -> Result<Result<Cells, Refusal>, AllocError> {
    let noted = Noted::new(alloc, lists.batch)?;
    Ok(noted.read(lists.grants, lists.state))
}
