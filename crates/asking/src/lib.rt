// What a word is asked by its position, for words that come one at a time: the reader's own questions, and where the next word stands.
#![tactic(auto)]

ghost use Rattle.std.specs.Prelude.{◌≡◌, suc, ◌≤◌, ◌<◌, ◌^◌};
ghost use Rattle.meaning.specs.declared.Kind.{Kind};
ghost use Rattle.meaning.specs.declared.Kind.TheVariants as kinds;
ghost use Rattle.meaning.specs.Words.{video_offset};
ghost use Rattle.meaning.specs.Grants.{Terms, most_grants};
ghost use Rattle.meaning.specs.Answers.{reason_in};
ghost use Rattle.grants.specs.Kept.{Keeps};
ghost use Rattle.grants.specs.Held.{IsRole};
ghost use Rattle.headers.specs.Told.{Leads};
ghost use Rattle.asking.specs.Asked.{kind_from, part_in, capped, bound_for, moved_on, asked_in};
ghost use Rattle.asking.specs.Told.{OfRole, taken_of, asked_as};

use grants::{BOUNDS, Numbers, Part, RoleGrants, Spans};
use headers::{Group, Header};
use meaning::{CELLS, Cell, FIRST_VIDEO, MOST_GRANTS, Reason};

// Bounds as bytes: those of a grant list are at most 64.
pub type ByteBounds = [u8; BOUNDS];

// A grant list as an engine keeps it. The bounds may be any bytes.
#[derive(Clone, Copy)]
pub struct Stored<'a> {
    pub starts: &'a Spans,
    pub lasts: &'a Spans,
    pub numbers: &'a Numbers,
    pub bounds: &'a ByteBounds,
}

// What comes of a word that is taken: `left` and `under` are the next word's position, and `cell` and `value` what the word writes: no cell's
// number where it writes none. A position is how many words the open packet still wants, and what the next of them stands under: 0 before
// the setting, then the setting; in a run the offset that it is bound for.
#[derive(Clone, Copy)]
pub struct Taken {
    pub left: u32,
    pub under: u32,
    pub cell: Cell,
    pub value: u32,
}

// A parameter is known to be a byte, which an element is not.
fn wide(byte: u8) -> usize
    ensures same { result ≡ byte }
{
    byte as usize
}

// The part of a role. It ends where the room does, whatever the bytes are.
pub fn part_in(bounds: &ByteBounds, role: usize) -> Part
    requires role { role < 4 }
    ensures part { result ≡ part_in bounds.now role }
    ensures inside { result.to ≤ most_grants }
{
    Part {
        from: wide(bounds[role]),
        to: wide(bounds[4 + role]).min(MOST_GRANTS),
    }
}

impl<'a> Stored<'a> {
    // Those of a role.
    pub fn part_of(&self, role: usize) -> RoleGrants<'a>
        requires role { role < 4 }
        ensures role { OfRole self.now role result }
    {
        RoleGrants {
            starts: self.starts,
            lasts: self.lasts,
            numbers: self.numbers,
            part: part_in(self.bounds, role),
        }
    }
}

// A word that writes nothing.
fn moved_on(left: u32, under: u32) -> Taken
    ensures moved { taken_of result ≡ moved_on left under }
{
    Taken {
        left,
        under,
        cell: Cell(CELLS),
        value: 0,
    }
}

// A header.
fn at_header(word: u32) -> Result<Taken, Reason>
    ensures asked { (g : Terms) (kind : Kind) → asked_as result ≡ asked_in g kind 0 word }
{
    let left = fields::count(word);
    let offset = fields::offset(word);
    match headers::header_of(word)? {
        Header::Setting => Ok(moved_on(left, 0)),
        Header::Overlay(_) => Ok(moved_on(left, offset)),
        Header::Scaler(_) => Ok(moved_on(left, offset)),
    }
}

// A setting, with so many words behind it.
fn at_setting(word: u32, left: u32) -> Result<Taken, Reason>
    ensures asked { (g : Terms) → asked_as result ≡ asked_in g kinds.Setting (suc left) word }
{
    match headers::group_of(word) {
        Some(_) => Ok(moved_on(left, word)),
        None => Err(Reason::BadSetting),
    }
}

// A parameter. `part` are the grants of the target.
fn at_parameter(
    group: Group,
    setting: u32,
    word: u32,
    left: u32,
    part: &RoleGrants<'_>,
) -> Result<Taken, Reason>
    requires group { Leads setting group }
    ensures asked { (g : Terms) → IsRole g 1 part.now → asked_as result ≡ asked_in g (kinds.Parameter setting) (suc left) word }
{
    let value = fields::data(word);
    let judged = judging::judge_parameter(group, fields::sub_address(word), value, part);
    judged.verdict?;
    Ok(Taken {
        left,
        under: setting,
        cell: judged.cell,
        value,
    })
}

// A word for the video register of a cell, which was judged.
fn for_video(
    verdict: Result<(), Reason>,
    offset: u32,
    word: u32,
    left: u32,
    cell: Cell,
) -> Result<Taken, Reason>
    requires offset { offset < 2 ^ 16 }
    ensures told { asked_as result ≡ bound_for (reason_in verdict) offset word left cell }
{
    verdict?;
    Ok(Taken {
        left,
        under: offset + 4,
        cell,
        value: word,
    })
}

// A word for a video register. Its offset is looked up as the header of a run of one word would be.
fn at_video(under: u32, word: u32, left: u32, grants: &Stored<'_>) -> Result<Taken, Reason>
    ensures asked { (g : Terms) → Keeps g grants.now.starts.now grants.now.lasts.now (capped grants.now.bounds.now) → asked_as result ≡ asked_in g (kinds.Video (video_offset under)) (suc left) word }
{
    let offset = fields::offset(under);
    let Ok(header) = headers::header_of(0x10000 + offset) else {
        return Err(Reason::BadCount);
    };
    match header {
        Header::Setting => Err(Reason::BadCount),
        Header::Overlay(index) => for_video(
            judging::overlay_reason(index, word),
            offset,
            word,
            left,
            Cell(FIRST_VIDEO + index),
        ),
        Header::Scaler(run) => {
            let index = run.index;
            let base = run.base.0;
            let part = grants.part_of(run.role);
            for_video(
                judging::scaler_reason(index, word, &part),
                offset,
                word,
                left,
                Cell(base + index),
            )
        }
    }
}

// A word at its position: 3 to 9, or what comes of it. Any two numbers are a position.
pub fn ask(left: u32, under: u32, word: u32, grants: &Stored<'_>) -> Result<Taken, Reason>
    ensures asked { (g : Terms) → Keeps g grants.now.starts.now grants.now.lasts.now (capped grants.now.bounds.now) → asked_as result ≡ asked_in g (kind_from under) left word }
{
    if left == 0 {
        return at_header(word);
    }
    let rest = left - 1;
    let Some(group) = headers::group_of(under) else {
        if under == 0 {
            return at_setting(word, rest);
        }
        return at_video(under, word, rest, grants);
    };
    at_parameter(group, under, word, rest, &grants.part_of(1))
}
