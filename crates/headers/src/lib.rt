// What a header opens, and the group that a setting names: 3, 4 and 5. The words behind them are asked in `judging`.
#![tactic(auto)]

ghost use Rattle.std.specs.Prelude.{◌≡◌, ◌≤◌, ◌<◌, ◌^◌};
ghost use Rattle.headers.specs.Headers.{run_index, scaler_at, overlay_run, scaler_run, header_of, group_of};

use meaning::{Cell, Reason, VideoOffset};

// A run of a scaler's registers: the cell of its first register, the role of its addresses, and the number of the run's first register.
#[derive(Clone, Copy)]
pub struct ScalerRun {
    pub base: Cell,
    pub role: usize,
    pub index: usize,
}

// What stands behind a header: a setting and parameters; a run from register `index` of 2208 to 2210 on; a run of a scaler's registers.
#[derive(Clone, Copy)]
pub enum Header {
    Setting,
    Overlay(usize),
    Scaler(ScalerRun),
}

// The registers of a type and sub-type: 01.00, a stage or a sample, each with the cell of its first register.
#[derive(Clone, Copy)]
pub enum Group {
    Target,
    Stage(Cell),
    Sample(Cell),
}

// An offset among the registers of a scaler: the cell of the first, the role of its addresses, and the bytes between.
#[derive(Clone, Copy)]
pub struct ScalerOffset {
    pub base: Cell,
    pub role: usize,
    pub distance: u32,
}

// The number of the first register of a run of n words, from an offset on that stands so many bytes behind the first of a row of video
// registers: 3 between two registers, 4 where the run is empty or leaves the row.
#[tactic(auto, using(laws::proofs::Arms::tests), unfolding(crate::specs::Headers::run_index))]
fn run_index(distance: u32, n: usize, row: usize) -> Result<usize, Reason>
    requires few { n < 2 ^ 16 }
    ensures index { result ≡ run_index distance n row }
{
    if distance % 4 != 0 {
        return Err(Reason::BadOffset);
    }
    if n == 0 {
        return Err(Reason::BadCount);
    }
    let index = (distance / 4) as usize;
    if row < index + n {
        return Err(Reason::BadCount);
    }
    Ok(index)
}

// A run for 2208 to 2210.
#[tactic(auto, unfolding(crate::specs::Headers::overlay_run))]
fn overlay_run(offset: VideoOffset, n: usize) -> Result<Header, Reason>
    requires low { 0x2208 ≤ offset.0 }
    requires few { n < 2 ^ 16 }
    ensures opened { result ≡ overlay_run offset n }
{
    let index = run_index(offset.0 - 0x2208, n, 3)?;
    Ok(Header::Overlay(index))
}

// The scaler that an offset is among the registers of.
#[tactic(auto, using(laws::proofs::Arms::spans), unfolding(crate::specs::Headers::scaler_at))]
fn scaler_at(offset: VideoOffset) -> Option<ScalerOffset>
    ensures told { result ≡ scaler_at offset }
{
    let o = offset.0;
    match o {
        0x23e4..=0x23fc => Some(ScalerOffset {
            base: Cell(87),
            role: 2,
            distance: o - 0x23e4,
        }),
        0x33e4..=0x33fc => Some(ScalerOffset {
            base: Cell(94),
            role: 3,
            distance: o - 0x33e4,
        }),
        _ => None,
    }
}

// A run for a scaler, or for no register.
#[tactic(auto, unfolding(crate::specs::Headers::scaler_run))]
fn scaler_run(offset: VideoOffset, n: usize) -> Result<Header, Reason>
    requires few { n < 2 ^ 16 }
    ensures opened { result ≡ scaler_run offset n }
{
    let scaler = scaler_at(offset).ok_or(Reason::BadOffset)?;
    let index = run_index(scaler.distance, n, 7)?;
    Ok(Header::Scaler(ScalerRun {
        base: scaler.base,
        role: scaler.role,
        index,
    }))
}

// What a header opens.
#[tactic(auto, using(laws::proofs::Arms::spans, meaning::proofs::Stretches::count_small), unfolding(crate::specs::Headers::header_of))]
pub fn header_of(header: u32) -> Result<Header, Reason>
    ensures opened { result ≡ header_of header }
{
    let offset = fields::offset(header);
    let n = fields::count(header) as usize;
    match offset {
        0x043c => match n {
            2..=113 => Ok(Header::Setting),
            _ => Err(Reason::BadCount),
        },
        0x2208..=0x2210 => overlay_run(VideoOffset(offset), n),
        _ => scaler_run(VideoOffset(offset), n),
    }
}

// The group that a setting names. 02 with a stage or a sample, 01 with 00: what is left of a setting is 0.
#[tactic(auto, using(laws::proofs::Arms::spans), unfolding(crate::specs::Headers::group_of, crate::specs::Headers::group_of02))]
pub fn group_of(setting: u32) -> Option<Group>
    ensures group { result ≡ group_of setting }
{
    if setting % 0x1000000 == 0x20000 {
        let sub = fields::sub_type(setting) as usize;
        return match sub {
            0x00..=0x0f => Some(Group::Stage(Cell(4 + 2 * sub))),
            0x20..=0x2f => Some(Group::Sample(Cell(3 * sub - 60))),
            _ => None,
        };
    }
    if setting == 0x10000 {
        return Some(Group::Target);
    }
    None
}
