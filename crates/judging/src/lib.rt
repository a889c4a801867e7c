// What speaks against a word by its position: a parameter of a group, a word of a run. What each row of the table asks is in
// `rows_3d` and `rows_video`.
#![tactic(auto)]

ghost use Rattle.std.specs.Prelude.{◌≡◌, ℕ, ◌+◌, ◌≤◌, ◌<◌, ◌^◌};
ghost use Rattle.meaning.specs.Registers.{first_video, cell, register_at};
ghost use Rattle.meaning.specs.Grants.{Terms};
ghost use Rattle.meaning.specs.Answers.{reason_in};
ghost use Rattle.meaning.specs.Reader.{value_reason};
ghost use Rattle.grants.specs.Held.{IsRole};
ghost use Rattle.rows_video.specs.Scalers as scalers;
ghost use Rattle.headers.specs.declared.Group.TheVariants as groups;
ghost use Rattle.headers.specs.Told.{cell_in, IsGroup};
ghost use Rattle.judging.specs.Judged.{reason_for, cell_for};

use grants::RoleGrants;
use headers::Group;
use meaning::{Cell, Reason, SubAddress};

// What speaks against a parameter, if anything does, and the cell that it is for, whatever speaks against it; where it is for none, the reason
// is 6.
#[derive(Clone, Copy)]
pub struct Judged {
    pub verdict: Result<(), Reason>,
    // Kept beside the verdict: `judge_parameter` tells it of a refused value too.
    pub cell: Cell,
}

// A verdict, and the cell by its number.
fn for_cell(verdict: Result<(), Reason>, number: usize) -> Judged
    ensures verdict { result.verdict ≡ verdict }
    ensures cell { result.cell ≡ cell number }
{
    Judged {
        verdict,
        cell: Cell(number),
    }
}

// A parameter under 01.00. Here and below `part` are the grants of the addresses' role.
#[tactic(auto, using(laws::proofs::Arms::tests), unfolding(headers::specs::Told::cell_in))]
fn judge_target(address: SubAddress, value: u32, part: &RoleGrants<'_>) -> Judged
    requires narrow { value < 2 ^ 24 }
    ensures verdict { (g : Terms) → IsRole g 1 part.now → reason_in result.verdict ≡ reason_for g (cell_in groups.Target address) value }
    ensures cell { result.cell ≡ cell_for (cell_in groups.Target address) }
{
    let a = address.0;
    match a {
        0x3f => for_cell(rows_3d::alpha_constants_reason(value), 0),
        0x50 => for_cell(rows_3d::target_address_reason(value, part), 1),
        0x51 => for_cell(rows_3d::location_reason(value), 2),
        0x52 => for_cell(rows_3d::format_reason(value), 3),
        _ => for_cell(Err(Reason::NoRegister), 0),
    }
}

// The same under 02.0n, where `base` is the cell of the stage's first register,
#[tactic(auto, using(laws::proofs::Arms::tests), unfolding(headers::specs::Told::cell_in))]
fn judge_stage(base: Cell, address: SubAddress, value: u32) -> Judged
    requires stage { IsGroup (groups.Stage base) }
    ensures verdict { (g : Terms) → reason_in result.verdict ≡ reason_for g (cell_in (groups.Stage base) address) value }
    ensures cell { result.cell ≡ cell_for (cell_in (groups.Stage base) address) }
{
    let a = address.0;
    match a {
        0x50 => for_cell(rows_3d::stage_reason(value), base.0),
        0x51 => for_cell(rows_3d::stage_reason(value), base.0 + 1),
        _ => for_cell(Err(Reason::NoRegister), 0),
    }
}

// and under 02.2n.
#[tactic(auto, using(laws::proofs::Arms::tests), unfolding(headers::specs::Told::cell_in))]
fn judge_sample(base: Cell, address: SubAddress, value: u32) -> Judged
    requires sample { IsGroup (groups.Sample base) }
    ensures verdict { (g : Terms) → reason_in result.verdict ≡ reason_for g (cell_in (groups.Sample base) address) value }
    ensures cell { result.cell ≡ cell_for (cell_in (groups.Sample base) address) }
{
    let a = address.0;
    match a {
        0x30 => for_cell(rows_3d::levels_reason(value), base.0),
        0x31 => for_cell(rows_3d::filters_reason(value), base.0 + 1),
        0x32 => for_cell(rows_3d::mapping_reason(value), base.0 + 2),
        _ => for_cell(Err(Reason::NoRegister), 0),
    }
}

// A parameter of a group: 6 to 9. Inside a packet the group stands still, so that a loop over parameters is compiled for each.
pub fn judge_parameter(
    group: Group,
    address: SubAddress,
    value: u32,
    part: &RoleGrants<'_>,
) -> Judged
    requires group { IsGroup group }
    requires narrow { value < 2 ^ 24 }
    ensures verdict { (g : Terms) → IsRole g 1 part.now → reason_in result.verdict ≡ reason_for g (cell_in group address) value }
    ensures cell { result.cell ≡ cell_for (cell_in group address) }
{
    match group {
        Group::Sample(base) => judge_sample(base, address, value),
        Group::Stage(base) => judge_stage(base, address, value),
        Group::Target => judge_target(address, value, part),
    }
}

// A word for 2208, 220C or 2210: 7 and 8.
pub fn overlay_reason(index: usize, value: u32) -> Result<(), Reason>
    requires three { index < 3 }
    ensures reason { (g : Terms) → reason_in result ≡ value_reason g (register_at (cell (first_video + index))) value }
{
    match index {
        0..=1 => rows_video::overlay_reason(value),
        _ => rows_video::alpha_select_reason(value),
    }
}

// A word for one of a scaler's registers: 7 to 9.
pub fn scaler_reason(index: usize, value: u32, part: &RoleGrants<'_>) -> Result<(), Reason>
    requires seven { index < 7 }
    ensures reason { (g : Terms) (c role : ℕ) → scalers.Scaler c role → IsRole g role part.now → reason_in result ≡ value_reason g (register_at (cell (c + index))) value }
{
    match index {
        0 => rows_video::deinterlace_reason(value),
        1 => rows_video::sub_picture_reason(value),
        2 => rows_video::first_address_reason(value, part),
        3 => rows_video::address_reason(value, part),
        4 => rows_video::destination_stride_reason(value),
        5 => rows_video::source_stride_reason(value),
        _ => rows_video::address_reason(value, part),
    }
}
