// What is asked of a cell of a state: that it is unmarked, or holds a value that its register may.
#![tactic(auto)]

ghost use Rattle.std.specs.Prelude.{◌≡◌, ℕ, ◌≤◌, ◌<◌, ◌^◌, T, ltb, length};
ghost use Rattle.meaning.specs.Words.{words_of};
ghost use Rattle.meaning.specs.Registers.{cells, cell, register_at};
ghost use Rattle.meaning.specs.Grants.{Terms};
ghost use Rattle.meaning.specs.State.{state_words, well_formed, value_at, mark_at};
ghost use Rattle.meaning.specs.Answers.{reason_in};
ghost use Rattle.meaning.specs.Reader.{value_reason};
ghost use Rattle.meaning.specs.Writer.{writable};
ghost use Rattle.grants.specs.Held.{IsRole};
ghost use Rattle.cells.specs.Rows.{RowOf, IsRow, takes_zero, width_of, vacant_in};

use grants::RoleGrants;
use meaning::{Cell, Reason};

// The rows of the register table. A stage's two registers are alike, and so are those of 2208 and 220C and the later two addresses of a
// scaler.
#[derive(Clone, Copy)]
pub enum Row {
    AlphaConstants,
    TargetAddress,
    Location,
    Format,
    Stage,
    Levels,
    Filters,
    Mapping,
    Overlay,
    AlphaSelect,
    Deinterlace,
    SubPicture,
    FirstAddress,
    Address,
    DestinationStride,
    SourceStride,
}

// 7 to 9 of a value, by the row of its register. `part` are the grants of the role of the row's addresses, if it has any.
#[tactic(auto, unfolding(crate::specs::Rows::width_of))]
fn row_reason(row: Row, value: u32, part: &RoleGrants<'_>) -> Result<(), Reason>
    requires narrow { value < 2 ^ width_of row }
    ensures reason { (g : Terms) (c role : ℕ) → RowOf row c role → ((role ≡ 0 → ⊥) → IsRole g role part.now) → reason_in result ≡ value_reason g (register_at (cell c)) value }
{
    match row {
        Row::AlphaConstants => rows_3d::alpha_constants_reason(value),
        Row::TargetAddress => rows_3d::target_address_reason(value, part),
        Row::Location => rows_3d::location_reason(value),
        Row::Format => rows_3d::format_reason(value),
        Row::Stage => rows_3d::stage_reason(value),
        Row::Levels => rows_3d::levels_reason(value),
        Row::Filters => rows_3d::filters_reason(value),
        Row::Mapping => rows_3d::mapping_reason(value),
        Row::Overlay => rows_video::overlay_reason(value),
        Row::AlphaSelect => rows_video::alpha_select_reason(value),
        Row::Deinterlace => rows_video::deinterlace_reason(value),
        Row::SubPicture => rows_video::sub_picture_reason(value),
        Row::FirstAddress => rows_video::first_address_reason(value, part),
        Row::Address => rows_video::address_reason(value, part),
        Row::DestinationStride => rows_video::destination_stride_reason(value),
        Row::SourceStride => rows_video::source_stride_reason(value),
    }
}

// Nothing speaks against 0 in a register of the row, whatever is granted.
#[tactic(auto, unfolding(crate::specs::Rows::takes_zero))]
fn takes_zero(row: Row) -> bool
    ensures zero { result ≡ takes_zero row }
{
    match row {
        Row::TargetAddress | Row::Format | Row::FirstAddress | Row::Address => false,
        _ => true,
    }
}

// The value is as narrow as the registers of the row: 24 bits, or a word.
#[tactic(auto, unfolding(crate::specs::Rows::width_of))]
fn narrow(row: Row, value: u32) -> bool
    ensures narrow { result ≡ ltb value (2 ^ width_of row) }
{
    match row {
        Row::AlphaConstants
        | Row::TargetAddress
        | Row::Location
        | Row::Format
        | Row::Stage
        | Row::Levels
        | Row::Filters
        | Row::Mapping => value <= 0xffffff,
        _ => true,
    }
}

// A value that needs no further look: 0 in a register that takes it, or in a cell that is unmarked. Most are 0.
fn vacant(state: &[u8], cell: Cell, row: Row, value: u32) -> bool
    requires whole { length (words_of state.now) ≡ state_words }
    requires inside { cell.0 < cells }
    ensures vacant { result ≡ vacant_in row value (mark_at (words_of state.now) cell) }
{
    value == 0 && (takes_zero(row) || states::mark(state, cell) == 0)
}

// A cell of the row may be written. The mark is looked at only where 0 is no value for the register: where a state is well-formed, an
// unmarked value is 0.
pub fn fine(state: &[u8], cell: Cell, row: Row, part: &RoleGrants<'_>) -> bool
    requires formed { T (well_formed (words_of state.now)) }
    requires row { IsRow row cell.0 }
    ensures fine { (g : Terms) (role : ℕ) → RowOf row cell.0 role → ((role ≡ 0 → ⊥) → IsRole g role part.now) → result ≡ writable g (words_of state.now) cell }
{
    let value = states::value(state, cell);
    vacant(state, cell, row, value) || (narrow(row, value) && row_reason(row, value, part).is_ok())
}
