// The search for the lowest cell of a state that may not be written.
#![tactic(auto)]

ghost use Rattle.std.specs.Prelude.{◌≡◌, ℕ, T};
ghost use Rattle.std.specs.Result.{result_err};
ghost use Rattle.meaning.specs.Words.{words_of};
ghost use Rattle.meaning.specs.Registers.{cells};
ghost use Rattle.meaning.specs.Grants.{Terms};
ghost use Rattle.meaning.specs.State.{well_formed};
ghost use Rattle.meaning.specs.Writer.{lowest_bad};
ghost use Rattle.grants.specs.Held.{IsRole, IsKept};
ghost use Rattle.rows_video.specs.Scalers.{Scaler, IsScaler};
ghost use Rattle.cells.specs.Rows.{RowOf, IsRow};
ghost use Rattle.search.specs.Search.{IsStage, IsSample};

use cells::Row;
use grants::{Kept, RoleGrants};
use meaning::Cell;

// A cell of the row may be written; else it is the cell that was searched for. `part` are the grants of the role of the row's addresses, if it
// has any.
fn writable(state: &[u8], cell: Cell, row: Row, part: &RoleGrants<'_>) -> Result<(), Cell>
    requires formed { T (well_formed (words_of state.now)) }
    requires row { IsRow row cell.0 }
    ensures lowest { (g : Terms) (role : ℕ) → RowOf row cell.0 role → ((role ≡ 0 → ⊥) → IsRole g role part.now) → result_err result ≡ lowest_bad g (words_of state.now) cell.0 1 }
{
    if cells::fine(state, cell, row, part) {
        Ok(())
    } else {
        Err(cell)
    }
}

// The cells of 01.00 may be written, or the lowest that may not is told; the same below for the other sections of the table.
fn target_writable(state: &[u8], part: &RoleGrants<'_>) -> Result<(), Cell>
    requires formed { T (well_formed (words_of state.now)) }
    ensures lowest { (g : Terms) → IsRole g 1 part.now → result_err result ≡ lowest_bad g (words_of state.now) 0 4 }
{
    writable(state, Cell(0), Row::AlphaConstants, part)?;
    writable(state, Cell(1), Row::TargetAddress, part)?;
    writable(state, Cell(2), Row::Location, part)?;
    writable(state, Cell(3), Row::Format, part)
}

// A stage, whose first cell is `first`. It holds no address, so any grants will do; the same of a sample and of 2208 to 2210.
fn stage_writable(state: &[u8], first: usize, part: &RoleGrants<'_>) -> Result<(), Cell>
    requires formed { T (well_formed (words_of state.now)) }
    requires stage { IsStage first }
    ensures lowest { (g : Terms) → result_err result ≡ lowest_bad g (words_of state.now) first 2 }
{
    writable(state, Cell(first), Row::Stage, part)?;
    writable(state, Cell(first + 1), Row::Stage, part)
}

// A sample.
fn sample_writable(state: &[u8], first: usize, part: &RoleGrants<'_>) -> Result<(), Cell>
    requires formed { T (well_formed (words_of state.now)) }
    requires sample { IsSample first }
    ensures lowest { (g : Terms) → result_err result ≡ lowest_bad g (words_of state.now) first 3 }
{
    writable(state, Cell(first), Row::Levels, part)?;
    writable(state, Cell(first + 1), Row::Filters, part)?;
    writable(state, Cell(first + 2), Row::Mapping, part)
}

// 2208, 220C and 2210.
fn overlay_writable(state: &[u8], part: &RoleGrants<'_>) -> Result<(), Cell>
    requires formed { T (well_formed (words_of state.now)) }
    ensures lowest { (g : Terms) → result_err result ≡ lowest_bad g (words_of state.now) 84 3 }
{
    writable(state, Cell(84), Row::Overlay, part)?;
    writable(state, Cell(85), Row::Overlay, part)?;
    writable(state, Cell(86), Row::AlphaSelect, part)
}

// The seven registers of a scaler, whose first cell is `own`.
fn scaler_writable(state: &[u8], own: usize, part: &RoleGrants<'_>) -> Result<(), Cell>
    requires formed { T (well_formed (words_of state.now)) }
    requires scaler { IsScaler own }
    ensures lowest { (g : Terms) (role : ℕ) → Scaler own role → IsRole g role part.now → result_err result ≡ lowest_bad g (words_of state.now) own 7 }
{
    writable(state, Cell(own), Row::Deinterlace, part)?;
    writable(state, Cell(own + 1), Row::SubPicture, part)?;
    writable(state, Cell(own + 2), Row::FirstAddress, part)?;
    writable(state, Cell(own + 3), Row::Address, part)?;
    writable(state, Cell(own + 4), Row::DestinationStride, part)?;
    writable(state, Cell(own + 5), Row::SourceStride, part)?;
    writable(state, Cell(own + 6), Row::Address, part)
}

// All cells, section after section, in their order. Sections that are alike follow one another in a loop, which is compiled for them alone;
// one loop that asks each section what it is costs a state of few cells a quarter more.
fn all_writable(state: &[u8], kept: &Kept<'_>) -> Result<(), Cell>
    requires formed { T (well_formed (words_of state.now)) }
    ensures lowest { (g : Terms) → IsKept g kept.now → result_err result ≡ lowest_bad g (words_of state.now) 0 cells }
{
    let part = kept.part_of(1);
    target_writable(state, &part)?;
    for n in 0..16usize {
        stage_writable(state, 4 + 2 * n, &part)?;
    }
    for n in 0..16usize {
        sample_writable(state, 36 + 3 * n, &part)?;
    }
    overlay_writable(state, &part)?;
    for n in 0..2usize {
        scaler_writable(state, 87 + 7 * n, &kept.part_of(2 + n))?;
    }
    Ok(())
}

// The lowest cell that may not be written, if there is one.
pub fn lowest_bad(state: &[u8], kept: &Kept<'_>) -> Option<Cell>
    requires formed { T (well_formed (words_of state.now)) }
    ensures lowest { (g : Terms) → IsKept g kept.now → result ≡ lowest_bad g (words_of state.now) 0 cells }
{
    all_writable(state, kept).err()
}
