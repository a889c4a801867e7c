// What speaks against a value of a 3D register: a function for each row of the table. Which register a word is for
// is the callers' matter.
#![tactic(auto, using(crate::proofs::Registers::rows), unfolding(meaning::specs::Reader::unless))]

ghost use Rattle.std.specs.Prelude.{◌≡◌, ℕ, ◌+◌, ◌*◌, ◌≤◌, ◌<◌, ◌^◌};
ghost use Rattle.meaning.specs.Registers.{cell, register_at};
ghost use Rattle.meaning.specs.Grants.{Terms};
ghost use Rattle.meaning.specs.Answers.{bad_value, success, reason_in};
ghost use Rattle.meaning.specs.Reader.{unless, value_reason};
ghost use Rattle.grants.specs.Held.{IsRole};

use grants::RoleGrants;
use meaning::{Memory, Reason};
use rules::{alpha_constants, format_byte, location, must_be_clear};
use sampling::{filters, levels, mapping};

// 8 where the value rule is broken. It is asked once the mask has been: so no value is looked at twice.
fn ruled_reason(obeyed: bool) -> Result<(), Reason>
    ensures reason { reason_in result ≡ unless obeyed bad_value success }
{
    if !obeyed {
        return Err(Reason::BadValue);
    }
    Ok(())
}

// 01.00.3F, cell 0.
pub fn alpha_constants_reason(value: u32) -> Result<(), Reason>
    ensures reason { (g : Terms) → reason_in result ≡ value_reason g (register_at (cell 0)) value }
{
    if !must_be_clear(value, 0x800800) {
        return Err(Reason::BitSet);
    }
    ruled_reason(alpha_constants(value))
}

// The target's address is in steps of 256, so that a value of 24 bits names any of them.
const TARGET_STEP: u32 = 256;

// The address in 01.00.50.
pub fn target_address(value: u32) -> u32
    requires narrow { value < 2 ^ 24 }
    ensures address { result ≡ value * 256 }
{
    value * TARGET_STEP
}

// 01.00.50, cell 1. `part` are the grants of the address's role.
pub fn target_address_reason(value: u32, part: &RoleGrants<'_>) -> Result<(), Reason>
    requires narrow { value < 2 ^ 24 }
    ensures reason { (g : Terms) → IsRole g 1 part.now → reason_in result ≡ value_reason g (register_at (cell 1)) value }
{
    let a = target_address(value);
    part.which(Memory::Either, a).ok_or(Reason::NotGranted)?;
    Ok(())
}

// 01.00.51, cell 2.
pub fn location_reason(value: u32) -> Result<(), Reason>
    ensures reason { (g : Terms) → reason_in result ≡ value_reason g (register_at (cell 2)) value }
{
    if !must_be_clear(value, 0x0fffff) {
        return Err(Reason::BitSet);
    }
    ruled_reason(location(value))
}

// 01.00.52, cell 3.
pub fn format_reason(value: u32) -> Result<(), Reason>
    ensures reason { (g : Terms) → reason_in result ≡ value_reason g (register_at (cell 3)) value }
{
    if !must_be_clear(value, 0x006fff) {
        return Err(Reason::BitSet);
    }
    ruled_reason(format_byte(value))
}

// 02.0n.50 and .51, cells 4 to 35: two for each stage, and all of them alike.
pub fn stage_reason(value: u32) -> Result<(), Reason>
    ensures reason { (g : Terms) (c : ℕ) → 4 ≤ c → c < 36 → reason_in result ≡ value_reason g (register_at (cell c)) value }
{
    if !must_be_clear(value, 0xff0000) {
        return Err(Reason::BitSet);
    }
    Ok(())
}

// 02.2n.30, cells 36+3n.
pub fn levels_reason(value: u32) -> Result<(), Reason>
    ensures reason { (g : Terms) (n : ℕ) → n < 16 → reason_in result ≡ value_reason g (register_at (cell (36 + 3 * n))) value }
{
    if !must_be_clear(value, 0xc00000) {
        return Err(Reason::BitSet);
    }
    ruled_reason(levels(value))
}

// 02.2n.31, cells 37+3n.
pub fn filters_reason(value: u32) -> Result<(), Reason>
    ensures reason { (g : Terms) (n : ℕ) → n < 16 → reason_in result ≡ value_reason g (register_at (cell (37 + 3 * n))) value }
{
    if !must_be_clear(value, 0xe00000) {
        return Err(Reason::BitSet);
    }
    ruled_reason(filters(value))
}

// 02.2n.32, cells 38+3n.
pub fn mapping_reason(value: u32) -> Result<(), Reason>
    ensures reason { (g : Terms) (n : ℕ) → n < 16 → reason_in result ≡ value_reason g (register_at (cell (38 + 3 * n))) value }
{
    if !must_be_clear(value, 0xc0fe00) {
        return Err(Reason::BitSet);
    }
    ruled_reason(mapping(value))
}
