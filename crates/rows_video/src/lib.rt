// What speaks against a value of a video register: a function for each row of the table. Which register a word is
// for is the callers' matter.
#![tactic(auto, using(crate::proofs::Registers::rows), unfolding(meaning::specs::Reader::unless))]

ghost use Rattle.std.specs.Prelude.{◌≡◌, ℕ, ◌+◌, ◌*◌, ◌≤◌, ◌<◌, eqb};
ghost use Rattle.std.specs.Int.Bits.{bit_and};
ghost use Rattle.meaning.specs.Words.{bits};
ghost use Rattle.meaning.specs.Registers.{cell, register_at};
ghost use Rattle.meaning.specs.Grants.{Terms};
ghost use Rattle.meaning.specs.Answers.{bit_set, success, reason_in};
ghost use Rattle.meaning.specs.Reader.{unless, value_reason};
ghost use Rattle.grants.specs.Held.{IsRole};
ghost use Rattle.rows_video.specs.Scalers.{Scaler, address_register};

use grants::RoleGrants;
use meaning::{Memory, Reason};
use rules::{alpha_select, memory_location, must_be_clear};

// 7 where a bit of the mask is set.
fn masked_reason(value: u32, mask: u32) -> Result<(), Reason>
    ensures reason { reason_in result ≡ unless (eqb (bit_and value mask) 0) bit_set success }
{
    if !must_be_clear(value, mask) {
        return Err(Reason::BitSet);
    }
    Ok(())
}

// 2208 and 220C, cells 84 and 85.
pub fn overlay_reason(value: u32) -> Result<(), Reason>
    ensures reason { (g : Terms) (c : ℕ) → 84 ≤ c → c < 86 → reason_in result ≡ value_reason g (register_at (cell c)) value }
{
    masked_reason(value, 0xf800f800)
}

// 2210, cell 86.
pub fn alpha_select_reason(value: u32) -> Result<(), Reason>
    ensures reason { (g : Terms) → reason_in result ≡ value_reason g (register_at (cell 86)) value }
{
    if !must_be_clear(value, 0xffe000fc) {
        return Err(Reason::BitSet);
    }
    if !alpha_select(value) {
        return Err(Reason::BadValue);
    }
    Ok(())
}

// The address in a scaler's register: bits 28:4 kept in place, the rest 0.
pub fn scaler_address(value: u32) -> u32
    ensures address { result ≡ bits 28 4 value * 16 }
{
    value / 16 % 0x2000000 * 16
}

// A scaler's register that holds an address. Here and below `part` are the grants of the address's role.
fn scaler_address_reason(value: u32, mask: u32, part: &RoleGrants<'_>) -> Result<(), Reason>
    ensures reason { (g : Terms) (role : ℕ) → IsRole g role part.now → reason_in result ≡ value_reason g (address_register role mask) value }
{
    if !must_be_clear(value, mask) {
        return Err(Reason::BitSet);
    }
    if !memory_location(value) {
        return Err(Reason::BadValue);
    }
    let a = scaler_address(value);
    part.which(Memory::Either, a).ok_or(Reason::NotGranted)?;
    Ok(())
}

// The registers of a scaler. The two differ in nothing but the role of their addresses.

// 23E4 and 33E4: cells 87 and 94.
pub fn deinterlace_reason(value: u32) -> Result<(), Reason>
    ensures reason { (g : Terms) (c role : ℕ) → Scaler c role → reason_in result ≡ value_reason g (register_at (cell c)) value }
{
    masked_reason(value, 0x76ffe0fe)
}

// 23E8 and 33E8: cells 88 and 95.
pub fn sub_picture_reason(value: u32) -> Result<(), Reason>
    ensures reason { (g : Terms) (c role : ℕ) → Scaler c role → reason_in result ≡ value_reason g (register_at (cell (c + 1))) value }
{
    masked_reason(value, 0x6ffe0000)
}

// 23EC and 33EC: cells 89 and 96.
pub fn first_address_reason(value: u32, part: &RoleGrants<'_>) -> Result<(), Reason>
    ensures reason { (g : Terms) (c role : ℕ) → Scaler c role → IsRole g role part.now → reason_in result ≡ value_reason g (register_at (cell (c + 2))) value }
{
    scaler_address_reason(value, 0x2000000c, part)
}

// 23F0, 23FC, 33F0 and 33FC: cells 90, 93, 97 and 100, which are alike.
pub fn address_reason(value: u32, part: &RoleGrants<'_>) -> Result<(), Reason>
    ensures second { (g : Terms) (c role : ℕ) → Scaler c role → IsRole g role part.now → reason_in result ≡ value_reason g (register_at (cell (c + 3))) value }
    ensures third { (g : Terms) (c role : ℕ) → Scaler c role → IsRole g role part.now → reason_in result ≡ value_reason g (register_at (cell (c + 6))) value }
{
    scaler_address_reason(value, 0xe000000c, part)
}

// 23F4 and 33F4: cells 91 and 98.
pub fn destination_stride_reason(value: u32) -> Result<(), Reason>
    ensures reason { (g : Terms) (c role : ℕ) → Scaler c role → reason_in result ≡ value_reason g (register_at (cell (c + 4))) value }
{
    masked_reason(value, 0xffffc00f)
}

// 23F8 and 33F8: cells 92 and 99.
pub fn source_stride_reason(value: u32) -> Result<(), Reason>
    ensures reason { (g : Terms) (c role : ℕ) → Scaler c role → reason_in result ≡ value_reason g (register_at (cell (c + 5))) value }
{
    masked_reason(value, 0x0decc00f)
}
