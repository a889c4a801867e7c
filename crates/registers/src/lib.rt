// The register table: the name that a cell has.
#![tactic(auto)]

ghost use Rattle.std.specs.Prelude.{◌≡◌, ◌<◌, ◌≤◌};
ghost use Rattle.meaning.specs.Registers.{first_video, end_video};
ghost use Rattle.registers.specs.Names.{name_of, offset_of};

use meaning::{Cell, SubAddress, VideoOffset};

// R19 "The name of a 3D register is its type, its sub-type and its sub-address, all three".
#[derive(Clone, Copy)]
pub struct Name {
    pub ty: u32,
    pub sub: u32,
    pub address: SubAddress,
}

// The name of a 3D cell.
pub fn name_of(cell: Cell) -> Name
    requires cell { cell.0 < first_video }
    ensures name { result ≡ name_of cell }
{
    let c = cell.0;
    match c {
        0 => Name {
            ty: 0x01,
            sub: 0x00,
            address: SubAddress(0x3f),
        },
        1..=3 => Name {
            ty: 0x01,
            sub: 0x00,
            address: SubAddress(0x4f + c as u32),
        },
        4..=35 => Name {
            ty: 0x02,
            sub: ((c - 4) / 2) as u32,
            address: SubAddress(0x50 + ((c - 4) % 2) as u32),
        },
        _ => Name {
            ty: 0x02,
            sub: 0x20 + ((c - 36) / 3) as u32,
            address: SubAddress(0x30 + ((c - 36) % 3) as u32),
        },
    }
}

// The offset of a video cell.
pub fn offset_of(cell: Cell) -> VideoOffset
    requires low { first_video ≤ cell.0 }
    requires high { cell.0 < end_video }
    ensures offset { result ≡ offset_of cell }
{
    let c = cell.0 as u32;
    match c {
        0..=86 => VideoOffset(0x2208 + 4 * (c - 84)),
        87..=93 => VideoOffset(0x23e4 + 4 * (c - 87)),
        _ => VideoOffset(0x33e4 + 4 * (c - 94)),
    }
}
