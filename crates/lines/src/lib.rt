// The lines of a listing, one for a cell: stored byte by byte at a place of the output. The digits are read out of a table of pairs,
// which the caller lends: a lookup costs half of what the arithmetic of two digits does.
#![tactic(auto)]

ghost use Rattle.std.specs.Prelude.{◌≡◌, ◌++◌, ◌+◌, ◌<◌, ◌≤◌, length};
ghost use Rattle.std.proofs.lemmas.List.Edits.{sets};
ghost use Rattle.meaning.specs.Registers.{first_video, end_video};
ghost use Rattle.meaning.specs.Text.{ascii};
ghost use Rattle.meaning.specs.Lister.{hex};
ghost use Rattle.lines.specs.Lines.{digit_pairs, value_text, cell_line_3d, cell_line_video};

use meaning::Cell;

// The two lowest digits of a number. Both are read before one is stored, so that they move as one.
fn put_pair(pairs: &[u8; 512], out: &mut [u8], at: usize, n: u32)
    requires table { pairs.now ≡ digit_pairs }
    requires room { at + 2 ≤ length out.old }
    ensures stored { out.new ≡ sets out.old at (hex 2 n) }
{
    let i = (n % 256) as usize * 2;
    let high = pairs[i];
    let low = pairs[i + 1];
    out[at] = high;
    out[at + 1] = low;
}

// All eight digits.
fn put_word(pairs: &[u8; 512], out: &mut [u8], at: usize, w: u32)
    requires table { pairs.now ≡ digit_pairs }
    requires room { at + 8 ≤ length out.old }
    ensures stored { out.new ≡ sets out.old at (hex 8 w) }
{
    put_pair(pairs, out, at, w / 0x1000000);
    put_pair(pairs, out, at + 2, w / 0x10000);
    put_pair(pairs, out, at + 4, w / 0x100);
    put_pair(pairs, out, at + 6, w);
}

// A type or a sub-type, and the dot behind it.
fn put_dotted(pairs: &[u8; 512], out: &mut [u8], at: usize, n: u32)
    requires table { pairs.now ≡ digit_pairs }
    requires room { at + 3 ≤ length out.old }
    ensures stored { out.new ≡ sets out.old at (hex 2 n ++ ascii ".") }
{
    put_pair(pairs, out, at, n);
    out[at + 2] = b'.';
}

// A fixed text is stored byte by byte, which compiles to wider stores.
fn put_reg_key(out: &mut [u8], at: usize)
    requires room { at + 4 ≤ length out.old }
    ensures stored { out.new ≡ sets out.old at (ascii "reg=") }
{
    out[at] = b'r';
    out[at + 1] = b'e';
    out[at + 2] = b'g';
    out[at + 3] = b'=';
}

fn put_val_key(out: &mut [u8], at: usize)
    requires room { at + 5 ≤ length out.old }
    ensures stored { out.new ≡ sets out.old at (ascii " val=") }
{
    out[at] = b' ';
    out[at + 1] = b'v';
    out[at + 2] = b'a';
    out[at + 3] = b'l';
    out[at + 4] = b'=';
}

// The second half of a line, which both kinds of line share.
fn put_value(pairs: &[u8; 512], out: &mut [u8], at: usize, value: u32)
    requires table { pairs.now ≡ digit_pairs }
    requires room { at + 14 ≤ length out.old }
    ensures stored { out.new ≡ sets out.old at (value_text value) }
{
    put_val_key(out, at);
    put_word(pairs, out, at + 5, value);
    out[at + 13] = b'\n';
}

// As `reg=01.00.50 val=00001000`.
pub fn put_line_3d(pairs: &[u8; 512], out: &mut [u8], at: usize, cell: Cell, value: u32)
    requires table { pairs.now ≡ digit_pairs }
    requires cell { cell.0 < first_video }
    requires room { at + 26 ≤ length out.old }
    ensures stored { out.new ≡ sets out.old at (cell_line_3d cell value) }
{
    let name = registers::name_of(cell);
    let address = name.address;
    put_reg_key(out, at);
    put_dotted(pairs, out, at + 4, name.ty);
    put_dotted(pairs, out, at + 7, name.sub);
    put_pair(pairs, out, at + 10, address.0);
    put_value(pairs, out, at + 12, value);
}

// As `reg=23f0 val=00001000`.
pub fn put_line_video(pairs: &[u8; 512], out: &mut [u8], at: usize, cell: Cell, value: u32)
    requires table { pairs.now ≡ digit_pairs }
    requires low { first_video ≤ cell.0 }
    requires high { cell.0 < end_video }
    requires room { at + 22 ≤ length out.old }
    ensures stored { out.new ≡ sets out.old at (cell_line_video cell value) }
{
    let offset = registers::offset_of(cell);
    put_reg_key(out, at);
    put_pair(pairs, out, at + 4, offset.0 / 0x100);
    put_pair(pairs, out, at + 6, offset.0);
    put_value(pairs, out, at + 8, value);
}
