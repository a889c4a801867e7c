// Reads a listing on standard input back, and writes the batch that makes its state of the empty one, or why there is none: numbers and words
// as the C calls give them.
#![tactic(auto)]

ghost use Rattle.std.specs.Prelude.{◌≡◌, ◌+◌, ◌≤◌, ◌<◌, length, take, IfOk, OnOk};
ghost use Rattle.std.specs.Io.KnownBytes.{Appends, Consumes, IsAtEnd};
ghost use Rattle.laws.specs.Lists.{over};
ghost use Rattle.meaning.specs.Exported.{most_bytes};
ghost use Rattle.restore_listing.specs.Restored.{number_bytes, rewritten, restored, most_rewritten, most_restored};

use meaning::{MOST_BYTES, MOST_WRITTEN, STATE_WORDS};
use std::io;
use std::io::{Read, Write};

// The grant of K1: K1 "role 1, start 00100000h, length 00080000h, reach 00080000h".
const K1_GRANT: [u8; 20] = *b"\
    \x01\x00\x00\x00\
    \x00\x00\x10\x00\
    \x00\x00\x08\x00\
    \x00\x00\x08\x00\
    \x00\x00\x00\x00\
    ";

// One byte more than a call takes: a longer input is refused by its length, without being held whole.
const INPUT_ROOM: usize = MOST_BYTES + 1;

// The bytes of a number, and of two numbers with the longest batch.
const NUMBER: usize = 8;

const OUTPUT_ROOM: usize = 2 * NUMBER + 4 * MOST_WRITTEN;

// Where the array is made, so that no proof but this one has to look at 65,537 zeros.
fn input_buffer() -> [u8; INPUT_ROOM]
    ensures whole { most_bytes + 1 ≡ length result }
{
    [0; INPUT_ROOM]
}

// Puts a number in front.
fn put_number(out: &mut [u8], n: u64)
    requires room { 8 ≤ length out.old }
    ensures put { out.new ≡ over (number_bytes n) out.old }
{
    let mut left = n;
    let mut i = 0;
    while i < NUMBER {
        out[i] = (left % 256) as u8;
        left /= 256;
        i += 1;
    }
}

// What is written of a state: the writer's number, and the words behind it. Here and below the answer is how many bytes that is.
fn put_batch(state: &[u8], out: &mut [u8]) -> usize
    requires room { length out.old ≡ most_rewritten }
    ensures count { result ≡ length (rewritten state.now) }
    ensures bytes { out.new ≡ over (rewritten state.now) out.old }
{
    let grant = K1_GRANT;
    let number = irangelda::irangelda_write(state, &grant, &mut out[NUMBER..]);
    put_number(out, number);
    if number % 256 != 0 {
        return NUMBER;
    }
    NUMBER + (number / 256) as usize * 4
}

// What is written of a text.
fn report(text: &[u8], out: &mut [u8]) -> usize
    requires room { length out.old ≡ most_restored }
    ensures count { result ≡ length (restored text.now) }
    ensures bytes { out.new ≡ over (restored text.now) out.old }
{
    let mut state = [0u8; 4 * STATE_WORDS];
    let number = irangelda::irangelda_read_listing(text, &mut state);
    put_number(out, number);
    if number % 256 != 0 {
        return NUMBER;
    }
    NUMBER + put_batch(&state, &mut out[NUMBER..])
}

// Reads until the room is full or the input has ended. The answer is how many bytes that is.
fn read_full<R: Read>(from: &mut R, room: &mut [u8]) -> io::Result<usize>
    ensures inside { IfOk result (λ got. got ≤ length room.new) }
    ensures bytes { IfOk result (λ got. Consumes (R.remaining from.old) (R.remaining from.new) (take got room.new)) }
    ensures end { IfOk result (λ got. got < length room.new → IsAtEnd (R.remaining from.new)) }
{
    let mut got = 0;
    while got < room.len() {
        let more = from.read(&mut room[got..])?;
        if more == 0 {
            return Ok(got);
        }
        got += more;
    }
    Ok(got)
}

// Writes what there is to write of a text.
fn write_report<W: Write>(text: &[u8], to: &mut W) -> io::Result<()>
    ensures bytes { OnOk result (Appends (W.contents to.old) (W.contents to.new) (restored text.now)) }
{
    let mut out = [0u8; OUTPUT_ROOM];
    let count = report(text, &mut out);
    to.write_all(&out[..count])
}

// A text that was not read whole is not taken for one.
fn main(rt: HostRuntime) -> io::Result<()> {
    let mut input = input_buffer();
    let mut from = rt.stdin();
    match read_full(&mut from, &mut input) {
        Ok(got) => write_report(&input[..got], &mut rt.stdout()),
        Err(_) => eprintln!(rt; "restore_listing: standard input cannot be read to its end"),
    }
}
