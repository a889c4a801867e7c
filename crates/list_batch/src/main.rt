// Lists the state that a batch on standard input leaves from the empty state, or says why the batch comes back.
#![tactic(auto)]

ghost use Rattle.std.specs.Prelude.{◌≡◌, ◌+◌, ◌≤◌, ◌<◌, length, take, IfOk, OnOk};
ghost use Rattle.std.specs.Io.KnownBytes.{Appends, Consumes, IsAtEnd};
ghost use Rattle.laws.specs.Lists.{over};
ghost use Rattle.meaning.specs.Answers.{number_of};
ghost use Rattle.meaning.specs.Exported.{most_bytes, exported_read, exported_read_leaves};
ghost use Rattle.meaning.specs.Lister.{most_listed};
ghost use Rattle.list_batch.specs.Put.{Put};
ghost use Rattle.list_batch.specs.Printed.{digit_for, decimal5, refusal_line, k1_grant, printed};

use meaning::{MOST_BYTES, MOST_LISTED, STATE_WORDS};
use std::io;
use std::io::{Read, Write};

// The grant of K1: K1 "role 1, start 00100000h, length 00080000h, reach 00080000h".
const K1_GRANT: [u8; 20] = *b"\
    \x01\x00\x00\x00\
    \x00\x00\x10\x00\
    \x00\x00\x08\x00\
    \x00\x00\x08\x00\
    \x00\x00\x00\x00\
    ";

// One byte more than a call takes: a longer input is refused by its length, without being held whole.
const INPUT_ROOM: usize = MOST_BYTES + 1;

// As many bytes as the longest listing has; a refusal has fewer.
const TEXT_ROOM: usize = MOST_LISTED;

// Where the array is made, so that no proof but this one has to look at 65,537 zeros.
fn input_buffer() -> [u8; INPUT_ROOM]
    ensures whole { most_bytes + 1 ≡ length result }
{
    [0; INPUT_ROOM]
}

// Here and below the answer is where the text ends.
fn put_text(out: &mut [u8], at: usize, text: &[u8]) -> usize
    requires room { at + length text.now ≤ length out.old }
    ensures put { Put out.old at text.now out.new result }
{
    let mut i = 0;
    while i < text.len() {
        out[at + i] = text[i];
        i += 1;
    }
    at + i
}

// The digit of so many units, unless it would be a leading zero.
fn put_digit(out: &mut [u8], at: usize, n: u64, unit: u64) -> usize
    requires unit { 0 < unit }
    requires room { at < length out.old }
    ensures put { Put out.old at (digit_for unit n) out.new result }
{
    if n < unit {
        return at;
    }
    out[at] = (48 + n / unit % 10) as u8;
    at + 1
}

fn put_decimal(out: &mut [u8], at: usize, n: u64) -> usize
    requires room { at + 5 ≤ length out.old }
    ensures put { Put out.old at (decimal5 n) out.new result }
{
    let at = put_digit(out, at, n, 10000);
    let at = put_digit(out, at, n, 1000);
    let at = put_digit(out, at, n, 100);
    let at = put_digit(out, at, n, 10);
    out[at] = (48 + n % 10) as u8;
    at + 1
}

fn put_refusal(out: &mut [u8], reason: u64, place: u64) -> usize
    requires room { 25 ≤ length out.old }
    ensures put { Put out.old 0 (refusal_line reason place) out.new result }
{
    let at = put_text(out, 0, b"reason=");
    let at = put_decimal(out, at, reason);
    let at = put_text(out, at, b" place=");
    let at = put_decimal(out, at, place);
    put_text(out, at, b"\n")
}

// Reads a batch under K1's grant. The answer is the call's number.
fn read_under_k1(batch: &[u8], state: &mut [u8]) -> u64
    ensures number { result ≡ number_of (exported_read batch.now k1_grant state.old) }
    ensures bytes { state.new ≡ exported_read_leaves batch.now k1_grant state.old }
{
    let grant = K1_GRANT;
    irangelda::irangelda_read(batch, &grant, state)
}

// What is printed of a batch. The answer is how many bytes that is.
fn report(batch: &[u8], out: &mut [u8]) -> usize
    requires room { length out.old ≡ most_listed }
    ensures count { result ≡ length (printed batch.now) }
    ensures text { out.new ≡ over (printed batch.now) out.old }
{
    let mut state = [0u8; 4 * STATE_WORDS];
    let answer = read_under_k1(batch, &mut state);
    let reason = answer % 256;
    if reason != 0 {
        return put_refusal(out, reason, answer / 256);
    }
    let listed = irangelda::irangelda_list(&state, out);
    (listed / 256) as usize
}

// Reads until the room is full or the input has ended. The answer is how many bytes that is.
fn read_full<R: Read>(from: &mut R, room: &mut [u8]) -> io::Result<usize>
    ensures inside { IfOk result (λ got. got ≤ length room.new) }
    ensures bytes { IfOk result (λ got. Consumes (R.remaining from.old) (R.remaining from.new) (take got room.new)) }
    ensures end { IfOk result (λ got. got < length room.new → IsAtEnd (R.remaining from.new)) }
{
    let mut got = 0;
    while got < room.len() {
        let more = from.read(&mut room[got..])?;
        if more == 0 {
            return Ok(got);
        }
        got += more;
    }
    Ok(got)
}

// Writes what is printed of a batch.
fn write_report<W: Write>(batch: &[u8], to: &mut W) -> io::Result<()>
    ensures text { OnOk result (Appends (W.contents to.old) (W.contents to.new) (printed batch.now)) }
{
    let mut text = [0u8; TEXT_ROOM];
    let count = report(batch, &mut text);
    to.write_all(&text[..count])
}

// A batch that was not read whole is not listed.
fn main(rt: HostRuntime) -> io::Result<()> {
    let mut input = input_buffer();
    let mut from = rt.stdin();
    match read_full(&mut from, &mut input) {
        Ok(got) => write_report(&input[..got], &mut rt.stdout()),
        Err(_) => eprintln!(rt; "list_batch: standard input cannot be read to its end"),
    }
}
