// The calls of the driver: every buffer is bytes, and the answer is one number. Crate irangelda_c exports them to C.
#![tactic(auto)]

ghost use Rattle.std.specs.Prelude.{◌≡◌, ◌&&◌, [], ◌∷◌, ◌≤◌};
ghost use Rattle.laws.specs.Lists.{every};
ghost use Rattle.meaning.specs.Answers as answers;
ghost use Rattle.meaning.specs.Answers.{number_of};
ghost use Rattle.meaning.specs.Registers as registers;
ghost use Rattle.meaning.specs.Exported as exported;

use meaning::{Answer, Cell, MOST_BYTES, Reason};

// 13: no buffer is over 65,536 bytes,
fn buffer_fine(bytes: &[u8]) -> bool
    ensures fine { result ≡ exported.buffer_fine bytes.now }
{
    bytes.len() <= MOST_BYTES
}

// and a buffer of words is a multiple of 4.
fn word_buffer_fine(bytes: &[u8]) -> bool
    ensures fine { result ≡ exported.word_buffer_fine bytes.now }
{
    if !buffer_fine(bytes) {
        return false;
    }
    bytes.len() % 4 == 0
}

// The same of the three buffers of words that reader and writer are lent.
fn word_buffers_fine(first: &[u8], second: &[u8], third: &[u8]) -> bool
    ensures fine { result ≡ every exported.word_buffer_fine (first.now ∷ second.now ∷ third.now ∷ []) }
{
    if !buffer_fine(first) {
        return false;
    }
    if !buffer_fine(second) {
        return false;
    }
    if !buffer_fine(third) {
        return false;
    }
    (first.len() | second.len() | third.len()) % 4 == 0
}

// And of the two that lister and listing reader are lent: a state, which is words, and a text, which is bytes.
fn text_buffers_fine(state: &[u8], text: &[u8]) -> bool
    ensures fine { result ≡ exported.word_buffer_fine state.now && exported.buffer_fine text.now }
{
    if !word_buffer_fine(state) {
        return false;
    }
    buffer_fine(text)
}

// And of the two that size and query are lent.
fn two_buffers_fine(state: &[u8], grants: &[u8]) -> bool
    ensures fine { result ≡ exported.word_buffer_fine state.now && exported.word_buffer_fine grants.now }
{
    if !word_buffer_fine(state) {
        return false;
    }
    word_buffer_fine(grants)
}

// The answer as one number. No place is larger than a buffer is long.
fn number(answer: Answer) -> u64
    requires place { (answers.answer_in answer).place ≤ exported.most_bytes }
    ensures number { result ≡ number_of (answers.answer_in answer) }
{
    match answer {
        Ok(place) => place as u64 * 256,
        Err(refusal) => refusal.place as u64 * 256 + refusal.reason as u64,
    }
}

// Reads a batch: 13, 1, 2, then what the first bad word gives, or 10; else 0 and the batch's length in words. The state is changed only if
// the whole batch is accepted.
pub fn irangelda_read(batch: &[u8], grants: &[u8], state: &mut [u8]) -> u64
    ensures number { result ≡ number_of (exported.exported_read batch.now grants.now state.old) }
    ensures bytes { state.new ≡ exported.exported_read_leaves batch.now grants.now state.old }
{
    if !word_buffers_fine(batch, grants, state) {
        return Reason::BadBuffer as u64;
    }
    number(reader::read(batch, grants, state))
}

// Tells how many words the batch has that reaches a state from the empty state: 13, 1, 2 and 12, else 0 and the words that irangelda_write
// needs.
pub fn irangelda_size(state: &[u8], grants: &[u8]) -> u64
    ensures number { result ≡ number_of (exported.exported_size state.now grants.now) }
{
    if !two_buffers_fine(state, grants) {
        return Reason::BadBuffer as u64;
    }
    number(writer::size(state, grants))
}

// Writes the batch that reaches a state from the empty state: 13, 1, 2, 12 and 11 in the order of the rules, else 0 and the words written.
pub fn irangelda_write(state: &[u8], grants: &[u8], out: &mut [u8]) -> u64
    ensures number { result ≡ number_of (exported.exported_write state.now grants.now out.old) }
    ensures bytes { out.new ≡ exported.exported_write_leaves state.now grants.now out.old }
{
    if !word_buffers_fine(state, grants, out) {
        return Reason::BadBuffer as u64;
    }
    number(writer::write(state, grants, out))
}

// Lists a state: 13, 1 and 11, else 0 and the bytes written.
pub fn irangelda_list(state: &[u8], out: &mut [u8]) -> u64
    ensures number { result ≡ number_of (exported.exported_list state.now out.old) }
    ensures bytes { out.new ≡ exported.exported_list_leaves state.now out.old }
{
    if !text_buffers_fine(state, out) {
        return Reason::BadBuffer as u64;
    }
    number(lister::list(state, out))
}

// Reads a listing back: 13, 1 and 19, else 0 and the listing's length. The state is changed only if the whole text is a listing.
pub fn irangelda_read_listing(listing: &[u8], state: &mut [u8]) -> u64
    ensures number { result ≡ number_of (exported.exported_read_listing listing.now state.old) }
    ensures bytes { state.new ≡ exported.exported_read_listing_leaves listing.now state.old }
{
    if !text_buffers_fine(state, listing) {
        return Reason::BadBuffer as u64;
    }
    number(listing_reader::read_listing(listing, state))
}

// Which grant admits the address in a cell: 13, 1 and 2, else 0 and the number of the grant, or 64 where there is none. The cell is any
// number.
pub fn irangelda_which_grant(state: &[u8], grants: &[u8], cell: u32) -> u64
    ensures number { result ≡ number_of (exported.exported_which_grant state.now grants.now (registers.cell cell)) }
{
    if !two_buffers_fine(state, grants) {
        return Reason::BadBuffer as u64;
    }
    number(query::which_grant(state, grants, Cell(cell as usize)))
}
