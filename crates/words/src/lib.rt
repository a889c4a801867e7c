// Words of 32 bits in buffers of bytes, the lowest byte first. A word is read where it is used, and no buffer of words is held.
#![tactic(auto)]

ghost use Rattle.std.specs.Prelude.{◌≡◌, [], ◌∷◌, ◌<◌, ◌/◌, length, get_or};
ghost use Rattle.meaning.specs.Words.{words_of};
ghost use Rattle.words.specs.Stores.{put_words};

// A parameter is known to be a byte, which an element of a slice is not.
fn wide(byte: u8) -> u32
    ensures same { result ≡ byte }
    ensures byte { result < 256 }
{
    byte as u32
}

// Word number i. The sum of four bytes in this order compiles to one load of 32 bits.
pub fn word(bytes: &[u8], i: usize) -> u32
    requires inside { i < length bytes.now / 4 }
    ensures word { result ≡ get_or (words_of bytes.now) i 0 }
{
    let at = i * 4;
    wide(bytes[at])
        + wide(bytes[at + 1]) * 256
        + wide(bytes[at + 2]) * 65536
        + wide(bytes[at + 3]) * 16777216
}

// Stores word number i. The four stores in this order compile to one of 32 bits.
pub fn put_word(bytes: &mut [u8], i: usize, w: u32)
    requires inside { i < length bytes.old / 4 }
    ensures stored { bytes.new ≡ put_words bytes.old i (w ∷ []) }
{
    let at = i * 4;
    bytes[at] = (w % 256) as u8;
    bytes[at + 1] = (w / 256 % 256) as u8;
    bytes[at + 2] = (w / 65536 % 256) as u8;
    bytes[at + 3] = (w / 16777216 % 256) as u8;
}
