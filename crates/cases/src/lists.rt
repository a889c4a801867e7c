// Lists of words, each in a room of one size. How many words a list has stands in the last word of its room. A page can
// name any word of a room, also one behind the list, and the last one. Past the room nothing is read and nothing is stored.

use std::array;

// A word as it is lent: the lowest byte first.
pub(super) type Word = [u8; 4];

// The bytes of 1,024 words.
const ROOM: usize = 4096;

const LENGTH: usize = 1023;

// Kept: a room of bytes, which two lists are compared by: by words it takes several times as long.
#[derive(Clone, Copy, PartialEq, Eq)]
pub(super) struct List {
    room: [u8; ROOM],
}

impl List {
    // A list with no word, in a room of zeros.
    pub(super) fn new() -> List {
        List { room: [0; ROOM] }
    }

    // No word, and zeros in all the room.
    pub(super) fn clear(&mut self) {
        self.room = [0; ROOM];
    }

    // The words of the room.
    fn places(&self) -> &[Word] {
        let (places, _) = self.room[..].as_chunks::<4>();
        places
    }

    pub(super) fn get(&self, i: usize) -> u32 {
        self.places().get(i).copied().map_or(0, u32::from_le_bytes)
    }

    pub(super) fn put(&mut self, i: usize, word: u32) {
        let (places, _) = self.room[..].as_chunks_mut::<4>();
        if let Some(place) = places.get_mut(i) {
            *place = word.to_le_bytes();
        }
    }

    pub(super) fn len(&self) -> u32 {
        self.get(LENGTH)
    }

    // Makes the list so long, if there is room: words past the old end are whatever the room has there.
    pub(super) fn cut(&mut self, length: u32) {
        if length < 1023 {
            self.put(LENGTH, length);
        }
    }

    // Where the room is full, the word behind the list changes.
    pub(super) fn push(&mut self, word: u32) {
        let length = self.len();
        self.put(length as usize, word);
        self.cut(length.wrapping_add(1));
    }

    pub(super) fn push_words(&mut self, words: &[u32]) {
        for word in words {
            self.push(*word);
        }
    }

    pub(super) fn push_all(&mut self, list: &List) {
        for i in 0..list.len() {
            self.push(list.get(i as usize));
        }
    }

    // The first words of the room.
    pub(super) fn first<const N: usize>(&self) -> [u32; N] {
        array::from_fn(|i| self.get(i))
    }

    // The list's words, or the whole room where it says that they are more.
    pub(super) fn words(&self) -> &[Word] {
        let places = self.places();
        places.get(..self.len() as usize).unwrap_or(places)
    }

    // The list as it is lent, with none to three bytes of the room behind it.
    pub(super) fn lent(&self, more: usize) -> &[u8] {
        self.room
            .get(..self.lent_length(more))
            .unwrap_or(&self.room)
    }

    pub(super) fn lent_mut(&mut self, more: usize) -> &mut [u8] {
        let length = self.lent_length(more);
        let bytes = &mut self.room[..];
        let length = length.min(bytes.len());
        &mut bytes[..length]
    }

    fn lent_length(&self, more: usize) -> usize {
        (self.len() as usize).wrapping_mul(4).wrapping_add(more % 4)
    }
}
