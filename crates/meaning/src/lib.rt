// The types that definitions and code share, and the code's names for sizes and reasons. What they mean is in specs/.
#![tactic(auto)]

ghost use Rattle.std.specs.Prelude.{◌≡◌};

// How many cells there are, and which of them are video registers': those from FIRST_VIDEO on, to before END_VIDEO.
pub const CELLS: usize = 101;

pub const FIRST_VIDEO: usize = 84;

pub const END_VIDEO: usize = 101;

// The pair: the cell of the target's address, and that of its location.
pub const TARGET_CELL: usize = 1;

pub const LOCATION_CELL: usize = 2;

// The words of a state's values and marks, and of a whole state.
pub const CELL_WORDS: usize = 2 * CELLS;

pub const STATE_WORDS: usize = CELL_WORDS;

// The most words that a state is written in, and the most bytes that it is listed in.
pub const MOST_WRITTEN: usize = 184;

pub const MOST_LISTED: usize = 2568;

// The most bytes that a buffer of a C call has.
pub const MOST_BYTES: usize = 65536;

// The words of a grant, and the most grants that a list has.
pub const GRANT_WORDS: usize = 5;

pub const MOST_GRANTS: usize = 64;

// The most words that an engine takes.
pub const MOST_FED: u32 = 0xffffffff;

// Why something is refused. The numbers are those that a C call tells, as specs/Answers names them.
#[derive(Clone, Copy, PartialEq, Eq)]
pub enum Reason {
    BadState = 1,
    BadGrants = 2,
    BadOffset = 3,
    BadCount = 4,
    BadSetting = 5,
    NoRegister = 6,
    BitSet = 7,
    BadValue = 8,
    NotGranted = 9,
    EndsInside = 10,
    NoRoom = 11,
    NotWritable = 12,
    BadBuffer = 13,
    BadPair = 14,
    NotAListing = 19,
    EngineFull = 23,
}

// R21 "three kinds of number, and no code may be able to exchange them": a cell of the state,
#[derive(Clone, Copy)]
pub struct Cell(pub usize);

// the sub-address of a parameter,
#[derive(Clone, Copy)]
pub struct SubAddress(pub u32);

// and the byte offset of a video register.
#[derive(Clone, Copy)]
pub struct VideoOffset(pub u32);

// A state as the code holds it: the values, then the marks.
pub type State = [u32; STATE_WORDS];

// Where an address is asked about: in whichever memory, or in the one of a number.
#[derive(Clone, Copy)]
pub enum Memory {
    Either,
    Only(u32),
}

// What the next word of an open packet is: the setting, a parameter under a setting, a word for a video register.
#[derive(Clone, Copy)]
pub enum Kind {
    Setting,
    Parameter(u32),
    Video(VideoOffset),
}

// Where a word of a batch stands: how many words the open packet still wants, 0 if a header is next, and else of what kind the next is.
#[derive(Clone, Copy)]
pub struct Position {
    pub kind: Kind,
    pub left: usize,
}

// A refusal is a reason and a place.
#[derive(Clone, Copy, PartialEq, Eq)]
pub struct Refusal {
    pub reason: Reason,
    pub place: usize,
}

// An answer is the place that success has, or a refusal.
pub type Answer = Result<usize, Refusal>;

impl Reason {
    // The refusal for it at a place.
    pub fn at(self, place: usize) -> Refusal
        ensures at { result ≡ record { reason = self; place = place } }
    {
        Refusal {
            reason: self,
            place,
        }
    }
}
