// The second reader and writer, written from the rules a second time: what each word is, is noted first, by the headers'
// counts alone, and each word is judged by itself after that. Nothing is shared with the first ones: no table, no
// definition, no function.
pub(crate) mod allowed;
pub(crate) mod cell;
pub(crate) mod granted;
pub(crate) mod held;
pub(crate) mod reading;
pub(crate) mod table;
pub(crate) mod writing;
