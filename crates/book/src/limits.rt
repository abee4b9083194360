// The numbers that bound a book.
// How many words a header has.
pub const HEADER_WORDS: usize = 19;

pub(crate) const MOST_SHEETS: usize = 16;

pub(crate) const LARGEST_ORDER: usize = 1024;

pub(crate) const LARGEST_CAPACITY: usize = 65536;
