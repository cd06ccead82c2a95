// The types that reading programs and the code share. The format itself stands in specs/.
#![tactic(auto)]

// No more bytes of a file are read.
pub const LIMIT: usize = 16777216;

// A part of the input, from start up to and not including end.
#[derive(Clone, Copy, Default, PartialEq, Eq)]
pub struct Range {
    pub start: usize,
    pub end: usize,
}

// Where a text is not given. No Option: 0 and 0 is what the tables and C have then (docs/TABLES.md).
pub const NO_RANGE: Range = Range { start: 0, end: 0 };

// The counts that have a limit.
#[derive(Clone, Copy, PartialEq, Eq)]
pub enum Counted {
    NoticeLines,
    Bars,
    Tracks,
    Strings,
    Beats,
    Points,
}

// Why reading stopped.
#[derive(Clone, Copy, PartialEq, Eq)]
pub enum Stop {
    // the bytes end
    Ends,
    // a text's length is negative or over its limit
    Text,
    // no version that is read
    Version,
    // a count is negative or over its limit: which one, its value in two's complement, and where its four bytes stand, as a word
    // (with a usize a place would have 24 bytes, and every function hands one on)
    Count(Counted, u32, u32),
    // no bars, or no tracks
    Empty,
}

// Where reading goes on, or why it does not.
pub type Place = Result<usize, Stop>;

// What was read and where reading goes on, or why reading stopped.
pub type Reading<T> = Result<(T, usize), Stop>;
