// The whole file as one program of reads, and what is made of what was read. It stands in specs/; no code but the types that
// the definitions and a reader share.
#![tactic(auto)]

use model::{Key, Ottava, Span};
use track::Strings;

// ---- what is remembered of a track

// A row with the hammer mark, which the next row of its voice may turn to a pull-off: its number and its first key.
#[derive(Clone, Copy, PartialEq, Eq)]
pub struct Hammer {
    pub row: u32,
    pub key: u8,
}

// An ottava that the next row of its voice may carry on: the number of the last row under it, and its kind.
#[derive(Clone, Copy, PartialEq, Eq)]
pub struct OttavaRun {
    pub row: u32,
    pub kind: Ottava,
}

// The last fret of each string; `last` are the members of the row of the voice's last kept beat.
#[derive(Clone, Copy, PartialEq, Eq)]
pub struct Voice {
    pub frets: [Option<u8>; 7],
    pub hammer: Option<Hammer>,
    pub last: Span,
    pub run: Option<OttavaRun>,
}

// What the notes of a track are played on.
#[derive(Clone, Copy, PartialEq, Eq)]
pub struct Fretboard {
    pub strings: Strings,
    pub capo: u8,
    pub percussion: bool,
    pub tablature: bool,
}

// One running dynamic for both voices, which are told by their place and not by a number.
#[derive(Clone, Copy, PartialEq, Eq)]
pub struct Part {
    pub board: Fretboard,
    pub running: u8,
    pub first: Voice,
    pub second: Voice,
}

// ---- what is counted on the way

// After a bar's header: the last key read in any bar so far, and the bar's ending, 0 for none.
#[derive(Clone, Copy, PartialEq, Eq)]
pub struct Before {
    pub key: Key,
    pub ending: u8,
}

// Rows, members and curve points kept: on the way, and not the sizes of an answer.
#[derive(Clone, Copy, PartialEq, Eq)]
pub struct KeptCounts {
    pub rows: u32,
    pub members: u32,
    pub points: u32,
}

// What is kept, texts too; the rooms needed of points and texts; whether flats are preferred in the bar; the seventeen losses by
// their numbers, as a report finds its own.
#[derive(Clone, Copy, PartialEq, Eq)]
pub struct Tally {
    pub kept: KeptCounts,
    pub texts: u32,
    pub text_room: u32,
    pub point_room: u32,
    pub flat: bool,
    pub losses: [u32; 17],
}
