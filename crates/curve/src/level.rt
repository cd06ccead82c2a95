// The dynamic of a chord, and the running dynamic of a track: levels from 1 (ppp) to 8 (fff).
ghost use Rattle.std.specs.Prelude.{◌≡◌};
ghost use Rattle.curve.specs.Level.{held_level, note_level, chord_level, level_after};

use crate::held::dynamic_of;

// What a note says about the dynamic.
#[derive(Clone, Copy, PartialEq, Eq)]
pub struct NoteLevel {
    pub emphasised: bool,
    pub given: Option<u8>,
}

// What the members of a chord say about it: whether all are emphasised, and what the last that gives one gives. Not the type above, which
// says it of one note.
#[derive(Clone, Copy, PartialEq, Eq)]
pub struct ChordLevel {
    pub emphasised: bool,
    pub given: Option<u8>,
}

// The running dynamic after a chord, and the chord's mark.
#[derive(Clone, Copy, PartialEq, Eq)]
pub struct LevelAfter {
    pub running: u8,
    pub mark: Option<u8>,
}

// The running dynamic of a track before its first chord.
pub const FORTE: u8 = 6;

// What a note stores, held to 1..8.
fn held_level(stored: Option<u8>) -> Option<u8>
    ensures { result ≡ held_level stored }
{
    match stored {
        Some(byte) => Some(dynamic_of(byte)),
        None => None,
    }
}

// What a note says, by its three emphases and the dynamic byte that it stores, if any.
#[tactic(auto, unfolding(crate::specs::Level::note_level))]
pub fn note_level(ghost_note: bool, accent: bool, heavy: bool, stored: Option<u8>) -> NoteLevel
    ensures { result ≡ note_level ghost_note accent heavy stored }
{
    let emphasised = ghost_note || accent || heavy;
    let given = if emphasised { None } else { held_level(stored) };
    NoteLevel { emphasised, given }
}

// The level of a chord.
#[tactic(auto, unfolding(crate::specs::Level::chord_level))]
fn chord_level(running: u8, chord: ChordLevel) -> u8
    ensures { result ≡ chord_level running chord }
{
    match chord.given {
        Some(level) => level,
        None if chord.emphasised => running,
        None => FORTE,
    }
}

// The running dynamic after a chord whose members were gone through, and the mark that its row gets.
#[tactic(auto, unfolding(crate::specs::Level::level_after))]
pub fn level_after(running: u8, chord: ChordLevel) -> LevelAfter
    ensures { result ≡ level_after running chord }
{
    let level = chord_level(running, chord);
    let mark = if level == running { None } else { Some(level) };
    LevelAfter {
        running: level,
        mark,
    }
}
