// One beat: its head, chord, text, effects, mix table, notes and tail, read into words that are lent.
// Tests are joined by `&` and `|` where both cost nothing, and a position is a bare `usize`, as in the crate note.
#![tactic(auto)]

ghost use Rattle.format.specs.Place.{Reaches};
ghost use Rattle.beat.specs.Beat as format;
ghost use Rattle.beat.specs.Words as meaning;

pub mod head; // flags, status, duration and tuplet
pub mod chord; // the chord's name, and the beat's text
pub mod effects; // the effects of a beat
pub mod mix; // the mix table of a beat
pub mod tail; // the ottava
pub mod hop; // past a plain beat
pub mod field; // what the words of a beat say
pub mod places; // the words of a beat

use format::{Place, Range};
use note::places::{Notes, byte_of, put};
use places::{Beat, put_range};

// Strings, notes and tail, of a beat that starts at a position. The string bits say which notes are there, note i for bit 6 - i.
fn beat_notes(s: &[u8], from: Place, v: u32, start: usize, b: &mut Beat, notes: &mut Notes) -> Place
    ensures { meaning.NotesTo v start s.now from b.old b.new notes.new result }
{
    let (mask, at) = bin::u8_at(s, from)?;
    put(b, places::STRINGS, mask);
    let next = note::notes::read_notes(s, at, v, mask, notes);
    let Ok(past) = next else {
        return next;
    };
    let end = tail::tail_at(s, past, v, b);
    put_range(b, places::RANGE_START, Range { start, end });
    bin::ahead::reached(s, end)
}

// Chord name, text, effects and mix table, each where a flag of the head says so; then the notes.
fn behind_head(
    s: &[u8],
    from: Place,
    v: u32,
    start: usize,
    b: &mut Beat,
    notes: &mut Notes,
) -> Place
    ensures { meaning.BehindHead v start s.now from b.old b.new notes.new result }
{
    let flags = byte_of(b, places::FLAGS);
    let at = chord::chord_at(s, from, v, flags, b);
    let at = chord::text_at(s, at, flags, b);
    let at = effects::effects_at(s, at, v, flags, b);
    let at = mix::mix_at(s, at, v, flags, b);
    beat_notes(s, at, v, start, b, notes)
}

// The words of the next beat and of its notes, and where reading goes on.
pub fn read_beat(s: &[u8], from: Place, v: u32, b: &mut Beat, notes: &mut Notes) -> Place
    ensures { Reaches (format.beat v) s.now from
        (meaning.beat_in s.now v b.new notes.new) result }
{
    let Ok(start) = from else {
        return from;
    };
    let at = head::head_at(s, from, b);
    behind_head(s, at, v, start, b, notes)
}
