// What the notes of a chord give its row, from the lowest key on.
ghost use Rattle.std.specs.Prelude.{◌≡◌, false, List, ℕ};
ghost use Rattle.format.specs.Text.{pick};
ghost use Rattle.model.specs.Marks.{added_in, packed};
ghost use Rattle.curve.specs.Level.{later, chord_of};
ghost use Rattle.beat.specs.Words.{effects_in};
ghost use Rattle.score.specs.Rows as rule;
ghost use Rattle.draft.specs.Chord.{chord_in};
ghost use Rattle.draft.specs.Steps.{played_in, add_marks, Quiet};

use crate::chord;
use crate::marks::{beat_harmonic, with_accent, with_beat, with_note};
use crate::played::{NO_PLAY, Played, played_by};
use beat::places::Beat;
use curve::level::ChordLevel;
use model::NoteHead;
use model::marks::{Marks, none_added};
use note::field;
use note::places::Notes;

#[derive(Clone, Copy)]
pub(crate) struct Voiced {
    pub played: Played,
    pub marks: Marks,
}

// One dead note gives the X head.
pub(crate) fn head_with(dead: bool, before: NoteHead) -> NoteHead
    ensures { result ≡ pick dead NoteHead.Cross before }
{
    if dead { NoteHead::Cross } else { before }
}

#[tactic(auto, unfolding(crate::specs::Chord::chord_in), using(crate::proofs::Walks::next_head, crate::proofs::Walks::dead_head))]
pub fn head_of(notes: &Notes, chord: &[u32]) -> NoteHead
    ensures { (s : List ℕ) (v : ℕ) → result ≡ rule.row_head (chord_in s v notes.now chord.now) }
{
    for struck in chord {
        if field::dead(notes, chord::string_of(*struck)) {
            return NoteHead::Cross;
        }
    }
    NoteHead::Normal
}

// The later of two dynamics, where it is given.
fn later(before: Option<u8>, given: Option<u8>) -> Option<u8>
    ensures { result ≡ later before given }
{
    match given {
        Some(_) => given,
        None => before,
    }
}

// Whether all members are emphasised, and the last dynamic that one of them gives.
#[tactic(auto, unfolding(crate::specs::Chord::chord_in), using(crate::proofs::Walks::levels_first, crate::proofs::Walks::next_levels, crate::proofs::Walks::levels_end))]
pub(crate) fn levels_of(notes: &Notes, chord: &[u32]) -> ChordLevel
    ensures { (s : List ℕ) (v : ℕ) → result
        ≡ chord_of (rule.levels (chord_in s v notes.now chord.now)) }
{
    let mut emphasised = true;
    let mut given = None;
    for struck in chord {
        let level = field::level(notes, chord::string_of(*struck));
        emphasised = emphasised & level.emphasised;
        given = later(given, level.given);
    }
    ChordLevel { emphasised, given }
}

// A note without effects is played plainly, and has no mark but its accent and the beat's harmonic.
fn voiced_by(b: &Beat, notes: &Notes, chord: &[u32], v: u32) -> Voiced
    ensures played { (s : List ℕ) → played_in s result.played
        ≡ rule.played rule.no_play (chord_in s v notes.now chord.now) }
    ensures marks { (s : List ℕ) → add_marks (added_in result.marks) (rule.beat_marks (effects_in v b.now))
        ≡ packed (rule.row_articulations (effects_in v b.now) (chord_in s v notes.now chord.now)) }
{
    let harmonic = beat_harmonic(b, v);
    let mut played = NO_PLAY;
    let mut m = none_added();
    for struck in chord {
        let string = chord::string_of(*struck);
        if field::effects(notes, string) | harmonic {
            played = played_by(notes, string, v, played);
            m = with_note(m, b, notes, string, v);
        } else {
            m = with_accent(m, notes, string);
        }
    }
    Voiced { played, marks: m }
}

// Whether one of its notes has an accent or effects.
#[tactic(auto, unfolding(crate::specs::Chord::chord_in), using(crate::proofs::Quiet::no_notes_lem, crate::proofs::Quiet::next_quiet))]
fn any_voiced(notes: &Notes, chord: &[u32]) -> bool
    ensures { (s : List ℕ) (v : ℕ) → result ≡ false → Quiet (chord_in s v notes.now chord.now) }
{
    for struck in chord {
        if field::voiced(notes, chord::string_of(*struck)) {
            return true;
        }
    }
    false
}

// Most chords are passed over: none of their notes has an accent or effects.
#[tactic(auto, unfolding(note::specs::Points::points_at), using(crate::proofs::Quiet::neither, crate::proofs::Quiet::quiet_marks))]
fn voiced_if(b: &Beat, notes: &Notes, chord: &[u32], v: u32) -> Voiced
    ensures played { (s : List ℕ) → played_in s result.played
        ≡ rule.played rule.no_play (chord_in s v notes.now chord.now) }
    ensures marks { (s : List ℕ) → add_marks (added_in result.marks) (rule.beat_marks (effects_in v b.now))
        ≡ packed (rule.row_articulations (effects_in v b.now) (chord_in s v notes.now chord.now)) }
{
    if beat_harmonic(b, v) | any_voiced(notes, chord) {
        return voiced_by(b, notes, chord, v);
    }
    Voiced {
        played: NO_PLAY,
        marks: none_added(),
    }
}

pub(crate) fn voicing_of(b: &Beat, notes: &Notes, chord: &[u32], v: u32) -> Voiced
    ensures played { (s : List ℕ) → played_in s result.played
        ≡ rule.played rule.no_play (chord_in s v notes.now chord.now) }
    ensures marks { (s : List ℕ) → added_in result.marks
        ≡ packed (rule.row_articulations (effects_in v b.now) (chord_in s v notes.now chord.now)) }
{
    let voiced = voiced_if(b, notes, chord, v);
    Voiced {
        marks: with_beat(voiced.marks, b, v),
        ..voiced
    }
}
