// The rows of a kept beat: its own, and that of its graces (docs/RULES.md 20 and 22).
ghost use Rattle.std.specs.Prelude.{◌≡◌, Bool, List, [], map, ℕ};
ghost use Rattle.curve.specs.Level.{chord_of, level_after};
ghost use Rattle.beat.specs.Words.{beat_in};
ghost use Rattle.score.specs.declared.Fretboard.{Fretboard};
ghost use Rattle.score.specs.Members.{member_of};
ghost use Rattle.score.specs.Rows as rule;
ghost use Rattle.draft.specs.Chord.{chord_in};
ghost use Rattle.draft.specs.Meant.{draft_in};
ghost use Rattle.draft.specs.Steps.{grace_draft};

use crate::Draft;
use crate::graces::Graces;
use crate::played::NO_BEND;
use crate::voicing::{head_of, levels_of, voicing_of};
use beat::places::Beat;
use curve::level::{LevelAfter, level_after};
use format::{NO_RANGE, Range};
use model::marks::{NO_ARTICULATIONS, listed};
use model::{
    Arpeggio, Duration, NoteHead, NoteValue, Ottava, RowKind, RowPlace, Technique, TechniqueText,
    Tuplet,
};
use note::places::Notes;

// The dynamic of a row, and the running one after it.
pub fn level_of(running: u8, notes: &Notes, chord: &[u32]) -> LevelAfter
    ensures { (s : List ℕ) (v : ℕ) → result
        ≡ level_after running (chord_of (rule.levels (chord_in s v notes.now chord.now))) }
{
    level_after(running, levels_of(notes, chord))
}

#[tactic(auto, unfolding(format::specs::Prog::has))]
fn value_of(b: &Beat) -> NoteValue
    ensures { (s : List ℕ) (v : ℕ) (w : List ℕ) → result ≡ rule.value_of (beat_in s v b.now w) }
{
    NoteValue {
        duration: beat::field::duration(b),
        dot: beat::field::flags(b) & 0x01 != 0,
        tuplet: beat::field::tuplet(b),
    }
}

fn rest_row(place: RowPlace, b: &Beat) -> Draft
    ensures { (s : List ℕ) (v : ℕ) (w : List ℕ) → draft_in s [] result ≡ rule.rest_row place (beat_in s v b.now w) }
{
    Draft {
        place,
        kind: RowKind::Beat,
        rest: true,
        value: value_of(b),
        text: TechniqueText::NoText,
        technique: Technique::NoTechnique,
        bend: NO_BEND,
        dynamic: None,
        articulations: NO_ARTICULATIONS,
        arpeggio: Arpeggio::NoArpeggio,
        head: NoteHead::Normal,
        ottava: beat::field::ottava(b),
        chord: beat::field::chord(b),
        beat: beat::field::range(b),
    }
}

fn chord_row(place: RowPlace, running: u8, b: &Beat, notes: &Notes, chord: &[u32], v: u32) -> Draft
    ensures { (s : List ℕ) (board : Fretboard) (flat : Bool) →
        draft_in s (map (member_of board flat) (chord_in s v notes.now chord.now)) result
        ≡ rule.chord_row place board flat running (beat_in s v b.now notes.now)
        (chord_in s v notes.now chord.now) }
{
    let voiced = voicing_of(b, notes, chord, v);
    let played = voiced.played;
    Draft {
        place,
        kind: RowKind::Beat,
        rest: false,
        value: value_of(b),
        text: played.text,
        technique: played.technique,
        bend: played.bend,
        dynamic: level_of(running, notes, chord).mark,
        articulations: listed(voiced.marks),
        arpeggio: beat::field::brush(b, v),
        head: head_of(notes, chord),
        ottava: beat::field::ottava(b),
        chord: beat::field::chord(b),
        beat: beat::field::range(b),
    }
}

// A beat in which no note sounds is a rest.
#[tactic(auto, using(crate::proofs::Walks::row_rest, crate::proofs::Walks::row_chord))]
pub fn beat_row(
    place: RowPlace,
    running: u8,
    b: &Beat,
    notes: &Notes,
    chord: &[u32],
    v: u32,
) -> Draft
    ensures { (s : List ℕ) (board : Fretboard) (flat : Bool) →
        draft_in s (map (member_of board flat) (chord_in s v notes.now chord.now)) result
        ≡ rule.beat_row place board flat running (beat_in s v b.now notes.now)
        (chord_in s v notes.now chord.now) }
{
    if chord.is_empty() {
        rest_row(place, b)
    } else {
        chord_row(place, running, b, notes, chord, v)
    }
}

// The row of graces that give it so much; its bytes are those of their beat.
#[tactic(auto, unfolding(crate::specs::Steps::grace_draft))]
pub fn grace_row(place: RowPlace, beat: Range, x: Graces) -> Draft
    ensures { result ≡ grace_draft place beat x }
{
    Draft {
        place,
        kind: RowKind::Grace,
        rest: false,
        value: NoteValue {
            duration: Duration::ThirtySecond,
            dot: false,
            tuplet: None,
        },
        text: x.text,
        technique: x.technique,
        bend: NO_BEND,
        dynamic: None,
        articulations: NO_ARTICULATIONS,
        arpeggio: Arpeggio::NoArpeggio,
        head: x.head,
        ottava: Ottava::NoOttava,
        chord: NO_RANGE,
        beat,
    }
}
