// The table of rows.
ghost use Rattle.std.specs.Prelude.{◌≡◌, ◌+◌, ◌*◌, set};
ghost use Rattle.std.proofs.lemmas.List.Edits.{sets};
ghost use Rattle.tables.specs.Table.{room};
ghost use Rattle.model.specs.Kinds.{technique_word, flag_word};
ghost use Rattle.entries.specs.Words.{row_stride, front_words, back_words, row_words, place_of, value_of, playing_of, articulations_of, expression_of, ottava_marks_of, row_of, row_at, technique_at, ottava_end_at};

use crate::Entry;
use model::{
    Arpeggio, Articulations, Duration, Dynamic, Expression, Finger, NoteHead, NoteValue, Ottava,
    OttavaMarks, Playing, Row, RowKind, RowPlace, Span, Technique, TechniqueText, kinds,
};

pub const ROW_WORDS: usize = 30;

pub const TECHNIQUE: usize = 12;

pub const OTTAVA_END: usize = 24;

// RowPlace, kind, rest, note value, members; text, technique, curve, height.
#[tactic(auto, unfolding(crate::specs::Words::front_words))]
fn front_words(x: Row) -> [u32; 17]
    ensures { result ≡ front_words x }
{
    [
        x.place.bar,
        x.place.track,
        x.place.voice,
        u32::from(x.kind),
        kinds::flag_word(x.rest),
        u32::from(x.value.duration),
        kinds::flag_word(x.value.dot),
        kinds::actual_word(x.value.tuplet),
        kinds::normal_word(x.value.tuplet),
        x.members.first,
        x.members.count,
        u32::from(x.playing.text),
        u32::from(x.playing.technique),
        x.playing.curve.first,
        x.playing.curve.count,
        kinds::peak_word(x.playing.height),
        kinds::height_word(x.playing.height),
    ]
}

// Dynamic, articulations, arpeggio, note head; ottava, chord name, finger, the beat's bytes.
#[tactic(auto, unfolding(crate::specs::Words::back_words))]
fn back_words(x: Row) -> [u32; 13]
    ensures { result ≡ back_words x }
{
    [
        u32::from(x.expression.dynamic),
        u32::from(x.expression.articulations.count),
        (x.expression.articulations.digits / 4294967296) as u32,
        (x.expression.articulations.digits % 4294967296) as u32,
        u32::from(x.expression.arpeggio),
        u32::from(x.expression.head),
        u32::from(x.ottava.start),
        kinds::flag_word(x.ottava.end),
        tables::low(x.chord.start),
        tables::low(x.chord.end),
        u32::from(x.finger),
        tables::low(x.beat.start),
        tables::low(x.beat.end),
    ]
}

#[tactic(auto, unfolding(crate::specs::Words::place_of))]
fn place_of(w: &[u32]) -> RowPlace
    ensures { result ≡ place_of w.now }
{
    RowPlace {
        bar: tables::load(w, 0),
        track: tables::load(w, 1),
        voice: tables::load(w, 2),
    }
}

#[tactic(auto, unfolding(crate::specs::Words::value_of))]
fn value_of(w: &[u32]) -> NoteValue
    ensures { result ≡ value_of w.now }
{
    NoteValue {
        duration: Duration::from(tables::load(w, 5)),
        dot: crate::flag_at(w, 6),
        tuplet: kinds::tuplet_of(tables::load(w, 7), tables::load(w, 8)),
    }
}

#[tactic(auto, unfolding(crate::specs::Words::playing_of))]
fn playing_of(w: &[u32]) -> Playing
    ensures { result ≡ playing_of w.now }
{
    Playing {
        text: TechniqueText::from(tables::load(w, 11)),
        technique: Technique::from(tables::load(w, 12)),
        curve: Span {
            first: tables::load(w, 13),
            count: tables::load(w, 14),
        },
        height: kinds::height_of(tables::load(w, 15), tables::load(w, 16)),
    }
}

#[tactic(auto, unfolding(crate::specs::Words::articulations_of))]
fn articulations_of(w: &[u32]) -> Articulations
    ensures { result ≡ articulations_of w.now }
{
    let high = tables::load(w, 19) as u64;
    let low = tables::load(w, 20) as u64;
    Articulations {
        count: crate::byte_at(w, 18),
        digits: high * 4294967296 + low,
    }
}

#[tactic(auto, unfolding(crate::specs::Words::expression_of))]
fn expression_of(w: &[u32]) -> Expression
    ensures { result ≡ expression_of w.now }
{
    Expression {
        dynamic: Dynamic::from(tables::load(w, 17)),
        articulations: articulations_of(w),
        arpeggio: Arpeggio::from(tables::load(w, 21)),
        head: NoteHead::from(tables::load(w, 22)),
    }
}

#[tactic(auto, unfolding(crate::specs::Words::ottava_marks_of))]
fn ottava_marks_of(w: &[u32]) -> OttavaMarks
    ensures { result ≡ ottava_marks_of w.now }
{
    OttavaMarks {
        start: Ottava::from(tables::load(w, 23)),
        end: crate::flag_at(w, 24),
    }
}

impl Entry for Row {
    ghost WORDS = { row_stride };

    const WORDS: usize = ROW_WORDS;

    ghost words = { row_words };

    ghost meant = { row_of };

    #[tactic(auto, unfolding(crate::specs::Words::row_of))]
    fn of_words(w: &[u32]) -> Row {
        Row {
            place: place_of(w),
            kind: RowKind::from(tables::load(w, 3)),
            rest: crate::flag_at(w, 4),
            value: value_of(w),
            members: Span {
                first: tables::load(w, 9),
                count: tables::load(w, 10),
            },
            playing: playing_of(w),
            expression: expression_of(w),
            ottava: ottava_marks_of(w),
            chord: crate::range_of(tables::load(w, 25), tables::load(w, 26)),
            finger: Finger::from(tables::load(w, 27)),
            beat: crate::range_of(tables::load(w, 28), tables::load(w, 29)),
        }
    }

    fn store(self, table: &mut [u32], i: usize) {
        let front = front_words(self);
        let back = back_words(self);
        let at = tables::start_of(table, i, ROW_WORDS);
        tables::store_words(table, at, &front);
        tables::store_words(table, at + 17, &back);
    }
}

// A row's technique, once the next row of its voice is known.
pub fn set_technique(rows: &mut [u32], i: usize, x: Technique)
    ensures { rows.new ≡ set rows.old (i * row_stride + technique_at) (technique_word x) }
{
    tables::store_field(rows, i, ROW_WORDS, TECHNIQUE, u32::from(x));
}

// Whether an ottava ends at a row, once the rows after it are known.
pub fn set_ottava_end(rows: &mut [u32], i: usize, x: bool)
    ensures { rows.new ≡ set rows.old (i * row_stride + ottava_end_at) (flag_word x) }
{
    tables::store_field(rows, i, ROW_WORDS, OTTAVA_END, kinds::flag_word(x));
}
