// The table of bars.
ghost use Rattle.std.specs.Prelude.{◌≡◌, ◌+◌, ◌*◌, set};
ghost use Rattle.std.proofs.lemmas.List.Edits.{sets};
ghost use Rattle.tables.specs.Table.{room};
ghost use Rattle.model.specs.Kinds.{ending_place_word, tempo_word};
ghost use Rattle.entries.specs.Words.{bar_stride, bar_words, time_of, changes_of, repeats_of, bar_of, bar_at, place_at, tempo_at};

use crate::Entry;
use model::{Bar, Changes, Direction, EndingPlace, Repeats, Time, kinds};

pub const BAR_WORDS: usize = 16;

pub const PLACE: usize = 11;

pub const TEMPO: usize = 15;

#[tactic(auto, unfolding(crate::specs::Words::bar_words))]
pub fn bar_words(x: Bar) -> [u32; 16]
    ensures { result ≡ bar_words x }
{
    [
        u32::from(x.time.numerator),
        u32::from(x.time.denominator),
        kinds::mode_word(x.key),
        kinds::fifths_word(x.key),
        kinds::flag_word(x.changed.time),
        kinds::flag_word(x.changed.key),
        kinds::flag_word(x.repeats.start),
        kinds::flag_word(x.repeats.end),
        kinds::flag_word(x.repeats.double),
        kinds::ending_word(x.ending),
        kinds::passes_word(x.passes),
        u32::from(x.place),
        tables::low(x.marker.start),
        tables::low(x.marker.end),
        u32::from(x.direction),
        kinds::tempo_word(x.tempo),
    ]
}

#[tactic(auto, unfolding(crate::specs::Words::time_of))]
fn time_of(w: &[u32]) -> Time
    ensures { result ≡ time_of w.now }
{
    Time {
        numerator: crate::byte_at(w, 0),
        denominator: crate::byte_at(w, 1),
    }
}

#[tactic(auto, unfolding(crate::specs::Words::changes_of))]
fn changes_of(w: &[u32]) -> Changes
    ensures { result ≡ changes_of w.now }
{
    Changes {
        time: crate::flag_at(w, 4),
        key: crate::flag_at(w, 5),
    }
}

#[tactic(auto, unfolding(crate::specs::Words::repeats_of))]
fn repeats_of(w: &[u32]) -> Repeats
    ensures { result ≡ repeats_of w.now }
{
    Repeats {
        start: crate::flag_at(w, 6),
        end: crate::flag_at(w, 7),
        double: crate::flag_at(w, 8),
    }
}

impl Entry for Bar {
    ghost WORDS = { bar_stride };

    const WORDS: usize = BAR_WORDS;

    ghost words = { bar_words };

    ghost meant = { bar_of };

    #[tactic(auto, unfolding(crate::specs::Words::bar_of))]
    fn of_words(w: &[u32]) -> Bar {
        Bar {
            time: time_of(w),
            key: kinds::key_of(tables::load(w, 2), tables::load(w, 3)),
            changed: changes_of(w),
            repeats: repeats_of(w),
            ending: kinds::ending_of(tables::load(w, 9)),
            passes: kinds::passes_of(tables::load(w, 10)),
            place: EndingPlace::from(tables::load(w, 11)),
            marker: crate::range_of(tables::load(w, 12), tables::load(w, 13)),
            direction: Direction::from(tables::load(w, 14)),
            tempo: kinds::tempo_of(tables::load(w, 15)),
        }
    }

    fn store(self, table: &mut [u32], i: usize) {
        let w = bar_words(self);
        tables::store_entry(table, i, &w);
    }
}

// A bar's place among neighbours of its ending, once the next bar is known.
pub fn set_place(bars: &mut [u32], i: usize, x: EndingPlace)
    ensures { bars.new ≡ set bars.old (i * bar_stride + place_at) (ending_place_word x) }
{
    tables::store_field(bars, i, BAR_WORDS, PLACE, u32::from(x));
}

// A bar's tempo, once one of its beats has it.
pub fn set_tempo(bars: &mut [u32], i: usize, x: Option<u16>)
    ensures { bars.new ≡ set bars.old (i * bar_stride + tempo_at) (tempo_word x) }
{
    tables::store_field(bars, i, BAR_WORDS, TEMPO, kinds::tempo_word(x));
}
