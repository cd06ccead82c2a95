// The table of tracks.
ghost use Rattle.std.specs.Prelude.{◌≡◌, ◌*◌};
ghost use Rattle.std.proofs.lemmas.List.Edits.{sets};
ghost use Rattle.tables.specs.Table.{room};
ghost use Rattle.entries.specs.Words.{track_stride, track_words, tunings_of, track_of, track_at};

use crate::Entry;
use model::{Clef, Track, Tunings, kinds};

pub const TRACK_WORDS: usize = 16;

#[tactic(auto, unfolding(crate::specs::Words::track_words))]
pub fn track_words(x: Track) -> [u32; 16]
    ensures { result ≡ track_words x }
{
    [
        tables::low(x.name.start),
        tables::low(x.name.end),
        u32::from(x.tunings.strings),
        u32::from(x.tunings.first),
        u32::from(x.tunings.second),
        u32::from(x.tunings.third),
        u32::from(x.tunings.fourth),
        u32::from(x.tunings.fifth),
        u32::from(x.tunings.sixth),
        u32::from(x.tunings.seventh),
        u32::from(x.capo),
        kinds::flag_word(x.percussion),
        kinds::flag_word(x.tablature),
        u32::from(x.clef),
        u32::from(x.channel),
        kinds::program_word(x.program),
    ]
}

#[tactic(auto, unfolding(crate::specs::Words::tunings_of))]
fn tunings_of(w: &[u32]) -> Tunings
    ensures { result ≡ tunings_of w.now }
{
    Tunings {
        strings: crate::byte_at(w, 2),
        first: crate::byte_at(w, 3),
        second: crate::byte_at(w, 4),
        third: crate::byte_at(w, 5),
        fourth: crate::byte_at(w, 6),
        fifth: crate::byte_at(w, 7),
        sixth: crate::byte_at(w, 8),
        seventh: crate::byte_at(w, 9),
    }
}

impl Entry for Track {
    ghost WORDS = { track_stride };

    const WORDS: usize = TRACK_WORDS;

    ghost words = { track_words };

    ghost meant = { track_of };

    #[tactic(auto, unfolding(crate::specs::Words::track_of))]
    fn of_words(w: &[u32]) -> Track {
        Track {
            name: crate::range_of(tables::load(w, 0), tables::load(w, 1)),
            tunings: tunings_of(w),
            capo: crate::byte_at(w, 10),
            percussion: crate::flag_at(w, 11),
            tablature: crate::flag_at(w, 12),
            clef: Clef::from(tables::load(w, 13)),
            channel: crate::byte_at(w, 14),
            program: kinds::program_of(tables::load(w, 15)),
        }
    }

    fn store(self, table: &mut [u32], i: usize) {
        let w = track_words(self);
        tables::store_entry(table, i, &w);
    }
}
