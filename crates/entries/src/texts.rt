// The table of texts.
ghost use Rattle.std.specs.Prelude.{◌≡◌, ◌*◌};
ghost use Rattle.std.proofs.lemmas.List.Edits.{sets};
ghost use Rattle.tables.specs.Table.{room};
ghost use Rattle.entries.specs.Words.{text_stride, text_words, text_of, text_at};

use crate::Entry;
use model::Text;

pub const TEXT_WORDS: usize = 4;

#[tactic(auto, unfolding(crate::specs::Words::text_words))]
pub fn text_words(x: Text) -> [u32; 4]
    ensures { result ≡ text_words x }
{
    [
        x.bar,
        x.track,
        tables::low(x.range.start),
        tables::low(x.range.end),
    ]
}

impl Entry for Text {
    ghost WORDS = { text_stride };

    const WORDS: usize = TEXT_WORDS;

    ghost words = { text_words };

    ghost meant = { text_of };

    #[tactic(auto, unfolding(crate::specs::Words::text_of))]
    fn of_words(w: &[u32]) -> Text {
        Text {
            bar: tables::load(w, 0),
            track: tables::load(w, 1),
            range: crate::range_of(tables::load(w, 2), tables::load(w, 3)),
        }
    }

    fn store(self, table: &mut [u32], i: usize) {
        let w = text_words(self);
        tables::store_entry(table, i, &w);
    }
}
