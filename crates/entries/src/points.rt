// The table of curve points.
ghost use Rattle.std.specs.Prelude.{◌≡◌, ◌*◌};
ghost use Rattle.std.proofs.lemmas.List.Edits.{sets};
ghost use Rattle.tables.specs.Table.{room};
ghost use Rattle.entries.specs.Words.{point_stride, point_words, point_of, point_at};

use crate::Entry;
use model::{Point, kinds};

pub const POINT_WORDS: usize = 2;

#[tactic(auto, unfolding(crate::specs::Words::point_words))]
pub fn point_words(x: Point) -> [u32; 2]
    ensures { result ≡ point_words x }
{
    [x.position.0 as u32, kinds::cents_word(x.height)]
}

impl Entry for Point {
    ghost WORDS = { point_stride };

    const WORDS: usize = POINT_WORDS;

    ghost words = { point_words };

    ghost meant = { point_of };

    #[tactic(auto, unfolding(crate::specs::Words::point_of))]
    fn of_words(w: &[u32]) -> Point {
        Point {
            position: kinds::per_mille_of(tables::load(w, 0)),
            height: kinds::cents_of(tables::load(w, 1)),
        }
    }

    fn store(self, table: &mut [u32], i: usize) {
        let w = point_words(self);
        tables::store_entry(table, i, &w);
    }
}
