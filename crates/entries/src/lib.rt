// The entries of the six lent tables: their words, stored and loaded. docs/TABLES.md fixes them word by word, so they stand here by number;
// a part of an entry has a function as it has a definition, and a word that is set again later one with its own type.
#![tactic(auto)]

ghost use Rattle.std.specs.Prelude.{◌≡◌, ◌%◌, get_or};
ghost use Rattle.model.specs.Kinds.{flag_of};
ghost use Rattle.entries.specs.Words.{range_of};

use format::Range;
use model::kinds;

pub mod bars;
pub mod entry; // what the entries of the six tables have in common
pub mod members;
pub mod points;
pub mod rows;
pub mod texts;
pub mod tracks;

pub use entry::Entry;

// ---- parts of entries

// A byte or a flag that is word `k` of an entry.
pub fn byte_at(w: &[u32], k: usize) -> u8
    ensures { result ≡ get_or w.now k 0 % 256 }
{
    kinds::byte_of(tables::load(w, k))
}

pub fn flag_at(w: &[u32], k: usize) -> bool
    ensures { result ≡ flag_of (get_or w.now k 0) }
{
    kinds::flag_of(tables::load(w, k))
}

fn range_of(start: u32, end: u32) -> Range
    ensures { result ≡ range_of start end }
{
    Range {
        start: start as usize,
        end: end as usize,
    }
}
