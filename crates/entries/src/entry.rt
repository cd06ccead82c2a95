// What the entries of the six tables have in common: so many words each, one entry after another from the table's start.

pub trait Entry: Copy {
    ghost use Rattle.std.specs.Prelude.{◌≡◌, ◌*◌, ℕ, List, length};
    ghost use Rattle.std.proofs.lemmas.List.Edits.{sets};
    ghost use Rattle.tables.specs.Table.{room};
    ghost use Rattle.entries.specs.Words.{entry_at};

    // How many words an entry has.
    ghost WORDS: { ℕ };

    const WORDS: usize;

    // The words of an entry, and the entry that words stand for.
    ghost words: { Self → List ℕ };

    ghost meant: { List ℕ → Self };

    // At any number of words: one that is missing is 0.
    fn of_words(w: &[u32]) -> Self
        ensures { result ≡ meant w.now };

    // As entry `i` of a table, as far as that goes.
    fn store(self, table: &mut [u32], i: usize)
        ensures { table.new ≡ sets table.old (i * WORDS) (words self) };

    // Entry `i`, or none where the table does not hold it whole.
    #[tactic(auto, unfolding(crate::specs::Words::entry_at))]
    final fn at(table: &[u32], i: usize) -> Option<Self>
        ensures { result ≡ entry_at meant table.now i WORDS }
    {
        let w = tables::entry_of(table, i, Self::WORDS);
        if w.is_empty() {
            return None;
        }
        Some(Self::of_words(w))
    }

    // How many whole entries a table has room for.
    final fn room(table: &[u32]) -> usize
        ensures { result ≡ room table.now WORDS }
    {
        tables::room_of(table, Self::WORDS)
    }
}
