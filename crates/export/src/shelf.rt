// The shelf of a file, for a program in another language (document 02, c).
ghost use Rattle.std.specs.Prelude.{◌≡◌};
ghost use Rattle.std.proofs.lemmas.List.Edits.{sets};
ghost use Rattle.shelves.specs.Shelf.{shelf_words, shelving};

// In C a slice is a pointer and a length. `said` gets eleven words, or as many as it has: the outcome; of a count that is refused which
// it is, its value in two's complement and its offset; the version, start and end of the title and of the composer, bars and tracks.
#[unsafe(no_mangle)]
pub extern "C" fn fungusleigh_shelf(data: &[u8], said: &mut [u32])
    ensures { said.new ≡ sets said.old 0 (shelf_words (shelving «data».now)) }
{
    let words = shelves::view::words_of(shelves::shelf(data));
    tables::store_words(said, 0, &words);
}
