// The shelf: title, composer, version, bars and tracks of a file, by a reading that ends right after its counts (document 02, c).
#![tactic(auto)]

ghost use Rattle.std.specs.Prelude.{◌≡◌};
ghost use Rattle.shelves.specs.Shelf.{shelving};

use format::LIMIT;
use view::Shelf;

pub mod view; // what is shown

// Any bytes: no table is lent, and nothing after the counts is looked at.
pub fn shelf(data: &[u8]) -> Shelf
    ensures { result ≡ shelving «data».now }
{
    let s = verdict::up_to(data, LIMIT);
    let mut programs = [[0u8; 16]; 4];
    match front::song_at(s, Ok(0), &mut programs) {
        Ok((song, _)) => view::shown(song),
        Err(stop) => view::refused(verdict::refusal_of(stop, LIMIT < data.len())),
    }
}
