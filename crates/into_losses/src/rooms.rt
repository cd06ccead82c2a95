// The rooms that a beat needs, of curve points and texts.
ghost use Rattle.std.specs.Prelude.{◌≡◌, List, ℕ};
ghost use Rattle.note.specs.Points.{bend_in};
ghost use Rattle.beat.specs.Words.{beat_in};
ghost use Rattle.score.specs.Page.{bend_room, bend_rooms, has_text};
ghost use Rattle.words.specs.Words.{word_plus};

use beat::places::Beat;
use note::bend::Bend;
use note::field;
use note::notes::Strings;
use note::places::Notes;
use words::plus;

// The points of a bend and two more; a bend without points needs none.
#[tactic(auto, using(crate::proofs::Sums::no_room_lem, crate::proofs::Sums::room))]
fn bend_room(bend: Bend) -> u32
    ensures { (s : List ℕ) → result ≡ word_plus 0 (bend_room (bend_in s bend)) }
{
    if bend.count == 0 {
        0
    } else {
        plus(bend.count, 2)
    }
}

// Of every note that is read, also on a string that the track does not have; as far as a word goes.
pub fn bend_rooms(b: &Beat, notes: &Notes) -> u32
    ensures { (s : List ℕ) (v : ℕ) → result ≡ word_plus 0 (bend_rooms (beat_in s v b.now notes.now).strings 0
        (beat_in s v b.now notes.now).notes) }
{
    let mut rooms: u32 = 0;
    for string in Strings::of(beat::field::strings(b) as u32) {
        rooms = plus(rooms, bend_room(field::bend(notes, string)));
    }
    rooms
}

// A range that ends past the file holds the bytes up to the file's end.
pub fn has_text(s: &[u8], b: &Beat) -> bool
    ensures { (v : ℕ) (w : List ℕ) → result ≡ has_text (beat_in s.now v b.now w) }
{
    let text = beat::field::text(b);
    beat::field::kept(b) & ((text.start < text.end) & (text.start < s.len()))
}
