// What is shown of a file, or why nothing is: no Result, since the equation `shelving` and the words that C gets say the outcome beside it.
ghost use Rattle.std.specs.Prelude.{◌≡◌, []};
ghost use Rattle.front.specs.Front.{song_of};
ghost use Rattle.shelves.specs.Shelf as shelved;

use format::{NO_RANGE, Range};
use front::SongRead;
use model::{Outcome, answers};

#[derive(Clone, Copy)]
pub struct Shelf {
    pub outcome: Outcome,
    pub version: u32,
    pub title: Range,
    pub composer: Range,
    pub bars: u32,
    pub tracks: u32,
}

// On a refusal all but the outcome is 0.
pub(crate) fn refused(outcome: Outcome) -> Shelf
    ensures { result ≡ shelved.not_shown outcome }
{
    Shelf {
        outcome,
        version: 0,
        title: NO_RANGE,
        composer: NO_RANGE,
        bars: 0,
        tracks: 0,
    }
}

pub(crate) fn shown(song: SongRead) -> Shelf
    ensures { result ≡ shelved.shown (song_of song []) }
{
    let info = song.info;
    let title = info.title;
    let composer = info.composer;
    let counts = song.counts;
    Shelf {
        outcome: Outcome::Read,
        version: song.version,
        title,
        composer,
        bars: counts.bars,
        tracks: counts.tracks,
    }
}

// The words of a shelf, in the order in which C gets them.
pub const WORDS: usize = 11;

pub fn words_of(shelf: Shelf) -> [u32; WORDS]
    ensures { result ≡ shelved.shelf_words shelf }
{
    let outcome = shelf.outcome;
    [
        answers::outcome_number(outcome),
        answers::outcome_which(outcome),
        bin::signed::from_i32(answers::outcome_value(outcome)),
        tables::low(answers::outcome_offset(outcome)),
        shelf.version,
        tables::low(shelf.title.start),
        tables::low(shelf.title.end),
        tables::low(shelf.composer.start),
        tables::low(shelf.composer.end),
        shelf.bars,
        shelf.tracks,
    ]
}
