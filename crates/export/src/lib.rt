// For a program in another language: a static library (`rt lib`) of the reader, of the shelf alone (`shelf`) and of texts as UTF-8 (`titles`).
#![tactic(auto)]

ghost use Rattle.std.specs.Prelude.{◌≡◌};
ghost use Rattle.std.proofs.lemmas.List.Edits.{sets};
ghost use Rattle.score.specs.Reading.{reading};
ghost use Rattle.reader.specs.Answered as reader;
ghost use Rattle.export.specs.Said.{said_words};

pub mod shelf;
pub mod titles;

use model::{Answer, answers};

// The words of what is said of a reading, in the order in which C gets them.
const SAID: usize = 17;

fn said_words(answer: Answer) -> [u32; SAID]
    ensures { result ≡ said_words answer }
{
    let outcome = answer.outcome;
    [
        answers::outcome_number(outcome),
        tables::low(answer.song.used),
        answer.counts.bars,
        answer.counts.tracks,
        answer.counts.rows,
        answer.counts.members,
        answer.counts.points,
        answer.counts.texts,
        answer.rooms.bars,
        answer.rooms.tracks,
        answer.rooms.rows,
        answer.rooms.members,
        answer.rooms.points,
        answer.rooms.texts,
        answers::outcome_which(outcome),
        bin::signed::from_i32(answers::outcome_value(outcome)),
        tables::low(answers::outcome_offset(outcome)),
    ]
}

// In C each slice is a pointer and a length, in words but for the bytes of the file. `said` gets
// seventeen words, or as many as it has: the outcome, the bytes used, the six counts and the six rooms; of a count that is
// refused which it is, its value and its offset.
#[unsafe(no_mangle)]
pub extern "C" fn fungusleigh_read(
    data: &[u8],
    bars: &mut [u32],
    tracks: &mut [u32],
    rows: &mut [u32],
    members: &mut [u32],
    points: &mut [u32],
    texts: &mut [u32],
    said: &mut [u32],
)
    ensures { let before = reader.tables bars.old tracks.old rows.old members.old points.old texts.old in
        let after = reader.tables bars.new tracks.new rows.new members.new points.new texts.new in
        let read = reading «data».now before in
        (after ≡ read.tables) × (said.new ≡ sets said.old 0 (said_words read.answer)) }
{
    let answer = reader::read(data, bars, tracks, rows, members, points, texts);
    let words = said_words(answer);
    tables::store_words(said, 0, &words);
}
