// The answer of a reading, case by case; and losses, counted in a lent slice of 17 words.
ghost use Rattle.std.specs.Prelude.{◌≡◌, get_or, set};
ghost use Rattle.tables.specs.Table.{one_more};
ghost use Rattle.format.specs.Count.{count_number};
ghost use Rattle.model.specs.Answers.{numbers_of, no_lyrics, no_song, read_answer, refusal, no_room_answer, loss_number, loss_words, losses_of};

use crate::{Answer, Loss, Losses, Lyrics, Outcome, Sizes, Song};
use format::Counted;

pub fn count_number(x: Counted) -> u32
    ensures { result ≡ count_number x }
{
    x as u32 + 1
}

// Four functions over the same cases, since these are the words that C gets; 0 where a case has none.
pub fn outcome_number(x: Outcome) -> u32
    ensures { result ≡ (numbers_of x).number }
{
    match x {
        Outcome::Read => 0,
        Outcome::Truncated => 1,
        Outcome::Version => 2,
        Outcome::Count(_, _, _) => 3,
        Outcome::Empty => 4,
        Outcome::TooLong => 5,
        Outcome::NoRoom => 6,
    }
}

pub fn outcome_which(x: Outcome) -> u32
    ensures { result ≡ (numbers_of x).which }
{
    match x {
        Outcome::Count(which, _, _) => count_number(which),
        _ => 0,
    }
}

pub fn outcome_value(x: Outcome) -> i32
    ensures { result ≡ (numbers_of x).value }
{
    match x {
        Outcome::Count(_, value, _) => value,
        _ => 0,
    }
}

pub fn outcome_offset(x: Outcome) -> usize
    ensures { result ≡ (numbers_of x).offset }
{
    match x {
        Outcome::Count(_, _, offset) => offset,
        _ => 0,
    }
}

// No lyric track, and five empty lines from the start.
pub fn no_lyrics() -> Lyrics
    ensures { result ≡ no_lyrics }
{
    Lyrics::default()
}

pub fn read_answer(song: Song, counts: Sizes, rooms: Sizes, losses: Losses) -> Answer
    ensures { result ≡ read_answer song counts rooms losses }
{
    Answer {
        outcome: Outcome::Read,
        song,
        counts,
        rooms,
        losses,
    }
}

#[tactic(auto, unfolding(crate::specs::Answers::no_song))]
fn no_song() -> Song
    ensures { result ≡ no_song }
{
    Song::default()
}

// A refusal with the values that its case names and no others.
pub fn refused(outcome: Outcome) -> Answer
    ensures { result ≡ refusal outcome }
{
    Answer {
        outcome,
        song: no_song(),
        counts: Sizes::default(),
        rooms: Sizes::default(),
        losses: Losses::default(),
    }
}

// The refusal that also names the rooms needed.
pub fn no_room(rooms: Sizes) -> Answer
    ensures { result ≡ no_room_answer rooms }
{
    Answer {
        rooms,
        ..refused(Outcome::NoRoom)
    }
}

// ---- losses

pub const LOSS_KINDS: usize = 17;

pub fn loss_number(x: Loss) -> usize
    ensures { result ≡ loss_number x }
{
    x as usize
}

// One more report, in the slice that counts them. into_losses has its own, which stores whether there is a loss or not.
pub fn add_loss(counts: &mut [u32], x: Loss)
    ensures { counts.new
        ≡ set counts.old (loss_number x) (one_more (get_or counts.old (loss_number x) 0)) }
{
    let n = loss_number(x);
    let more = tables::up(tables::load(counts, n));
    tables::store(counts, n, more);
}

// Field by field, here and below: there is no loop over the names of a struct.
pub fn losses_of(counts: &[u32]) -> Losses
    ensures { result ≡ losses_of counts.now }
{
    Losses {
        drum_kit: tables::load(counts, 0),
        harmonic_type: tables::load(counts, 1),
        let_ring_with_palm_mute: tables::load(counts, 2),
        on_beat_grace: tables::load(counts, 3),
        repeat_count: tables::load(counts, 4),
        triplet_feel: tables::load(counts, 5),
        unsupported_chord_diagram: tables::load(counts, 6),
        unsupported_direction: tables::load(counts, 7),
        unsupported_fingering: tables::load(counts, 8),
        unsupported_mix_change: tables::load(counts, 9),
        unsupported_rasgueado: tables::load(counts, 10),
        unsupported_right_hand_fingering: tables::load(counts, 11),
        unsupported_slide_type: tables::load(counts, 12),
        unsupported_tapping: tables::load(counts, 13),
        unsupported_volume_swell: tables::load(counts, 14),
        unsupported_wah: tables::load(counts, 15),
        unsupported_whammy: tables::load(counts, 16),
    }
}

// The counts in byte order of their codes.
pub fn loss_words(x: Losses) -> [u32; 17]
    ensures { result ≡ loss_words x }
{
    [
        x.drum_kit,
        x.harmonic_type,
        x.let_ring_with_palm_mute,
        x.on_beat_grace,
        x.repeat_count,
        x.triplet_feel,
        x.unsupported_chord_diagram,
        x.unsupported_direction,
        x.unsupported_fingering,
        x.unsupported_mix_change,
        x.unsupported_rasgueado,
        x.unsupported_right_hand_fingering,
        x.unsupported_slide_type,
        x.unsupported_tapping,
        x.unsupported_volume_swell,
        x.unsupported_wah,
        x.unsupported_whammy,
    ]
}
