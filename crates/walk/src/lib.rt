// The walk over bars, tracks, voices and beats.
#![tactic(auto)]

ghost use Rattle.format.specs.Place.{Reaches, Reads};
ghost use Rattle.format.specs.Prog.{turns};
ghost use Rattle.score.specs.File as file;
ghost use Rattle.std.specs.Prelude.{◌≡◌, Bool, true, false, List, ℕ, ◌+◌, ◌*◌, ◌<◌, ◌≤◌, min, length};
ghost use Rattle.tables.specs.Table.{room};
ghost use Rattle.words.specs.Words.{part_stride};
ghost use Rattle.words.specs.Voices.{voice_in};
ghost use Rattle.enter.specs.Held.{Lent, put_back};
ghost use Rattle.enter.specs.Pages.{over, walked, SamePage};
ghost use Rattle.walk.specs.Entering.{entering, beat_step};

use beat::places::BEAT_WORDS;
use enter::{Held, Page};
use format::{Counted, Place, Reading};
use into_rows::keep::BeatWords;
use into_tracks::parts::{board_at, put_running, put_voice, running_at, voice_at};
use model::RowPlace;

// The bytes, the place and the version stand apart, as in every function of the crates below that reads: a struct of them would be
// taken apart at each call.

// A pass over the beats: one that counts them, or one that enters them.
pub trait Pass {
    ghost counting: { Bool };

    fn beats(
        page: &mut Page,
        scratch: &mut BeatWords,
        s: &[u8],
        from: Place,
        v: u32,
        n: u32,
        place: RowPlace,
    ) -> Place
        requires { place.track * part_stride + part_stride ≤ length page.old.parts.now }
        ensures beats { Reaches (turns n 0 (file.one_beat (entering counting s.now) v place.bar place.track place.voice) (walked page.old))
            s.now from (walked page.new) result }
        ensures lent { SamePage page.old page.new };
}

pub struct Counting;

pub struct Entering;

// A beat, while what is remembered of its track is lent.
fn one_beat(
    page: &mut Page,
    scratch: &mut BeatWords,
    s: &[u8],
    from: Place,
    v: u32,
    place: RowPlace,
    held: &mut Held,
) -> Place
    ensures beat { (parts : List ℕ)
        → Lent place.track place.voice held.old.board (voice_in held.old.memory) held.old.running parts
        → Reaches (beat_step false s.now v place.bar place.track place.voice (over parts page.old))
        s.now from
        (over (put_back place.track place.voice (voice_in held.new.memory) held.new.running parts) page.new) result }
    ensures board { held.new.board ≡ held.old.board }
    ensures byte { held.old.running < 256 → held.new.running < 256 }
    ensures parts { page.new.parts.now ≡ page.old.parts.now }
    ensures lent { SamePage page.old page.new }
{
    let next = beat::read_beat(s, from, v, &mut scratch.beat, &mut scratch.notes)?;
    page.add_beat(s, v, place, scratch, held);
    Ok(next)
}

// The promise is for one beat or more of a track of which no word is missing: then what a beat leaves is what the next would load.
fn held_beats(
    page: &mut Page,
    scratch: &mut BeatWords,
    s: &[u8],
    from: Place,
    v: u32,
    n: u32,
    place: RowPlace,
    held: &mut Held,
) -> Place
    ensures beats { (parts : List ℕ)
        → 0 < n
        → place.track * part_stride + part_stride ≤ length parts
        → Lent place.track place.voice held.old.board (voice_in held.old.memory) held.old.running parts
        → Reaches (turns n 0 (file.one_beat (entering false s.now) v place.bar place.track place.voice) (over parts page.old))
        s.now from
        (over (put_back place.track place.voice (voice_in held.new.memory) held.new.running parts) page.new) result }
    ensures parts { page.new.parts.now ≡ page.old.parts.now }
    ensures lent { SamePage page.old page.new }
{
    let mut at = from;
    for _ in 0..n {
        at = one_beat(page, scratch, s, at, v, place, held);
        let Ok(_) = at else {
            return at;
        };
    }
    at
}

// What is remembered of a track and of one of its voices.
fn held_of(page: &Page, place: RowPlace) -> Held
    ensures { Lent place.track place.voice result.board (voice_in result.memory) result.running page.now.parts.now }
{
    let track = place.track as usize;
    Held {
        board: board_at(page.parts, track),
        running: running_at(page.parts, track),
        memory: voice_at(page.parts, track, place.voice as usize),
    }
}

// What is remembered of a track is lent to all beats of one of its voices in a bar, and then put back; without a beat nothing is.
impl Pass for Entering {
    ghost counting = { false };

    fn beats(
        page: &mut Page,
        scratch: &mut BeatWords,
        s: &[u8],
        from: Place,
        v: u32,
        n: u32,
        place: RowPlace,
    ) -> Place {
        if n == 0 {
            return from;
        }
        let mut held = held_of(page, place);
        let next = held_beats(page, scratch, s, from, v, n, place, &mut held);
        let track = place.track as usize;
        put_voice(page.parts, track, place.voice as usize, &held.memory);
        put_running(page.parts, track, held.running);
        next
    }
}

// A beat that is read to be counted.
fn count_read(
    page: &mut Page,
    scratch: &mut BeatWords,
    s: &[u8],
    from: Place,
    v: u32,
    place: RowPlace,
) -> Place
    ensures beat { Reaches (beat_step true s.now v place.bar place.track place.voice (walked page.old))
        s.now from (walked page.new) result }
    ensures lent { SamePage page.old page.new }
{
    let past = beat::read_beat(s, from, v, &mut scratch.beat, &mut scratch.notes)?;
    page.count_beat(s, place.track as usize, &scratch.beat, &scratch.notes);
    Ok(past)
}

// A pass that counts goes over most of the bytes in these few lines. A plain beat is not even read. The two ways meet here and not in a
// function of one beat, which would hand on what is counted once more.
impl Pass for Counting {
    ghost counting = { true };

    fn beats(
        page: &mut Page,
        scratch: &mut BeatWords,
        s: &[u8],
        from: Place,
        v: u32,
        n: u32,
        place: RowPlace,
    ) -> Place {
        let mut at = from;
        for _ in 0..n {
            if let Some((next, strings)) = beat::hop::hop_beat(s, at, v) {
                page.count_plain(strings, place.track as usize);
                at = Ok(next);
            } else {
                at = count_read(page, scratch, s, at, v, place);
            }
            let Ok(_) = at else {
                return at;
            };
        }
        at
    }
}

fn one_voice<P: Pass>(
    page: &mut Page,
    scratch: &mut BeatWords,
    s: &[u8],
    from: Place,
    v: u32,
    place: RowPlace,
) -> Place
    requires { place.track * part_stride + part_stride ≤ length page.old.parts.now }
    ensures voice { Reaches (file.voice (entering P.counting s.now) v place.bar place.track place.voice (walked page.old))
        s.now from (walked page.new) result }
    ensures lent { SamePage page.old page.new }
{
    let (n, at) = bin::count_at(s, from, Counted::Beats)?;
    P::beats(page, scratch, s, Ok(at), v, n, place)
}

// How many voices a bar of a track has: one before v500, and from it two, after a byte that is passed over.
fn voices_at(s: &[u8], from: Place, v: u32) -> Reading<u32>
    ensures { Reads (file.voices v) s.now from result }
{
    if v < 500 {
        return Ok((1, from?));
    }
    let at = bin::skip_at(s, from, 1)?;
    Ok((2, at))
}

fn voices<P: Pass>(
    page: &mut Page,
    scratch: &mut BeatWords,
    s: &[u8],
    from: Place,
    v: u32,
    n: u32,
    bar: u32,
    track: u32,
) -> Place
    requires { track * part_stride + part_stride ≤ length page.old.parts.now }
    ensures voices { Reaches (turns n 0 (file.voice (entering P.counting s.now) v bar track) (walked page.old))
        s.now from (walked page.new) result }
    ensures lent { SamePage page.old page.new }
{
    let mut at = from;
    for voice in 0..n {
        at = one_voice::<P>(page, scratch, s, at, v, RowPlace { bar, track, voice });
        let Ok(_) = at else {
            return at;
        };
    }
    at
}

fn bar_track<P: Pass>(
    page: &mut Page,
    scratch: &mut BeatWords,
    s: &[u8],
    from: Place,
    v: u32,
    bar: u32,
    track: u32,
) -> Place
    requires { track * part_stride + part_stride ≤ length page.old.parts.now }
    ensures voices { Reaches (file.bar_track (entering P.counting s.now) v bar track (walked page.old))
        s.now from (walked page.new) result }
    ensures lent { SamePage page.old page.new }
{
    let (n, at) = voices_at(s, from, v)?;
    voices::<P>(page, scratch, s, Ok(at), v, n, bar, track)
}

fn bar_tracks<P: Pass>(
    page: &mut Page,
    scratch: &mut BeatWords,
    s: &[u8],
    from: Place,
    v: u32,
    tracks: u32,
    bar: u32,
) -> Place
    requires { tracks * part_stride ≤ length page.old.parts.now }
    ensures tracks { Reaches (turns tracks 0 (file.bar_track (entering P.counting s.now) v bar) (walked page.old))
        s.now from (walked page.new) result }
    ensures lent { SamePage page.old page.new }
{
    let mut at = from;
    for track in 0..tracks {
        at = bar_track::<P>(page, scratch, s, at, v, bar, track);
        let Ok(_) = at else {
            return at;
        };
    }
    at
}

fn one_bar<P: Pass>(
    page: &mut Page,
    scratch: &mut BeatWords,
    s: &[u8],
    from: Place,
    v: u32,
    tracks: u32,
    bar: u32,
) -> Place
    requires { tracks * part_stride ≤ length page.old.parts.now }
    ensures bar { Reaches (file.bar (entering P.counting s.now) v tracks bar (walked page.old))
        s.now from (walked page.new) result }
    ensures lent { SamePage page.old page.new }
{
    page.enter_bar(bar);
    bar_tracks::<P>(page, scratch, s, from, v, tracks, bar)
}

fn every_bar<P: Pass>(
    page: &mut Page,
    scratch: &mut BeatWords,
    s: &[u8],
    from: Place,
    v: u32,
    n: u32,
    tracks: u32,
) -> Place
    requires { tracks * part_stride ≤ length page.old.parts.now }
    ensures bars { Reaches (turns n 0 (file.bar (entering P.counting s.now) v tracks) (walked page.old))
        s.now from (walked page.new) result }
    ensures lent { SamePage page.old page.new }
{
    let mut at = from;
    for bar in 0..n {
        at = one_bar::<P>(page, scratch, s, at, v, tracks, bar);
        let Ok(_) = at else {
            return at;
        };
    }
    at
}

// Of so many tracks those that have all their words there. A file has no more tracks than the reader has words for.
fn tracks_with_words(tracks: u32, page: &Page) -> u32
    ensures { result ≡ min tracks (room page.now.parts.now part_stride) }
{
    let most = tables::room_of(page.parts, into_tracks::parts::PART_WORDS);
    if most < (tracks as usize) {
        return most as u32;
    }
    tracks
}

// All bars, each with its tracks, voices and beats. The words of a beat, of its notes and of a chord serve one beat after another.
// The page has the words of every track.
pub fn all_bars<P: Pass>(
    page: &mut Page,
    s: &[u8],
    from: Place,
    v: u32,
    n: u32,
    tracks: u32,
) -> Place
    ensures bars { let held = min tracks (room page.old.parts.now part_stride) in
        Reaches (turns n 0 (file.bar (entering P.counting s.now) v held) (walked page.old))
        s.now from (walked page.new) result }
    ensures lent { SamePage page.old page.new }
{
    let held = tracks_with_words(tracks, page);
    let mut scratch = BeatWords {
        beat: [0usize; BEAT_WORDS],
        notes: [0usize; 144],
        chord: [0u32; 7],
    };
    every_bar::<P>(page, &mut scratch, s, from, v, n, held)
}
