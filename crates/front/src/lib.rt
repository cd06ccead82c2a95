// What stands before the beats: the song, the headers and the tracks.
#![tactic(auto)]

ghost use Rattle.std.specs.Prelude.{◌≤◌, IfOk};
ghost use Rattle.format.specs.Place.{Reaches, ReadsAs};
ghost use Rattle.format.specs.Prog.{turns};
ghost use Rattle.score.specs.File as file;
ghost use Rattle.words.specs.Heads.{staves_of};
ghost use Rattle.front.specs.Front.{song_of, timed_of, header_step, track_step};

use format::{Place, Reading};
use header::Counts;
use model::{Lyrics, Time};
use score::Before;
use song::info::Info;

// All but the channel table.
#[derive(Clone, Copy)]
pub struct SongRead {
    pub version: u32,
    pub info: Info,
    pub swing: bool,
    pub lyrics: Lyrics,
    pub tempo: Option<u16>,
    pub directions: [u16; 19],
    pub counts: Counts,
}

pub fn song_at(s: &[u8], from: Place, programs: &mut [[u8; 16]; 4]) -> Reading<SongRead>
    ensures most { IfOk result (λ r. r.0.counts.tracks ≤ 100) }
    ensures reads { ReadsAs (λ r. song_of r programs.new) file.opening s.now from result }
{
    let (version, at) = song::version::version_at(s, from)?;
    let (info, at) = song::info::info_at(s, Ok(at), version)?;
    let (swing, at) = song::info::triplet_feel_at(s, Ok(at), version)?;
    let (lyrics, at) = song::info::lyrics_at(s, Ok(at), version)?;
    let (tempo, at) = song::setup::setup_at(s, Ok(at), version)?;
    let at = song::setup::channel_table_at(s, Ok(at), programs)?;
    let (directions, at) = song::setup::directions_at(s, Ok(at), version)?;
    let (counts, at) = header::counts_at(s, Ok(at))?;
    let song = SongRead {
        version,
        info,
        swing,
        lyrics,
        tempo,
        directions,
        counts,
    };
    Ok((song, at))
}

// After some headers: the time that the next inherits, what it is compared with, and the losses.
#[derive(Clone, Copy)]
pub struct Heads {
    pub time: Time,
    pub before: Before,
    pub losses: [u32; 17],
}

fn one_header(
    s: &[u8],
    from: Place,
    v: u32,
    numbers: [u16; 19],
    bar: u32,
    heads: &mut Heads,
    bars: &mut [u32],
) -> Place
    ensures { Reaches (header_step v numbers bar (timed_of heads.old.time bars.old heads.old.before heads.old.losses)) s.now from
        (timed_of heads.new.time bars.new heads.new.before heads.new.losses) result }
{
    let (header, next) = header::header_at(s, from, v, heads.time)?;
    let headed = into_bars::add_header(
        numbers,
        bar,
        heads.time,
        header,
        heads.before,
        heads.losses,
        bars,
    );
    let losses = headed.losses;
    *heads = Heads {
        time: header.time,
        before: headed.before,
        losses,
    };
    Ok(next)
}

// The headers of `n` bars.
pub fn headers(
    s: &[u8],
    from: Place,
    v: u32,
    numbers: [u16; 19],
    n: u32,
    heads: &mut Heads,
    bars: &mut [u32],
) -> Place
    ensures { Reaches (turns n 0 (header_step v numbers) (timed_of heads.old.time bars.old heads.old.before heads.old.losses)) s.now
        from (timed_of heads.new.time bars.new heads.new.before heads.new.losses) result }
{
    let mut at = from;
    for bar in 0..n {
        at = one_header(s, at, v, numbers, bar, heads, bars);
        let Ok(_) = at else {
            return at;
        };
    }
    at
}

fn one_track(
    s: &[u8],
    from: Place,
    v: u32,
    programs: [[u8; 16]; 4],
    number: u32,
    losses: &mut [u32; 17],
    tracks: &mut [u32],
    parts: &mut [u32],
) -> Place
    ensures { Reaches (track_step v programs number (staves_of tracks.old parts.old losses.old))
        s.now from (staves_of tracks.new parts.new losses.new) result }
{
    let (track, next) = track::track_at(s, from, v, programs)?;
    *losses = into_tracks::add_track(number, track, *losses, tracks, parts);
    Ok(next)
}

// `n` tracks.
pub fn all_tracks(
    s: &[u8],
    from: Place,
    v: u32,
    programs: [[u8; 16]; 4],
    n: u32,
    losses: &mut [u32; 17],
    tracks: &mut [u32],
    parts: &mut [u32],
) -> Place
    ensures { Reaches (turns n 0 (track_step v programs) (staves_of tracks.old parts.old losses.old))
        s.now from (staves_of tracks.new parts.new losses.new) result }
{
    let mut at = from;
    for number in 0..n {
        at = one_track(s, at, v, programs, number, losses, tracks, parts);
        let Ok(_) = at else {
            return at;
        };
    }
    at
}
