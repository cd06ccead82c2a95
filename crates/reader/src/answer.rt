// The answer of a reading, by what its passes left.
ghost use Rattle.std.specs.Prelude.{◌≡◌, []};
ghost use Rattle.model.specs.Answers.{losses_of};
ghost use Rattle.score.specs.Reading as reading;
ghost use Rattle.score.specs.Score.{first_tempo};
ghost use Rattle.words.specs.Left.{needed_by, entries_by};
ghost use Rattle.front.specs.Front.{song_of};
ghost use Rattle.reader.specs.Answered.{answered};
ghost use Rattle.reader.specs.Lent.{tables_of};

use crate::Tables;
use crate::pass::Passed;
use entries::Entry;
use front::SongRead;
use header::Counts;
use model::{Answer, Bar, Losses, Member, Point, Row, Sizes, Song, Text, Track, kinds};
use score::Tally;

// The rooms that a file needs.
pub fn rooms_of(counts: Counts, tally: Tally) -> Sizes
    ensures { result ≡ needed_by counts tally }
{
    let kept = tally.kept;
    Sizes {
        bars: counts.bars,
        tracks: counts.tracks,
        rows: kept.rows,
        members: kept.members,
        points: tally.point_room,
        texts: tally.text_room,
    }
}

// The entries that were kept.
fn entries_of(counts: Counts, tally: Tally) -> Sizes
    ensures { result ≡ entries_by counts tally }
{
    let kept = tally.kept;
    Sizes {
        bars: counts.bars,
        tracks: counts.tracks,
        rows: kept.rows,
        members: kept.members,
        points: kept.points,
        texts: tally.texts,
    }
}

// Whether the tables have room, in whole entries.
pub fn has_room(rooms: Sizes, lent: &Tables) -> bool
    ensures { result ≡ reading.enough rooms (tables_of lent.now) }
{
    (rooms.bars as usize <= Bar::room(lent.bars))
        & (rooms.tracks as usize <= Track::room(lent.tracks))
        & (rooms.rows as usize <= Row::room(lent.rows))
        & (rooms.members as usize <= Member::room(lent.members))
        & (rooms.points as usize <= Point::room(lent.points))
        & (rooms.texts as usize <= Text::room(lent.texts))
}

// The tempo of bar 0 if it has one, else the file's.
fn tempo_of(first: Option<u16>, file: Option<u16>) -> Option<u16>
    ensures { result ≡ first_tempo first file }
{
    match first {
        None => file,
        Some(n) => Some(n),
    }
}

fn song_of(song: SongRead, first: Option<u16>, used: usize) -> Song
    ensures { result ≡ reading.song_of (song_of song []) first used }
{
    Song {
        used,
        version: song.version,
        title: song.info.title,
        subtitle: song.info.subtitle,
        composer: song.info.composer,
        lyricist: song.info.lyricist,
        copyright: song.info.copyright,
        lyrics: song.lyrics,
        tempo: tempo_of(first, song.tempo),
    }
}

fn losses_of(lost: [u32; 17]) -> Losses
    ensures { result ≡ losses_of lost }
{
    model::answers::losses_of(&lost)
}

// The answer of outcome 0, after a pass that filled the tables.
pub fn answer_of(passed: Passed, used: usize, lent: &Tables) -> Answer
    ensures { result ≡ answered passed.song passed.tally used lent.now.bars.now }
{
    let read = passed.song;
    let tally = passed.tally;
    let counts = read.counts;
    let first = kinds::tempo_of(tables::load(lent.bars, entries::bars::TEMPO));
    let song = song_of(read, first, used);
    let losses = losses_of(tally.losses);
    model::answers::read_answer(
        song,
        entries_of(counts, tally),
        rooms_of(counts, tally),
        losses,
    )
}
