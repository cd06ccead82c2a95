// The song's texts, its notices and its lyrics.
ghost use Rattle.std.specs.Prelude.{◌≡◌, Ok};
ghost use Rattle.format.specs.Text.{text_in};
ghost use Rattle.format.specs.Place.{Reaches, Reads, ReadsAs};
ghost use Rattle.song.specs.Info as info;

use bin::NEGATIVE;
use bin::signed::less_one;
use bin::string::{int_byte_string_unused, int_byte_string_unused_past};
use format::{Counted, Place, Range, Reading};
use model::answers::no_lyrics;
use model::{LyricLine, Lyrics};

#[derive(Clone, Copy)]
pub struct Names {
    pub title: Range,
    pub subtitle: Range,
    pub artist: Range,
}

// What the answer says of the song.
#[derive(Clone, Copy)]
pub struct Info {
    pub title: Range,
    pub subtitle: Range,
    pub composer: Range,
    pub lyricist: Range,
    pub copyright: Range,
}

fn names_at(s: &[u8], from: Place) -> Reading<Names>
    ensures { Reads info.names s.now from result }
{
    let (title, at) = int_byte_string_unused(s, from)?;
    let (subtitle, at) = int_byte_string_unused(s, Ok(at))?;
    let (artist, at) = int_byte_string_unused(s, Ok(at))?;
    let at = int_byte_string_unused_past(s, Ok(at))?;
    let names = Names {
        title,
        subtitle,
        artist,
    };
    Ok((names, at))
}

// The music credit from v500 on; before, it is the words.
fn music_at(s: &[u8], at: usize, v: u32, words: Range) -> Reading<Range>
    ensures { ReadsAs (text_in s.now) (info.music v (text_in s.now words)) s.now (Ok at) result }
{
    if 500 <= v {
        return int_byte_string_unused(s, Ok(at));
    }
    Ok((words, at))
}

// A text that is not given is 0 and 0, as the tables and C have it (docs/TABLES.md).
fn composer_of(music: Range, artist: Range) -> Range
    ensures { result ≡ info.composer_of music artist }
{
    if music.end == 0 {
        return artist;
    }
    music
}

fn credits_at(s: &[u8], at: usize, v: u32, names: Names) -> Reading<Info>
    ensures { Reads (info.credits v names) s.now (Ok at) result }
{
    let (lyricist, at) = int_byte_string_unused(s, Ok(at))?;
    let (music, at) = music_at(s, at, v, lyricist)?;
    let (copyright, at) = int_byte_string_unused(s, Ok(at))?;
    let at = int_byte_string_unused_past(s, int_byte_string_unused_past(s, Ok(at)))?;
    let info = Info {
        title: names.title,
        subtitle: names.subtitle,
        composer: composer_of(music, names.artist),
        lyricist,
        copyright,
    };
    Ok((info, at))
}

fn notices_at(s: &[u8], from: usize) -> Place
    ensures { Reaches info.notices s.now (Ok from) tt result }
{
    let (n, at) = bin::count_at(s, Ok(from), Counted::NoticeLines)?;
    let mut at = at;
    let mut i: u32 = 0;
    while i < n {
        at = int_byte_string_unused_past(s, Ok(at))?;
        i += 1;
    }
    Ok(at)
}

// Names and credits; the notices after them are passed over.
pub fn info_at(s: &[u8], from: Place, v: u32) -> Reading<Info>
    ensures { Reads (info.info v) s.now from result }
{
    let (names, at) = names_at(s, from)?;
    let (info, at) = credits_at(s, at, v, names)?;
    let at = notices_at(s, at)?;
    Ok((info, at))
}

// Before v500 the song says whether it has a triplet feel, which is lost.
pub fn triplet_feel_at(s: &[u8], from: Place, v: u32) -> Reading<bool>
    ensures { Reads (info.triplet_feel v) s.now from result }
{
    let at = from?;
    if 500 <= v {
        return Ok((false, at));
    }
    let (feel, at) = bin::u8_at(s, Ok(at))?;
    Ok((feel != 0, at))
}

fn lyric_track(v: u32) -> Option<u32>
    ensures { result ≡ info.lyric_track v }
{
    if NEGATIVE <= v {
        return None;
    }
    if v == 0 {
        return None;
    }
    Some(less_one(v))
}

fn line_at(s: &[u8], at: usize) -> Reading<LyricLine>
    ensures { Reads info.lyric_line s.now (Ok at) result }
{
    let (start, at) = bin::u32_at(s, Ok(at))?;
    let (text, at) = bin::string::int_string(s, Ok(at))?;
    let start = less_one(start);
    Ok((LyricLine { start, text }, at))
}

fn five_lines_at(s: &[u8], at: usize, track: Option<u32>) -> Reading<Lyrics>
    ensures { Reads (info.five_lines track) s.now (Ok at) result }
{
    let (a, at) = line_at(s, at)?;
    let (b, at) = line_at(s, at)?;
    let (c, at) = line_at(s, at)?;
    let (d, at) = line_at(s, at)?;
    let (e, at) = line_at(s, at)?;
    let lines = [a, b, c, d, e];
    Ok((Lyrics { track, lines }, at))
}

// The lyric track and five lines from v400 on.
pub fn lyrics_at(s: &[u8], from: Place, v: u32) -> Reading<Lyrics>
    ensures { Reads (info.lyrics v) s.now from result }
{
    let at = from?;
    if v < 400 {
        return Ok((no_lyrics(), at));
    }
    let (track, at) = bin::u32_at(s, Ok(at))?;
    five_lines_at(s, at, lyric_track(track))
}
