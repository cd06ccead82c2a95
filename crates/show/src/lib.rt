// What programs show of an answer and its tables: the dump, a line for each entry.
#![tactic(auto)]

use entries::Entry;
use model::{Answer, Bar, Losses, Member, Outcome, Point, Row, Song, Text, Track, answers};
use std::fmt::Display;
use std::io;
use std::io::Write;

pub mod digest; // the digest of a dump
pub mod input; // standard input
mod kinds; // the words of the small kinds
mod lines; // the lines of entries
pub mod page; // lines gathered before they are written
pub mod record; // the oracle's list

// A value as the dump has it.
#[derive(Clone, Copy)]
pub struct Shown<T>(pub T);

// The six tables that an input was read into.
#[derive(Clone, Copy)]
pub struct Tables<'a> {
    pub bars: &'a [u32],
    pub tracks: &'a [u32],
    pub rows: &'a [u32],
    pub members: &'a [u32],
    pub points: &'a [u32],
    pub texts: &'a [u32],
}

// The dump of an answer and of the tables that the input was read into.
pub fn dump(
    out: &mut impl Write,
    data: &[u8],
    answer: Answer,
    tables: Tables<'_>,
) -> io::Result<()> {
    let song = answer.song;
    head(out, data, answer)?;
    if song.version != 0 {
        song_lines(out, song)?;
    }
    table_lines(out, answer, tables)?;
    if song.version != 0 {
        loss_lines(out, answer.losses)?;
    }
    writeln!(out, "end")
}

// Family and outcome; entries kept and rooms needed of a reading; rooms needed where a table is short.
fn head(out: &mut impl Write, data: &[u8], answer: Answer) -> io::Result<()> {
    writeln!(out, "family {}", Shown(song::version::is_gp5_family(data)))?;
    writeln!(out, "outcome {}", Shown(answer.outcome))?;
    match answer.outcome {
        Outcome::Read => {
            writeln!(out, "counts {}", Shown(answer.counts))?;
            writeln!(out, "rooms {}", Shown(answer.rooms))
        }
        Outcome::NoRoom => writeln!(out, "rooms {}", Shown(answer.rooms)),
        _ => Ok(()),
    }
}

// The song of a reading, with its lyrics from v400 on.
fn song_lines(out: &mut impl Write, song: Song) -> io::Result<()> {
    writeln!(out, "song {}", Shown(song))?;
    if song.version < 400 {
        return Ok(());
    }
    for (i, line) in song.lyrics.lines.iter().enumerate() {
        writeln!(out, "lyric {i} {}", Shown(*line))?;
    }
    Ok(())
}

fn table_lines(out: &mut impl Write, answer: Answer, tables: Tables<'_>) -> io::Result<()> {
    let kept = answer.counts;
    entry_lines::<Bar>(out, "bar", kept.bars, tables.bars)?;
    entry_lines::<Track>(out, "track", kept.tracks, tables.tracks)?;
    entry_lines::<Row>(out, "row", kept.rows, tables.rows)?;
    entry_lines::<Member>(out, "member", kept.members, tables.members)?;
    entry_lines::<Point>(out, "point", kept.points, tables.points)?;
    entry_lines::<Text>(out, "text", kept.texts, tables.texts)
}

// A line for each entry of a table: the name of the line, its number, and what it holds.
fn entry_lines<E: Entry>(
    out: &mut impl Write,
    name: &str,
    count: u32,
    table: &[u32],
) -> io::Result<()>
where
    Shown<E>: Display + Drop,
{
    for i in 0..count {
        if let Some(entry) = E::at(table, i as usize) {
            writeln!(out, "{name} {i} {}", Shown(entry))?;
        }
    }
    Ok(())
}

// The codes of what was not kept, in byte order.
const LOST: [&str; 17] = [
    "drum-kit",
    "harmonic-type",
    "let-ring-with-palm-mute",
    "on-beat-grace",
    "repeat-count",
    "triplet-feel",
    "unsupported-chord-diagram",
    "unsupported-direction",
    "unsupported-fingering",
    "unsupported-mix-change",
    "unsupported-rasgueado",
    "unsupported-right-hand-fingering",
    "unsupported-slide-type",
    "unsupported-tapping",
    "unsupported-volume-swell",
    "unsupported-wah",
    "unsupported-whammy",
];

fn loss_lines(out: &mut impl Write, x: Losses) -> io::Result<()> {
    for (i, (code, count)) in LOST.iter().zip(answers::loss_words(x)).enumerate() {
        writeln!(out, "loss {i} code=gp.{code} count={count}")?;
    }
    Ok(())
}
