// Reads every input of the list on standard input, and holds the answer and the dump to what the list says of it (tests/README.md
// has the list's form). A line names each input that differs, and in what; the last line counts them.
#![tactic(auto)]

use entries::bars::BAR_WORDS;
use entries::members::MEMBER_WORDS;
use entries::points::POINT_WORDS;
use entries::rows::ROW_WORDS;
use entries::texts::TEXT_WORDS;
use entries::tracks::TRACK_WORDS;
use show::Tables;
use show::page::Page;
use show::record::{Broken, List, Record, WORDS};
use std::io;
use std::io::Write;

// Bytes of a list.
const ROOM: usize = 1048576;

// Bytes of an input that the list has in short, and the byte that it leaves out of it.
const STRETCHED: usize = 1056768;

const FILL: u8 = b'x';

// What the words of a record say.
const NAMES: [&str; WORDS] = [
    "number",
    "length",
    "outcome",
    "which",
    "value",
    "offset",
    "used",
    "bars",
    "tracks",
    "rows",
    "members",
    "points",
    "texts",
    "room for bars",
    "room for tracks",
    "room for rows",
    "room for members",
    "room for points",
    "room for texts",
    "drum-kit",
    "harmonic-type",
    "let-ring-with-palm-mute",
    "on-beat-grace",
    "repeat-count",
    "triplet-feel",
    "chord-diagram",
    "direction",
    "fingering",
    "mix-change",
    "rasgueado",
    "right-hand-fingering",
    "slide-type",
    "tapping",
    "volume-swell",
    "wah",
    "whammy",
    "low half of the dump's digest",
    "high half of the dump's digest",
];

// How many inputs were replayed, and how many of them differ.
#[derive(Clone, Copy)]
struct Replayed {
    inputs: u32,
    differ: u32,
}

impl Replayed {
    fn add(&mut self, differs: bool) {
        self.inputs = self.inputs.saturating_add(1);
        self.differ = self.differ.saturating_add(u32::from(differs));
    }
}

// The words of a record of this input, which is read. `length` is how many bytes of it the list has.
fn read_words(number: u32, length: u32, input: &[u8]) -> [u32; WORDS] {
    let mut bars = [0; 4 * BAR_WORDS];
    let mut tracks = [0; 100 * TRACK_WORDS];
    let mut rows = [0; 1024 * ROW_WORDS];
    let mut members = [0; 128 * MEMBER_WORDS];
    let mut points = [0; 1024 * POINT_WORDS];
    let mut texts = [0; 16 * TEXT_WORDS];
    let answer = reader::read(
        input,
        &mut bars,
        &mut tracks,
        &mut rows,
        &mut members,
        &mut points,
        &mut texts,
    );
    let tables = Tables {
        bars: &bars,
        tracks: &tracks,
        rows: &rows,
        members: &members,
        points: &points,
        texts: &texts,
    };
    let digest = show::digest::of_dump(input, answer, tables);
    show::record::answer_words(number, length, answer, digest)
}

// Names the words in which an input's record differs from the list's, in a line.
fn write_differences(
    out: &mut impl Write,
    listed: &[u32; WORDS],
    read: &[u32; WORDS],
) -> io::Result<()> {
    let mut named = false;
    for ((name, listed), word) in NAMES.iter().zip(listed).zip(read) {
        if listed != word {
            if named {
                write!(out, ", {name}")?;
            } else {
                write!(out, "input {}: {name}", read[0])?;
            }
            named = true;
        }
    }
    writeln!(out)
}

// One write; a line that cannot be written is left out.
fn name_differences(rt: &impl Print, listed: &[u32; WORDS], read: &[u32; WORDS]) {
    let mut page = Page::new(io::writer(rt));
    let _ = write_differences(&mut page, listed, read);
    let _ = page.flush();
}

// Whether an input's record differs from the list's.
fn differs(rt: &impl Print, number: u32, record: &Record<'_>, input: &[u8]) -> bool {
    let read = read_words(number, record.words[1], input);
    if read == record.words {
        return false;
    }
    name_differences(rt, &record.words, &read);
    true
}

// Bytes from the start of a room on, as far as it goes.
fn put(room: &mut [u8], bytes: &[u8]) {
    for (to, byte) in room.iter_mut().zip(bytes) {
        *to = *byte;
    }
}

// The input of a record that the list has in short: bytes are left out at a place of it, of which the room is full.
fn stretched<'a>(
    room: &'a mut [u8; STRETCHED],
    listed: &[u8],
    place: u32,
    left_out: u32,
) -> &'a [u8] {
    let (before, after) = listed
        .split_at_checked(place as usize)
        .unwrap_or((&[], &[]));
    let run = left_out as usize;
    put(room, before);
    if let Some(rest) = room.get_mut(before.len() + run..) {
        put(rest, after);
    }
    room.get(..listed.len() + run).unwrap_or(&[])
}

// The records of inputs that the list has whole.
fn replay_whole(
    rt: &impl Print,
    list: &mut List<'_>,
    replayed: &mut Replayed,
) -> Result<(), Broken> {
    for _ in 0..list.word()? {
        let record = list.record()?;
        replayed.add(differs(rt, replayed.inputs, &record, record.input));
    }
    Ok(())
}

// Those of inputs that it has in short: before the record stand the place where bytes are left out and their number.
fn replay_short(
    rt: &impl Print,
    list: &mut List<'_>,
    replayed: &mut Replayed,
) -> Result<(), Broken> {
    for _ in 0..list.word()? {
        let place = list.word()?;
        let left_out = list.word()?;
        let record = list.record()?;
        let mut room = [FILL; STRETCHED];
        let input = stretched(&mut room, record.input, place, left_out);
        replayed.add(differs(rt, replayed.inputs, &record, input));
    }
    Ok(())
}

fn replay_list(rt: &impl Print, bytes: &[u8]) -> Result<Replayed, Broken> {
    let mut list = List::new(bytes)?;
    let mut replayed = Replayed {
        inputs: 0,
        differ: 0,
    };
    replay_whole(rt, &mut list, &mut replayed)?;
    replay_short(rt, &mut list, &mut replayed)?;
    list.end()?;
    Ok(replayed)
}

fn replay(rt: &(impl io::Input + Print + Eprint), room: &mut [u8; ROOM]) -> io::Result<()> {
    let Ok(data) = show::input::read(&mut rt.reader(), room) else {
        return rt.eprintln("replay: standard input could not be read");
    };
    match replay_list(rt, data) {
        Ok(all) => {
            let _ = println!(rt; "replay: {} inputs, {} differ", all.inputs, all.differ);
            Ok(())
        }
        Err(broken) => eprintln!(rt; "replay: {broken}"),
    }
}

fn main(rt: HostRuntime) -> io::Result<()> {
    let mut room = [0; ROOM];
    replay(&rt, &mut room)
}
