// Writes the dump of the file on standard input, of at most 1 MiB: the answer of its reading, and the tables entry by entry.
#![tactic(auto)]

use entries::bars::BAR_WORDS;
use entries::members::MEMBER_WORDS;
use entries::points::POINT_WORDS;
use entries::rows::ROW_WORDS;
use entries::texts::TEXT_WORDS;
use entries::tracks::TRACK_WORDS;
use model::Answer;
use show::Tables;
use show::page::Page;
use std::io;
use std::io::Write;

// One byte more than is taken, to tell a longer file.
const ROOM: usize = 1048577;

const BARS: usize = 2000 * BAR_WORDS;

const TRACKS: usize = 100 * TRACK_WORDS;

const ROWS: usize = 16384 * ROW_WORDS;

const MEMBERS: usize = 32768 * MEMBER_WORDS;

const POINTS: usize = 16384 * POINT_WORDS;

const TEXTS: usize = 4096 * TEXT_WORDS;

fn print(rt: &impl Print, data: &[u8], answer: Answer, tables: Tables<'_>) -> io::Result<()> {
    let mut page = Page::new(io::writer(rt));
    show::dump(&mut page, data, answer, tables)?;
    page.flush()
}

fn print_file(rt: &(impl Print + Eprint), data: &[u8]) -> io::Result<()> {
    let mut bars = [0; BARS];
    let mut tracks = [0; TRACKS];
    let mut rows = [0; ROWS];
    let mut members = [0; MEMBERS];
    let mut points = [0; POINTS];
    let mut texts = [0; TEXTS];
    let answer = reader::read(
        data,
        &mut bars,
        &mut tracks,
        &mut rows,
        &mut members,
        &mut points,
        &mut texts,
    );
    let tables = Tables {
        bars: &bars,
        tracks: &tracks,
        rows: &rows,
        members: &members,
        points: &points,
        texts: &texts,
    };
    if print(rt, data, answer, tables).is_err() {
        return rt.eprintln("dump: standard output could not be written");
    }
    Ok(())
}

fn dump(rt: &(impl io::Input + Print + Eprint), room: &mut [u8; ROOM]) -> io::Result<()> {
    let Ok(data) = show::input::read(&mut rt.reader(), room) else {
        return rt.eprintln("dump: standard input could not be read");
    };
    if data.len() == ROOM {
        return rt.eprintln("dump: the file has more than 1,048,576 bytes");
    }
    print_file(rt, data)
}

fn main(rt: HostRuntime) -> io::Result<()> {
    let mut room = [0; ROOM];
    dump(&rt, &mut room)
}
