// Reads each file of the list on standard input (tests/README.md has its form) into lent tables of every size: each of the six in
// turn has every number of words from none to an entry more than the list says is needed. With a table too small the answer must
// be "no room" with all six rooms, and no word changed; else it must be the list's, with the entries of the first reading, and no
// word changed past those that it counts. Before each reading the tables hold other words. A line for each file, and before it
// one for each of the first readings that fail. tools/sizes-list takes the files out of the fixed list.
#![tactic(auto)]

ghost use Rattle.std.specs.Prelude.{◌<◌};

use entries::bars::BAR_WORDS;
use entries::members::MEMBER_WORDS;
use entries::points::POINT_WORDS;
use entries::rows::ROW_WORDS;
use entries::texts::TEXT_WORDS;
use entries::tracks::TRACK_WORDS;
use lent::{Lent, TABLE};
use model::{Answer, Outcome, Sizes, answers};
use show::Shown;
use show::record::{Broken, COUNTS, LOSSES, List, ROOMS, Record, TABLES, WORDS};
use std::fmt::{Display, Formatter, Write};
use std::{fmt, io};

mod lent; // the tables before a reading, lent, and after it

// Bytes of a list.
const ROOM: usize = 32768;

// The words of an entry of each table.
const STRIDES: [u32; TABLES] = [
    BAR_WORDS as u32,
    TRACK_WORDS as u32,
    ROW_WORDS as u32,
    MEMBER_WORDS as u32,
    POINT_WORDS as u32,
    TEXT_WORDS as u32,
];

// Each table whole.
const WHOLE: [u32; TABLES] = [TABLE as u32; TABLES];

// So many readings of a file that fail are named.
const NAMED: u32 = 4;

// What is wrong with a reading: its answer or the dump of it, or the words of a table.
#[derive(Clone, Copy)]
enum Fault {
    Answer,
    Table(&'static str),
}

impl Display for Fault {
    fn fmt<W: Write>(&self, f: &mut Formatter<W>) -> fmt::Result {
        match self {
            Fault::Answer => f.write_str("the answer or its dump is"),
            Fault::Table(name) => write!(f, "{name} are"),
        }
    }
}

// Readings, and those that failed.
#[derive(Clone, Copy)]
struct Tally {
    readings: u32,
    failed: u32,
}

impl Tally {
    fn add(&mut self, more: Tally) {
        self.readings = self.readings.wrapping_add(more.readings);
        self.failed = self.failed.wrapping_add(more.failed);
    }
}

// Words of so many entries of each table; the largest word where a word does not hold that.
fn sizes_of(entries: [u32; TABLES]) -> [u32; TABLES] {
    let mut sizes = entries;
    for (size, stride) in sizes.iter_mut().zip(STRIDES) {
        *size = size.saturating_mul(stride);
    }
    sizes
}

// Whether no table is smaller than needed.
fn enough(sizes: [u32; TABLES], needed: [u32; TABLES]) -> bool {
    sizes.iter().zip(&needed).all(|(size, least)| least <= size)
}

// Every table whole but this one.
fn whole_but(table: usize, words: u32) -> [u32; TABLES]
    requires { table < 6 }
{
    let mut sizes = WHOLE;
    sizes[table] = words;
    sizes
}

// What a record says of each table from one of its words on: the entries kept, or the rooms needed.
fn six_of(record: &Record<'_>, from: usize) -> [u32; TABLES]
    requires { from < 20 }
{
    let mut words = [0; TABLES];
    words.copy_from_slice(&record.words[from..from + TABLES]);
    words
}

// A file of the list, and what its first reading leaves in whole tables.
#[derive(Drop)]
struct File<'a> {
    record: Record<'a>,
    right: Lent,
}

impl File<'_> {
    fn rooms(&self) -> [u32; TABLES] {
        six_of(&self.record, ROOMS)
    }

    // The record that the answer must have: of a file that fits in its tables the list's, else that of "no room".
    fn wanted(&self, fits: bool) -> [u32; WORDS] {
        if fits {
            return self.record.words;
        }
        let mut words = [0; WORDS];
        words[..2].copy_from_slice(&self.record.words[..2]);
        words[2] = answers::outcome_number(Outcome::NoRoom);
        words[ROOMS..LOSSES].copy_from_slice(&self.rooms());
        words
    }

    // The words of the entries that a reading must have left in each table.
    fn kept(&self, fits: bool) -> [u32; TABLES] {
        if fits {
            return sizes_of(six_of(&self.record, COUNTS));
        }
        [0; TABLES]
    }

    // Whether the answer is what it must be. The list has a dump's digest for a file that is read alone.
    fn is_answer(&self, fits: bool, answer: Answer, after: &Lent) -> bool {
        let [number, length, ..] = self.record.words;
        let mut digest = 0;
        if fits {
            digest = show::digest::of_dump(self.record.input, answer, lent::tables(after));
        }
        show::record::answer_words(number, length, answer, digest) == self.wanted(fits)
    }

    // What is wrong with one reading, with tables of these sizes.
    fn fault(&self, sizes: [u32; TABLES], reading: u32) -> Option<Fault> {
        let fits = enough(sizes, sizes_of(self.rooms()));
        let (answer, after) = lent::lend(self.record.input, sizes, reading);
        if !self.is_answer(fits, answer, &after) {
            return Some(Fault::Answer);
        }
        lent::wrong_table(&after, &self.right, self.kept(fits), reading).map(Fault::Table)
    }

    // One reading more. A line says with which sizes it failed, and what is wrong with it.
    fn trial(&self, rt: &impl Print, sizes: [u32; TABLES], tally: &mut Tally) {
        let mut failed = 0;
        if let Some(fault) = self.fault(sizes, tally.readings) {
            failed = 1;
            if tally.failed < NAMED {
                let number = self.record.words[0];
                let lent = Shown(named(sizes));
                let _ = println!(rt; "input {number}, lent {lent} words: {fault} not right");
            }
        }
        tally.add(Tally {
            readings: 1,
            failed,
        });
    }

    // One table of every size, from an entry more than needed down to none; the five others whole.
    fn every_size(&self, rt: &impl Print, table: usize, most: u32, tally: &mut Tally)
        requires { table < 6 }
    {
        for words in (0..=most).rev() {
            self.trial(rt, whole_but(table, words), tally);
        }
    }

    // Whole tables, tables with just the room that is needed, with an entry less, and with none; then each table of every size.
    fn every_reading(&self, rt: &impl Print, tally: &mut Tally) {
        let needed = self.rooms();
        let short = needed.map(|n| n.saturating_sub(1));
        for sizes in [WHOLE, sizes_of(needed), sizes_of(short), [0; TABLES]] {
            self.trial(rt, sizes, tally);
        }
        let most = sizes_of(needed.map(|n| n.saturating_add(1)));
        for table in 0..TABLES {
            self.every_size(rt, table, most[table], tally);
        }
    }

    // Whether whole tables have room for an entry more than needed.
    fn has_room(&self) -> bool {
        enough(WHOLE, sizes_of(self.rooms().map(|n| n.saturating_add(1))))
    }
}

// By the names of the tables.
fn named(words: [u32; TABLES]) -> Sizes {
    let [bars, tracks, rows, members, points, texts] = words;
    Sizes {
        bars,
        tracks,
        rows,
        members,
        points,
        texts,
    }
}

// Every reading of a file, and a line of them. The first, into whole tables, leaves the right words; the second, into tables that
// held others, holds them to the list. A file for which the tables are too small here has failed.
fn try_file(rt: &impl Print, record: Record<'_>) -> Tally {
    let (answer, right) = lent::lend(record.input, WHOLE, 0);
    let file = File { record, right };
    let mut tally = Tally {
        readings: 1,
        failed: 1,
    };
    if file.has_room() {
        tally.failed = 0;
        file.every_reading(rt, &mut tally);
    }
    let [number, length, ..] = record.words;
    // the rooms are those that the reader named; a line that cannot be written is left out
    let rooms = Shown(answer.rooms);
    let Tally { readings, failed } = tally;
    let _ = println!(rt;
        "input {number}, {length} bytes, rooms {rooms}: {readings} readings, {failed} failed"
    );
    tally
}

// Every file of a list: how many they are, and what became of their readings.
fn try_all(rt: &impl Print, bytes: &[u8]) -> Result<(u32, Tally), Broken> {
    let mut list = List::new(bytes)?;
    // four bytes and less than a word behind them are no list of no files
    let Ok(count) = list.word() else {
        return Err(Broken::GoesOn);
    };
    let mut all = Tally {
        readings: 0,
        failed: 0,
    };
    for _ in 0..count {
        all.add(try_file(rt, list.record()?));
    }
    list.end()?;
    Ok((count, all))
}

fn main(rt: HostRuntime) -> io::Result<()> {
    let mut input = [0; ROOM];
    let Ok(data) = show::input::read(&mut rt.reader(), &mut input) else {
        return rt.eprintln("sizes: standard input could not be read");
    };
    match try_all(&rt, data) {
        Ok((count, all)) => {
            let Tally { readings, failed } = all;
            let _ = println!(rt; "sizes: {count} files, {readings} readings, {failed} failed");
            Ok(())
        }
        Err(broken) => eprintln!(rt; "sizes: {broken}"),
    }
}
