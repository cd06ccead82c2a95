// The six lent tables: what they hold before a reading, the reading, and what they hold after it.
use model::Answer;
use show::Tables;
use show::record::TABLES;
use std::array;

// Words of a table, of which a part is lent.
pub const TABLE: usize = 1024;

// The six tables whole, each with the words of it that were not lent.
pub type Lent = [[u32; TABLE]; TABLES];

const NAMES: [&str; TABLES] = ["bars", "tracks", "rows", "members", "points", "texts"];

// What word `i` of a table holds before a reading: something else in each word, and for each reading.
fn held(reading: u32, table: usize, i: usize) -> u32 {
    let mark = reading % 8192 * 8 + (table % 8) as u32;
    (mark * 65536 + (i % 65536) as u32) ^ 2779096485
}

fn held_table(reading: u32, table: usize) -> [u32; TABLE] {
    array::from_fn(|i| held(reading, table, i))
}

// So many words of a table, from its first on, or all.
fn part(t: &mut [u32], words: u32) -> &mut [u32] {
    let n = t.len().min(words as usize);
    &mut t[..n]
}

// Reads a file into so many words of each table.
pub fn lend(file: &[u8], sizes: [u32; TABLES], reading: u32) -> (Answer, Lent) {
    let mut bars = held_table(reading, 0);
    let mut tracks = held_table(reading, 1);
    let mut rows = held_table(reading, 2);
    let mut members = held_table(reading, 3);
    let mut points = held_table(reading, 4);
    let mut texts = held_table(reading, 5);
    let answer = reader::read(
        file,
        part(&mut bars, sizes[0]),
        part(&mut tracks, sizes[1]),
        part(&mut rows, sizes[2]),
        part(&mut members, sizes[3]),
        part(&mut points, sizes[4]),
        part(&mut texts, sizes[5]),
    );
    (answer, [bars, tracks, rows, members, points, texts])
}

pub fn tables(lent: &Lent) -> Tables<'_> {
    Tables {
        bars: &lent[0],
        tracks: &lent[1],
        rows: &lent[2],
        members: &lent[3],
        points: &lent[4],
        texts: &lent[5],
    }
}

// Whether a table has the right words as far as entries are kept, and from there on those that it held.
fn is_right(
    after: &[u32; TABLE],
    right: &[u32; TABLE],
    kept: u32,
    reading: u32,
    table: usize,
) -> bool {
    let n = TABLE.min(kept as usize);
    after[..n] == right[..n] && (n..TABLE).all(|i| after[i] == held(reading, table, i))
}

// The first table that is not right, by its name. Of each so many words are kept.
pub fn wrong_table(
    after: &Lent,
    right: &Lent,
    kept: [u32; TABLES],
    reading: u32,
) -> Option<&'static str> {
    for (table, name) in NAMES.iter().enumerate() {
        if !is_right(&after[table], &right[table], kept[table], reading, table) {
            return Some(name);
        }
    }
    None
}
