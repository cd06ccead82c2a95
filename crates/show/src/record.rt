// The oracle's list: after its first four bytes and the number of records, each record is 38 words and an input. After them come the
// records whose inputs are held in short. tests/README.md has the words.
use model::{Answer, Sizes, answers};
use std::fmt;
use std::fmt::{Display, Formatter, Write};

const MAGIC: &[u8; 4] = b"GPFL";

// The words of a record before its input.
pub const WORDS: usize = 38;

// Where the six counts and the six rooms stand, and the losses.
pub const COUNTS: usize = 7;

pub const ROOMS: usize = 13;

pub const LOSSES: usize = 19;

// The six tables.
pub const TABLES: usize = 6;

const WORD: u64 = 1 << 32;

// What is wrong with a list.
#[derive(Clone, Copy)]
pub enum Broken {
    NoList,
    Ends,
    GoesOn,
}

impl Display for Broken {
    fn fmt<W: Write>(&self, f: &mut Formatter<W>) -> fmt::Result {
        f.write_str(match self {
            Broken::NoList => "no list",
            Broken::Ends => "the list ends within a record",
            Broken::GoesOn => "the list goes on after its last record",
        })
    }
}

// What is left of a list: what was taken of it stands no more at its start.
#[derive(Clone, Copy)]
pub struct List<'a> {
    left: &'a [u8],
}

#[derive(Clone, Copy)]
pub struct Record<'a> {
    pub words: [u32; WORDS],
    pub input: &'a [u8],
}

impl<'a> List<'a> {
    // A list from its number of records on.
    pub fn new(bytes: &'a [u8]) -> Result<List<'a>, Broken> {
        match bytes.strip_prefix(MAGIC) {
            Some(left) => Ok(List { left }),
            None => Err(Broken::NoList),
        }
    }

    pub fn word(&mut self) -> Result<u32, Broken> {
        let Some((word, left)) = self.left.split_first_chunk::<4>() else {
            return Err(Broken::Ends);
        };
        self.left = left;
        Ok(u32::from_le_bytes(*word))
    }

    pub fn record(&mut self) -> Result<Record<'a>, Broken> {
        let mut words = [0; WORDS];
        for word in &mut words {
            *word = self.word()?;
        }
        let Some((input, left)) = self.left.split_at_checked(words[1] as usize) else {
            return Err(Broken::Ends);
        };
        self.left = left;
        Ok(Record { words, input })
    }

    // After its last record.
    pub fn end(self) -> Result<(), Broken> {
        if self.left.is_empty() {
            Ok(())
        } else {
            Err(Broken::GoesOn)
        }
    }
}

// In the order of the tables.
fn in_order(x: Sizes) -> [u32; TABLES] {
    [x.bars, x.tracks, x.rows, x.members, x.points, x.texts]
}

// The words of a record of this answer.
pub fn answer_words(number: u32, length: u32, answer: Answer, digest: u64) -> [u32; WORDS] {
    let outcome = answer.outcome;
    let head = [
        number,
        length,
        answers::outcome_number(outcome),
        answers::outcome_which(outcome),
        bin::signed::from_i32(answers::outcome_value(outcome)),
        tables::low(answers::outcome_offset(outcome)),
        tables::low(answer.song.used),
    ];
    let counts = in_order(answer.counts);
    let rooms = in_order(answer.rooms);
    let losses = answers::loss_words(answer.losses);
    let halves = [(digest % WORD) as u32, (digest / WORD) as u32];
    let entries = counts.iter().chain(&rooms);
    let others = losses.iter().chain(&halves);
    let mut words = [0; WORDS];
    for (word, said) in words
        .iter_mut()
        .zip(head.iter().chain(entries).chain(others))
    {
        *word = *said;
    }
    words
}
