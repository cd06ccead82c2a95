// Tries `utf8` against what tools/utf8-list says, which makes the file stdout by other means: each byte written and read back; every text
// of up to three bytes read back, a line for each first byte; and the traps by name. Every buffer holds other bytes before a call.
#![tactic(auto)]

use format::Range;
use std::fmt::{Display, Formatter, Write};
use std::{fmt, io};
use utf8::CodingError;

const FILL: u8 = 170;

// The bytes of a text that is tried, at most, and of a buffer that always has room for it as UTF-8.
const LONGEST: usize = 3;

const ROOM: usize = 9;

// ---- what is printed

#[derive(Clone, Copy)]
struct Bytes<'a>(&'a [u8]);

impl Display for Bytes<'_> {
    fn fmt<W: Write>(&self, f: &mut Formatter<W>) -> fmt::Result {
        for byte in self.0 {
            write!(f, " {byte:02x}")?;
        }
        Ok(())
    }
}

// A call's answer, and the buffer after it.
#[derive(Clone, Copy)]
struct Answered<'a>(Result<usize, CodingError>, &'a [u8]);

impl Display for Answered<'_> {
    fn fmt<W: Write>(&self, f: &mut Formatter<W>) -> fmt::Result {
        let number = utf8::number(self.0);
        let length = utf8::length(self.0);
        write!(f, ": {number} {length},{}", Bytes(self.1))
    }
}

// ---- each byte

fn try_byte(rt: &impl Print, x: u8) -> io::Result<()> {
    let data = [x];
    let mut out = [FILL; LONGEST + 1];
    let answer = utf8::to_utf8(&data, Range { start: 0, end: 1 }, &mut out);
    let mut again = [FILL; 2];
    let back = utf8::from_utf8(bin::text(&out, 0, utf8::length(answer)), &mut again);
    print!(rt; "byte{}{}", Bytes(&data), Answered(answer, &out))?;
    println!(rt; "; back{}", Answered(back, &again))
}

fn try_bytes(rt: &impl Print) -> io::Result<()> {
    for x in 0..=u8::MAX {
        try_byte(rt, x)?;
    }
    Ok(())
}

// ---- every text of up to three bytes

fn is_filled(bytes: &[u8]) -> bool {
    bytes.iter().all(|byte| *byte == FILL)
}

// Whether bytes are this text when they are written again, and nothing stands behind it.
fn comes_back(text: &[u8], bytes: &[u8]) -> bool {
    let range = Range {
        start: 0,
        end: bytes.len(),
    };
    let mut out = [FILL; ROOM];
    let Ok(n) = utf8::to_utf8(bytes, range, &mut out) else {
        return false;
    };
    bin::text(&out, 0, n) == text && is_filled(bin::text(&out, n, ROOM))
}

// Of the texts with one first byte: how many are accepted, of those with one, two and three bytes; what they are and give, digested; and
// how many have a fault: another refusal than 10, a byte of the buffer touched that should not be, or another text when written again.
#[derive(Clone, Copy, Default)]
struct Tally {
    ones: u32,
    twos: u32,
    threes: u32,
    digest: u32,
    faults: u32,
}

fn count(n: &mut u32, yes: bool) {
    *n = n.wrapping_add(u32::from(yes));
}

impl Tally {
    fn digest(&mut self, bytes: &[u8]) {
        for byte in bytes {
            self.digest = self
                .digest
                .wrapping_mul(16777619)
                .wrapping_add(u32::from(*byte) + 1);
        }
    }

    fn accept(&mut self, text: &[u8], out: &[u8], n: usize) {
        let bytes = bin::text(out, 0, n);
        let right = is_filled(bin::text(out, n, out.len())) && comes_back(text, bytes);
        count(&mut self.ones, text.len() == 1);
        count(&mut self.twos, text.len() == 2);
        count(&mut self.threes, text.len() == 3);
        count(&mut self.faults, !right);
        self.digest(text);
        self.digest(bytes);
    }

    fn try_text(&mut self, text: &[u8]) {
        let mut out = [FILL; LONGEST];
        match utf8::from_utf8(text, &mut out) {
            Ok(n) => self.accept(text, &out, n),
            refused => {
                let right = utf8::number(refused) == 10 && is_filled(&out);
                count(&mut self.faults, !right);
            }
        }
    }

    fn with_two(&mut self, first: u8, second: u8) {
        self.try_text(&[first, second]);
        for third in 0..=u8::MAX {
            self.try_text(&[first, second, third]);
        }
    }

    fn with_one(&mut self, first: u8) {
        self.try_text(&[first]);
        for second in 0..=u8::MAX {
            self.with_two(first, second);
        }
    }
}

fn try_texts(rt: &impl Print) -> io::Result<()> {
    for first in 0..=u8::MAX {
        let mut tally = Tally::default();
        tally.with_one(first);
        let Tally {
            ones,
            twos,
            threes,
            digest,
            faults,
        } = tally;
        print!(rt; "texts from {first:02x}: {ones} {twos} {threes}")?;
        println!(rt; ", digest {digest}, faults {faults}")?;
    }
    Ok(())
}

// ---- the traps by name

fn read_back(rt: &impl Print, name: &str, text: &[u8], room: usize) -> io::Result<()> {
    let mut space = [FILL; ROOM];
    let out = &mut space[..room.min(ROOM)];
    let answer = utf8::from_utf8(text, out);
    println!(rt; "{name}{}", Answered(answer, out))
}

fn write(
    rt: &impl Print,
    name: &str,
    data: &[u8],
    start: usize,
    end: usize,
    room: usize,
) -> io::Result<()> {
    let mut space = [FILL; ROOM];
    let out = &mut space[..room.min(ROOM)];
    let answer = utf8::to_utf8(data, Range { start, end }, out);
    println!(rt; "{name}{}", Answered(answer, out))
}

fn read_traps(rt: &impl Print) -> io::Result<()> {
    read_back(rt, "control character 80", &[0xC2, 0x80], ROOM)?;
    read_back(rt, "not shortest, C0 80", &[0xC0, 0x80], ROOM)?;
    read_back(rt, "not shortest, C1 81", &[0xC1, 0x81], ROOM)?;
    read_back(rt, "not shortest, E0 82 80", &[0xE0, 0x82, 0x80], ROOM)?;
    read_back(rt, "cut off, E2 82", &[0xE2, 0x82], ROOM)?;
    read_back(rt, "cut off, A E2 82", &[0x41, 0xE2, 0x82], ROOM)?;
    read_back(rt, "cut off, C3", &[0xC3], ROOM)?;
    read_back(rt, "byte order mark", &[0xEF, 0xBB, 0xBF], ROOM)?;
    read_back(rt, "80 alone", &[0x80], ROOM)?;
    read_back(rt, "four bytes", &[0xF0, 0x9F, 0x8E, 0xB8], ROOM)?;
    read_back(rt, "surrogate", &[0xED, 0xA0, 0x80], ROOM)
}

fn read_others(rt: &impl Print) -> io::Result<()> {
    read_back(rt, "euro sign", &[0xE2, 0x82, 0xAC], ROOM)?;
    read_back(rt, "E9", &[0xC3, 0xA9], ROOM)?;
    read_back(rt, "zero byte", &[0x41, 0, 0x42], ROOM)?;
    read_back(rt, "no text", &[], 0)?;
    read_back(rt, "no character before no room", &[0x41, 0xFF], 0)?;
    read_back(rt, "no character after A", &[0x41, 0xFF], ROOM)?;
    read_back(rt, "no room", &[0x41, 0xE2, 0x82, 0xAC], 1)?;
    read_back(rt, "just room", &[0x41, 0xE2, 0x82, 0xAC], 2)
}

fn write_traps(rt: &impl Print) -> io::Result<()> {
    let data = [0x41, 0xE9, 0x80, 0];
    write(rt, "E9 into one byte", &data, 1, 2, 1)?;
    write(rt, "E9 into two", &data, 1, 2, 2)?;
    write(rt, "all into six", &data, 0, 4, 6)?;
    write(rt, "all into seven", &data, 0, 4, 7)?;
    write(rt, "all into nine", &data, 0, 4, ROOM)?;
    write(rt, "empty range", &data, 0, 0, 0)?;
    write(rt, "empty range at the end", &data, 4, 4, 2)?;
    write(rt, "start after end", &data, 3, 2, ROOM)?;
    write(rt, "start after end, no room", &data, 3, 2, 0)?;
    write(rt, "end past the input", &data, 0, 5, ROOM)?;
    write(rt, "end past the input, no room", &data, 5, 5, 0)
}

fn main(rt: HostRuntime) -> io::Result<()> {
    try_bytes(&rt)?;
    read_traps(&rt)?;
    read_others(&rt)?;
    write_traps(&rt)?;
    try_texts(&rt)
}
