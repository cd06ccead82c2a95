// Counts of bars and tracks, and bar headers.
#![tactic(auto)]

ghost use Rattle.std.specs.Prelude.{◌≡◌, Ok};
ghost use Rattle.format.specs.Text.{text_in};
ghost use Rattle.format.specs.Prog.{ret, when_bits, has};
ghost use Rattle.format.specs.Place.{Reaches, Reads, ReadsAs};
ghost use Rattle.format.specs.Fields as field;
ghost use Rattle.header.specs.Header as head;

use bin::skip_at;
use format::{Counted, NO_RANGE, Place, Range, Reading, Stop};
use model::{Key, Mode, Time};

// What the file says of itself, and no two of the counts that are kept: those have the same fields by chance.
#[derive(Clone, Copy)]
pub struct Counts {
    pub bars: u32,
    pub tracks: u32,
}

// What stands between a header's time and its tail: how often its repeat is played, its ending byte before v500, its
// marker and its key.
#[derive(Clone, Copy)]
pub struct Marks {
    pub times: u8,
    pub ending: u8,
    pub marker: Range,
    pub key: Key,
}

// What a bar header ends with from v500 on.
#[derive(Clone, Copy)]
pub struct Tail {
    pub mask: u8,
    pub swing: bool,
}

// A bar header as read; the ending and its passes are 0 where there are none.
#[derive(Clone, Copy)]
pub struct Header {
    pub time: Time,
    pub key: Key,
    pub repeat_start: bool,
    pub repeat_end: bool,
    pub double_bar: bool,
    pub ending: u8,
    pub passes: u8,
    pub marker: Range,
    pub repeat_lost: bool,
    pub swing_lost: bool,
}

const COMMON_TIME: Time = Time {
    numerator: 4,
    denominator: 4,
};

// The counts of bars and tracks: both are read before "empty" is judged.
pub fn counts_at(s: &[u8], from: Place) -> Reading<Counts>
    ensures { Reads head.counts s.now from result }
{
    let (bars, at) = bin::count_at(s, from, Counted::Bars)?;
    let (tracks, at) = bin::count_at(s, Ok(at), Counted::Tracks)?;
    if bars == 0 {
        return Err(Stop::Empty);
    }
    if tracks == 0 {
        return Err(Stop::Empty);
    }
    Ok((Counts { bars, tracks }, at))
}

// Whether the flags have a bit of the mask.
pub fn has(flags: u8, mask: u8) -> bool
    ensures { result ≡ has flags mask }
{
    flags & mask != 0
}

// A byte that stands only where the flags have a bit of the mask, and else another.
fn byte_where(s: &[u8], at: usize, flags: u8, mask: u8, other: u8) -> Reading<u8>
    ensures { Reads (when_bits flags mask field.u8 (ret other)) s.now (Ok at) result }
{
    if flags & mask == 0 {
        return Ok((other, at));
    }
    bin::u8_at(s, Ok(at))
}

fn is_power_of_two(n: u8) -> bool
    ensures { result ≡ head.power_of_two n }
{
    u8::count_ones(n) == 1
}

fn time_of(numerator: u8, denominator: u8) -> Time
    ensures { result ≡ head.time_of numerator denominator }
{
    if numerator == 0 {
        return COMMON_TIME;
    }
    if is_power_of_two(denominator) {
        return Time {
            numerator,
            denominator,
        };
    }
    COMMON_TIME
}

fn time_at(s: &[u8], at: usize, flags: u8, before: Time) -> Reading<Time>
    ensures { Reads (head.time flags before) s.now (Ok at) result }
{
    let (numerator, at) = byte_where(s, at, flags, 0x01, before.numerator)?;
    let (denominator, at) = byte_where(s, at, flags, 0x02, before.denominator)?;
    Ok((time_of(numerator, denominator), at))
}

// Before v500 an ending byte may stand here.
fn ending_at(s: &[u8], at: usize, v: u32, flags: u8) -> Reading<u8>
    ensures { Reads (head.ending_byte v flags) s.now (Ok at) result }
{
    if 500 <= v {
        return Ok((0, at));
    }
    byte_where(s, at, flags, 0x10, 0)
}

fn marker_at(s: &[u8], at: usize, flags: u8) -> Reading<Range>
    ensures { ReadsAs (text_in s.now) (head.marker flags) s.now (Ok at) result }
{
    if flags & 0x20 == 0 {
        return Ok((NO_RANGE, at));
    }
    let (name, at) = bin::string::int_byte_string(s, Ok(at))?;
    let at = skip_at(s, Ok(at), 4)?;
    Ok((name, at))
}

// A two's complement byte held to -7..7.
fn fifths_of(b: u8) -> i8
    ensures { result ≡ head.fifths_of b }
{
    if b <= 7 {
        return b as i8;
    }
    if b < 128 {
        return 7;
    }
    if b < 249 {
        return -7;
    }
    bin::signed::to_i8(b)
}

// No `From` of a byte: the word that the tables have for a mode is another number.
fn mode_of(b: u8) -> Mode
    ensures { result ≡ head.mode_of b }
{
    if b == 0 {
        return Mode::Major;
    }
    Mode::Minor
}

fn key_at(s: &[u8], at: usize, flags: u8) -> Reading<Key>
    ensures { Reads (head.key flags) s.now (Ok at) result }
{
    if flags & 0x40 == 0 {
        return Ok((Key::NoKey, at));
    }
    let (fifths, at) = bin::u8_at(s, Ok(at))?;
    let (mode, at) = bin::u8_at(s, Ok(at))?;
    Ok((Key::Fifths(fifths_of(fifths), mode_of(mode)), at))
}

fn marks_at(s: &[u8], at: usize, v: u32, flags: u8) -> Reading<Marks>
    ensures { Reads (head.header_marks v flags) s.now (Ok at) result }
{
    let (times, at) = byte_where(s, at, flags, 0x08, 0)?;
    let (ending, at) = ending_at(s, at, v, flags)?;
    let (marker, at) = marker_at(s, at, flags)?;
    let (key, at) = key_at(s, at, flags)?;
    let marks = Marks {
        times,
        ending,
        marker,
        key,
    };
    Ok((marks, at))
}

// Beam grouping stands where a time was read.
fn beams_at(s: &[u8], at: usize, flags: u8) -> Place
    ensures { Reaches (head.beams flags) s.now (Ok at) tt result }
{
    if flags & 0x03 == 0 {
        return Ok(at);
    }
    skip_at(s, Ok(at), 4)
}

fn tail_at(s: &[u8], at: usize, v: u32, flags: u8) -> Reading<Tail>
    ensures { Reads (head.header_tail v flags) s.now (Ok at) result }
{
    if v < 500 {
        let tail = Tail {
            mask: 0,
            swing: false,
        };
        return Ok((tail, at));
    }
    let (mask, at) = bin::u8_at(s, beams_at(s, at, flags))?;
    let (swing, at) = bin::u8_at(s, Ok(at))?;
    let at = skip_at(s, Ok(at), 1)?;
    let tail = Tail {
        mask,
        swing: swing != 0,
    };
    Ok((tail, at))
}

// The number is the mask's trailing zeros plus one.
fn ending_of(mask: u8) -> u8
    ensures { result ≡ head.ending_of mask }
{
    if mask == 0 {
        return 0;
    }
    (u8::trailing_zeros(mask) as u8) + 1
}

// Passes are listed only when more than one bit is set.
fn passes_of(mask: u8) -> u8
    ensures { result ≡ head.passes_of mask }
{
    if 2 <= u8::count_ones(mask) {
        return mask;
    }
    0
}

// From v500 by the mask, before by the byte.
fn ending_number(v: u32, byte: u8, mask: u8) -> u8
    ensures { result ≡ head.ending_number v byte mask }
{
    if 500 <= v {
        return ending_of(mask);
    }
    byte
}

fn header_of(v: u32, flags: u8, time: Time, marks: Marks, tail: Tail) -> Header
    ensures { result ≡ head.header_of v flags time marks tail }
{
    let key = marks.key;
    let marker = marks.marker;
    Header {
        time,
        key,
        repeat_start: has(flags, 0x04),
        repeat_end: has(flags, 0x08),
        double_bar: has(flags, 0x80),
        ending: ending_number(v, marks.ending, tail.mask),
        passes: passes_of(tail.mask),
        marker,
        repeat_lost: 2 < marks.times,
        swing_lost: tail.swing,
    }
}

// A bar header, after one whose time it inherits.
pub fn header_at(s: &[u8], from: Place, v: u32, before: Time) -> Reading<Header>
    ensures { Reads (head.header v before) s.now from result }
{
    let (flags, at) = bin::u8_at(s, from)?;
    let (time, at) = time_at(s, at, flags, before)?;
    let (marks, at) = marks_at(s, at, v, flags)?;
    let (tail, at) = tail_at(s, at, v, flags)?;
    Ok((header_of(v, flags, time, marks, tail), at))
}
