// The version: compared in the input, where its text stands.
ghost use Rattle.std.specs.Prelude.{◌≡◌, ◌+◌, ◌≤◌, min, take, drop};
ghost use Rattle.std.proofs.Math.Seq.{slice};
ghost use Rattle.format.specs.Place.{Reads, ReadsAs};
ghost use Rattle.song.specs.Version.{PREFIX, starts, is_digit, digits_len, digits_from, short, version_number, version_of, is_family, version};

use format::{Place, Reading, Stop};

// What a version's text starts with, up to its number.
const PREFIX: [u8; 20] = *b"FICHIER GUITAR PRO v";

// The largest part of a version number.
const MOST: u32 = 65535;

// Whether the text starts as the first n bytes of the prefix.
fn starts_with(t: &[u8], n: usize) -> bool
    requires { n ≤ 20 }
    ensures { result ≡ starts (take n PREFIX) t.now }
{
    let mut i = 0;
    while i < n {
        if t.len() <= i {
            return false;
        }
        if t[i] != PREFIX[i] {
            return false;
        }
        i += 1;
    }
    true
}

// Whether the bytes start as a Guitar Pro 3, 4 or 5 file does, whatever its length byte says.
pub fn is_gp5_family(s: &[u8]) -> bool
    ensures { result ≡ is_family s.now }
{
    if s.len() == 0 {
        return false;
    }
    starts_with(&s[1..], 19)
}

fn is_digit(b: u8) -> bool
    ensures { result ≡ is_digit b }
{
    if b < 48 {
        return false;
    }
    b <= 57
}

// Where the digits end that stand from a position on.
fn digits_end(t: &[u8], from: usize) -> usize
    ensures { result ≡ from + digits_len (drop from t.now) }
{
    let mut i = from;
    while i < t.len() {
        if !is_digit(t[i]) {
            return i;
        }
        i += 1;
    }
    i
}

// The number that they make, or one more than the largest where it is larger.
fn digits_value(t: &[u8], from: usize) -> u32
    ensures { result ≡ min (digits_from 0 (drop from t.now)) 65536 }
{
    let mut n: u32 = 0;
    let mut i = from;
    while i < t.len() {
        if !is_digit(t[i]) {
            return n;
        }
        n = 10 * n + ((t[i] - 48) as u32);
        if MOST < n {
            return MOST + 1;
        }
        i += 1;
    }
    n
}

fn is_short(t: &[u8], from: usize) -> bool
    ensures { result ≡ short (drop from t.now) }
{
    if digits_end(t, from) == from {
        return false;
    }
    digits_value(t, from) <= MOST
}

fn number_at(t: &[u8], from: usize) -> u32
    ensures { result ≡ version_number (drop from t.now) }
{
    if !is_short(t, from) {
        return 0;
    }
    let point = digits_end(t, from);
    if t.len() <= point {
        return 0;
    }
    if t[point] != 46 {
        return 0;
    }
    if !is_short(t, point + 1) {
        return 0;
    }
    100 * digits_value(t, from) + digits_value(t, point + 1)
}

// The version number of a text, 0 where it has none.
fn version_of(t: &[u8]) -> u32
    ensures { result ≡ version_of t.now }
{
    if t.len() <= 20 {
        return 0;
    }
    if !starts_with(t, 20) {
        return 0;
    }
    if t[20] == 43 {
        return number_at(t, 21);
    }
    number_at(t, 20)
}

// The part of the input that a range names, as far as the input goes.
fn part(s: &[u8], start: usize, end: usize) -> &[u8]
    ensures { result.now ≡ slice start end s.now }
{
    if end <= start {
        return &s[..0];
    }
    if s.len() <= start {
        return &s[..0];
    }
    if s.len() < end {
        return &s[start..];
    }
    &s[start..end]
}

// A version that is not in 300..599, or is unreadable, is refused.
pub fn version_at(s: &[u8], from: Place) -> Reading<u32>
    ensures { Reads version s.now from result }
{
    let (text, at) = bin::string::fixed_string(s, from, 30)?;
    let v = version_of(part(s, text.start, text.end));
    if v < 300 {
        return Err(Stop::Version);
    }
    if 599 < v {
        return Err(Stop::Version);
    }
    Ok((v, at))
}
