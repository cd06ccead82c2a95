// The notes of a beat: at most seven, one for each string bit that is set.
ghost use Rattle.std.specs.Prelude.{◌≡◌, ◌+◌, ◌%◌, ◌<◌, ◌≤◌, length, get_or};
ghost use Rattle.std.specs.Iterator.{at_most};
ghost use Rattle.format.specs.Padded.{Near, Arrives};
ghost use Rattle.std.specs.Int.Bits.{bit_and};
ghost use Rattle.note.specs.Note as note;
ghost use Rattle.note.specs.Notes as format;
ghost use Rattle.note.specs.Words as meaning;
ghost use Rattle.note.specs.Hop as hop;
ghost use Rattle.note.specs.Strings.{NextString};

use crate::places;
use crate::places::{Notes, put, put_if, start_of};
use format::Place;

// The first of the strings of a set of bits, from bit 6 down; 7 where there is none, as leading zeros give it without a test.
#[tactic(auto, unfolding(crate::specs::Words::first_string))]
pub fn first_string(mask: u32) -> usize
    ensures { result ≡ meaning.first_string mask }
{
    (u32::leading_zeros(mask % 128) - 25) as usize
}

// The strings after a string.
#[tactic(auto, unfolding(crate::specs::Words::other_strings))]
pub fn other_strings(mask: u32, i: usize) -> u32
    ensures { result ≡ meaning.other_strings mask i }
{
    mask & (63 >> ((i % 8) as u32))
}

// The strings of a set of bits, one after another, from bit 6 down.
#[derive(Drop)]
pub struct Strings {
    left: u32,
    ghost small: { left < 128 },
}

impl Strings {
    pub fn of(bits: u32) -> Strings
        ensures { result.left ≡ bits % 128 }
    {
        Strings { left: bits % 128 }
    }
}

impl Iterator for Strings {
    type Item = usize;

    ghost next_gives = { λ before r after. NextString before.left r after.left };

    ghost remaining = { λ s. at_most s.left };

    fn next(&mut self) -> Option<usize> {
        if self.left == 0 {
            return None;
        }
        let string = first_string(self.left);
        self.left = other_strings(self.left, string);
        Some(string)
    }
}

// A note of kind, fret and perhaps a dynamic, as most are: its fields one after another.
fn plain_note(s: &[u8], at: usize, v: u32, flags: u8, w: &mut Notes, o: usize) -> usize
    requires { Near 5 at × (o ≤ 126) × (flags ≡ get_or s.now at 0) × (bit_and flags 0xA9 ≡ 0x20) }
    ensures { meaning.Fills (note.note v) 5 s.now at o w.old w.new
        (meaning.note_in s.now v w.new o) result }
{
    put(w, o + places::FLAGS, flags);
    put(w, o + places::KIND, bin::ahead::byte(s, at + 1));
    let at = put_if(s, at + 2, flags & 0x10 != 0, w, o + places::DYNAMIC);
    put(w, o + places::FRET, bin::ahead::byte(s, at));
    let at = put_if(s, at + 1, 500 <= v, w, o + places::TURNED);
    put(w, o + places::FIRST, 0);
    put(w, o + places::MORE, 0);
    at
}

// The next note, with one way for plain ones: all of their bytes are there, and nothing of them is tested.
fn next_note(s: &[u8], at: usize, v: u32, w: &mut Notes, o: usize) -> Place
    requires { (at ≤ length s.now) × (o ≤ 126) }
    ensures { meaning.FillsTo (note.note v) s.now at o w.old w.new
        (meaning.note_in s.now v w.new o) result }
{
    let flags = bin::ahead::byte(s, at);
    if (flags & 0xA9 == 0x20) & (5 <= s.len() - at) {
        return Ok(plain_note(s, at, v, flags, w, o));
    }
    crate::read_note(s, at, v, w, o)
}

pub fn read_notes(s: &[u8], from: usize, v: u32, strings: u8, w: &mut Notes) -> Place
    ensures { Arrives (format.notes v strings) s.now from
        (meaning.notes_in s.now v strings w.new) result }
{
    if s.len() < from {
        return Err(format::Stop::Ends);
    }
    let mut at = from;
    for i in Strings::of(strings as u32) {
        let next = next_note(s, at, v, w, start_of(i));
        let Ok(past) = next else {
            return next;
        };
        at = past;
    }
    Ok(at)
}

// ---- plain notes are hopped over, where nothing of them is kept

// Seven notes of five bytes at most: then all of them are there.
const SEVEN_NOTES: usize = 35;

// The bytes of a plain note without a dynamic.
fn size_without(v: u32) -> usize
    ensures { result ≡ hop.size_without v }
{
    if 500 <= v {
        return 4;
    }
    3
}

#[tactic(auto, using(crate::proofs::Hop::size_few, crate::proofs::Hop::step_not, crate::proofs::Hop::step_bare, crate::proofs::Hop::step_given))]
fn hop_note(s: &[u8], at: usize, v: u32) -> Option<usize>
    requires { Near 5 at × (at < length s.now) }
    ensures { result ≡ hop.hop_note s.now v (Some at) }
{
    let flags = s[at];
    if flags & 0xA9 != 0x20 {
        return None;
    }
    let size = size_without(v);
    if flags & 0x10 == 0 {
        return Some(at + size);
    }
    Some(at + size + 1)
}

// Past the notes of a beat, where all of them are plain: kind, fret and perhaps a dynamic. How many strings there are is all that counts.
pub fn hop_notes(s: &[u8], from: usize, v: u32, strings: u8) -> Option<usize>
    ensures { hop.Hops v strings s.now from result }
{
    if s.len() < from {
        return None;
    }
    if s.len() - from < SEVEN_NOTES {
        return None;
    }
    let mut at = from;
    for _ in 0..(strings % 128).count_ones() {
        at = hop_note(s, at, v)?;
    }
    Some(at)
}
