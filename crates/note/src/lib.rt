// A note: its string is known by the beat. It is read into words that are lent.
// Tests are joined by `&` and `|` where both cost nothing: a branch that is taken by chance costs more than the second test.
// A position is a bare `usize` with `Near n at` beside it, and a word's place another: each is one register, which a struct is not.
#![tactic(auto)]

ghost use Rattle.std.specs.Prelude.{◌+◌, ◌≤◌};
ghost use Rattle.format.specs.Padded.{Near};
ghost use Rattle.note.specs.Note as format;
ghost use Rattle.note.specs.Words as meaning;

pub mod bend; // the points of a bend, where they stand
pub mod field; // what the words of a note say
pub mod marks; // the effects of a note
pub mod notes; // the notes of a beat
pub mod optional; // bytes that may be absent
pub mod places; // the words of notes

use curve::level::NoteLevel;
use format::Place;
use marks::NoteEffects;
use optional::pass_if;
use places::{Notes, put, put_if};

// The first byte that stands for a number below zero.
pub const NEGATIVE_BYTE: u8 = 0x80;

// No Option: three cases, and no finger is neither of the two others.
#[derive(Clone, Copy, PartialEq, Eq)]
pub enum LeftHand {
    NoFinger,
    Finger(u8),
    Beyond,
}

#[derive(Clone, Copy, PartialEq, Eq)]
pub struct Hands {
    pub left: LeftHand,
    pub right_lost: bool,
}

// A note but for its bend, as the format's definitions have it.
#[derive(Clone, Copy, PartialEq, Eq)]
pub struct NoteRead {
    pub fret: u8,
    pub tie: bool,
    pub dead: bool,
    pub ghosted: bool,
    pub heavy_accent: bool,
    pub accent: bool,
    pub level: NoteLevel,
    pub left_hand: LeftHand,
    pub right_hand_lost: bool,
    pub swap_accidental: bool,
    pub effects: NoteEffects,
}

// The byte that stands there is stored whether it is a dynamic or not: a branch that is taken by chance costs more than a store.
fn dynamic_at(s: &[u8], at: usize, flags: u8, w: &mut Notes, o: usize) -> usize
    requires { Near 1 at × (o ≤ 126) }
    ensures { meaning.Fills (format.dynamic flags) 1 s.now at (o + meaning.DYNAMIC) w.old w.new
        (meaning.dynamic_in flags w.new o) result }
{
    put(w, o + places::DYNAMIC, bin::ahead::byte(s, at));
    if flags & 0x10 == 0 {
        return at;
    }
    at + 1
}

fn hands_at(s: &[u8], at: usize, flags: u8, w: &mut Notes, o: usize) -> usize
    requires { Near 2 at × (o ≤ 126) }
    ensures { meaning.Fills (format.hands flags) 2 s.now at (o + meaning.LEFT) w.old w.new
        (meaning.hands_in flags w.new o) result }
{
    if flags & 0x80 == 0 {
        return at;
    }
    put(w, o + places::LEFT, bin::ahead::byte(s, at));
    put(w, o + places::RIGHT, bin::ahead::byte(s, at + 1));
    at + 2
}

fn accidental_at(s: &[u8], at: usize, v: u32, flags: u8, w: &mut Notes, o: usize) -> usize
    requires { Near 9 at × (o ≤ 126) }
    ensures { meaning.Fills (format.accidental v flags) 9 s.now at (o + meaning.TURNED) w.old
        w.new (meaning.byte_in w.new (o + meaning.TURNED)) result }
{
    let late = 500 <= v;
    let next = pass_if(at, late & (flags & 0x01 != 0), 8);
    put_if(s, next, late, w, o + places::TURNED)
}

// What stands after the fret.
fn note_end(s: &[u8], at: usize, v: u32, flags: u8, w: &mut Notes, o: usize) -> Place
    requires { Near 13 at × (o ≤ 126) }
    ensures { meaning.EndTo v flags s.now at o w.old w.new result }
{
    let at = hands_at(s, at, flags, w, o);
    let at = accidental_at(s, at, v, flags, w, o);
    marks::effects_at(s, at, v, flags, w, o)
}

fn note_by(s: &[u8], at: usize, v: u32, flags: u8, w: &mut Notes, o: usize) -> Place
    requires { Near 18 at × (o ≤ 126) }
    ensures { meaning.FillsTo (format.note_by v flags) s.now at (o + meaning.KIND) w.old
        w.new (meaning.note_bytes s.now v flags w.new o) result }
{
    let fretted = flags & 0x20 != 0;
    let at = put_if(s, at, fretted, w, o + places::KIND);
    let at = pass_if(at, (v < 500) & (flags & 0x01 != 0), 2);
    let at = dynamic_at(s, at, flags, w, o);
    let at = put_if(s, at, fretted, w, o + places::FRET);
    note_end(s, at, v, flags, w, o)
}

// Its fields are read to the last, past the end of the file as zeros: where they end says whether all were there.
pub(crate) fn read_note(s: &[u8], at: usize, v: u32, w: &mut Notes, o: usize) -> Place
    requires { Near 19 at × (o ≤ 126) }
    ensures { meaning.FillsTo (format.note v) s.now at o w.old w.new
        (meaning.note_in s.now v w.new o) result }
{
    let flags = bin::ahead::byte(s, at);
    put(w, o + places::FLAGS, flags);
    note_by(s, at + 1, v, flags, w, o)
}
