// The effects of a note, and its bend.
ghost use Rattle.std.specs.Prelude.{List, ℕ, ◌+◌, ◌≤◌};
ghost use Rattle.format.specs.Padded.{Padded, Near};
ghost use Rattle.note.specs.Marks as format;
ghost use Rattle.note.specs.Points.{bend_in};
ghost use Rattle.note.specs.Words as meaning;

use crate::optional::pass_if;
use crate::places;
use crate::places::{Notes, put, put_if, store};
use curve::slide::SlideEffect;
use format::Place;

#[derive(Clone, Copy, PartialEq, Eq)]
pub struct Grace {
    pub fret: u8,
    pub transition: u8,
    pub dead: bool,
    pub on_beat: bool,
}

// Two answers that are asked alone: neither guards the other.
#[derive(Clone, Copy, PartialEq, Eq)]
pub struct Harmonic {
    pub given: bool,
    pub lost: bool,
}

// The effects of a note but for its bend, as the format's definitions have them.
#[derive(Clone, Copy, PartialEq, Eq)]
pub struct NoteEffects {
    pub grace: Option<Grace>,
    pub tremolo: Option<u8>,
    pub slide: SlideEffect,
    pub harmonic: bool,
    pub harmonic_lost: bool,
    pub trill: bool,
    pub let_ring: bool,
    pub hammer: bool,
    pub vibrato: bool,
    pub palm_mute: bool,
    pub staccato: bool,
}

// The bend's place and count are stored where there is one. It is read from place to place: a count of points may be refused.
fn bend_at(s: &[u8], at: usize, first: u8, w: &mut Notes, o: usize) -> Place
    requires { o ≤ 126 }
    ensures { meaning.FillsTo (format.note_bend first) s.now at (o + meaning.BEND_START) w.old
        w.new (bend_in s.now (meaning.bend_by first w.new o)) result }
{
    let from = bin::ahead::reached(s, at);
    if first & 0x01 == 0 {
        return from;
    }
    let (bend, next) = crate::bend::read_bend(s, from)?;
    store(w, o + places::BEND_START, bend.start);
    store(w, o + places::BEND_COUNT, bend.count as usize);
    Ok(next)
}

fn grace_at(s: &[u8], at: usize, v: u32, first: u8, w: &mut Notes, o: usize) -> usize
    requires { Near 5 at × (o ≤ 126) }
    ensures { meaning.Fills (format.grace v first) 5 s.now at (o + meaning.GRACE_FRET) w.old
        w.new (meaning.grace_in first w.new o) result }
{
    if first & 0x10 == 0 {
        return at;
    }
    put(w, o + places::GRACE_FRET, bin::ahead::byte(s, at));
    put(w, o + places::TRANSITION, bin::ahead::byte(s, at + 2));
    put_if(s, at + 4, 500 <= v, w, o + places::GRACE_FLAGS)
}

fn harmonic_end(at: usize, v: u32, kind: u8) -> usize
    requires { Near 3 at }
    ensures { ((s : List ℕ) → Padded (format.harmonic_end v kind) s at tt result) × (result ≤ at + 3) }
{
    if v < 500 {
        return at;
    }
    if kind == 2 {
        return at + 3;
    }
    if kind == 3 {
        return at + 1;
    }
    at
}

fn harmonic_at(s: &[u8], at: usize, v: u32, more: u8, w: &mut Notes, o: usize) -> usize
    requires { Near 4 at × (o ≤ 126) }
    ensures { meaning.Fills (format.harmonic v more) 4 s.now at (o + meaning.HARMONIC) w.old
        w.new (meaning.harmonic_in more w.new o) result }
{
    if more & 0x10 == 0 {
        return at;
    }
    let kind = bin::ahead::byte(s, at);
    put(w, o + places::HARMONIC, kind);
    harmonic_end(at + 1, v, kind)
}

fn marks_at(s: &[u8], at: usize, v: u32, first: u8, more: u8, w: &mut Notes, o: usize) -> usize
    requires { Near 13 at × (o ≤ 126) }
    ensures { meaning.Fills (format.marks v first more) 13 s.now at (o + meaning.GRACE_FRET) w.old
        w.new (meaning.marks_by v first more w.new o) result }
{
    let at = grace_at(s, at, v, first, w, o);
    let at = put_if(s, at, more & 0x04 != 0, w, o + places::SPEED);
    let at = put_if(s, at, more & 0x08 != 0, w, o + places::SLIDE);
    let at = harmonic_at(s, at, v, more, w, o);
    pass_if(at, more & 0x20 != 0, 2)
}

// The effects of a note, where its flags say that it has any.
pub(crate) fn effects_at(s: &[u8], at: usize, v: u32, flags: u8, w: &mut Notes, o: usize) -> Place
    requires { Near 2 at × (o ≤ 126) }
    ensures { meaning.FillsTo (format.note_effects v flags) s.now at (o + meaning.FIRST) w.old
        w.new (meaning.effects_at s.now v w.new o) result }
{
    if flags & 0x08 == 0 {
        put(w, o + places::FIRST, 0);
        put(w, o + places::MORE, 0);
        return bin::ahead::reached(s, at);
    }
    let first = bin::ahead::byte(s, at);
    put(w, o + places::FIRST, first);
    let at = put_if(s, at + 1, 400 <= v, w, o + places::MORE);
    let more = places::byte_of(w, o + places::MORE);
    let next = bend_at(s, at, first, w, o);
    let Ok(past) = next else {
        return next;
    };
    bin::ahead::reached(s, marks_at(s, past, v, first, more, w, o))
}
