// What the words of a beat say: a function for each field, since no number of a word stands outside.
ghost use Rattle.std.specs.Prelude.{◌≡◌, true, ℕ};
ghost use Rattle.note.specs.Words.{byte_in};
ghost use Rattle.beat.specs.Effects as effects;
ghost use Rattle.beat.specs.Head as format;
ghost use Rattle.beat.specs.Tail as tail;
ghost use Rattle.beat.specs.Words as meaning;

use crate::effects::PickStroke;
use crate::places;
use crate::places::{Beat, number_of};
use format::{NO_RANGE, Range};
use model::{Arpeggio, Duration, Ottava, Tuplet};
use note::places::byte_of;

pub fn flags(b: &Beat) -> u8
    ensures { result ≡ (meaning.head_in b.now).flags }
{
    byte_of(b, places::FLAGS)
}

pub fn kept(b: &Beat) -> bool
    ensures { result ≡ (meaning.head_in b.now).kept }
{
    byte_of(b, places::STATUS) & 0x02 != 0
}

pub fn duration(b: &Beat) -> Duration
    ensures { result ≡ (meaning.head_in b.now).duration }
{
    Duration::from_code(byte_of(b, places::DURATION))
}

fn tuplet_of(actual: u32) -> Option<Tuplet>
    ensures { result ≡ format.tuplet_of actual }
{
    match actual {
        3 => Some(Tuplet {
            actual: 3,
            normal: 2,
        }),
        5..=7 => Some(Tuplet {
            actual: actual as u8,
            normal: 4,
        }),
        9..=13 => Some(Tuplet {
            actual: actual as u8,
            normal: 8,
        }),
        _ => None,
    }
}

pub fn tuplet(b: &Beat) -> Option<Tuplet>
    ensures { result ≡ (meaning.head_in b.now).tuplet }
{
    tuplet_of(number_of(b, places::TUPLET))
}

// Where the chord's name stands.
pub fn chord(b: &Beat) -> Range
    ensures { result ≡ meaning.chord_in (byte_in b.now meaning.FLAGS) b.now }
{
    if byte_of(b, places::FLAGS) & 0x02 == 0 {
        return NO_RANGE;
    }
    Range {
        start: b[places::CHORD_START],
        end: b[places::CHORD_END],
    }
}

pub fn text(b: &Beat) -> Range
    ensures { result ≡ meaning.text_range (byte_in b.now meaning.FLAGS) b.now }
{
    if byte_of(b, places::FLAGS) & 0x04 == 0 {
        return NO_RANGE;
    }
    Range {
        start: b[places::TEXT_START],
        end: b[places::TEXT_END],
    }
}

// Where the beat itself stands.
#[tactic(auto, unfolding(crate::specs::Words::range_in))]
pub fn range(b: &Beat) -> Range
    ensures { result ≡ meaning.range_in true b.now meaning.RANGE_START }
{
    Range {
        start: b[places::RANGE_START],
        end: b[places::RANGE_END],
    }
}

// Before v400 some effects stand for the whole beat.
pub fn vibrato(b: &Beat, v: u32) -> bool
    ensures { result ≡ (meaning.effects_in v b.now).vibrato }
{
    let flags = byte_of(b, places::EFFECTS);
    (flags & 0x02 != 0) | ((v < 400) & (flags & 0x01 != 0))
}

pub fn natural_harmonic(b: &Beat, v: u32) -> bool
    ensures { result ≡ (meaning.effects_in v b.now).natural_harmonic }
{
    (v < 400) & (byte_of(b, places::EFFECTS) & 0x04 != 0)
}

pub fn artificial_harmonic(b: &Beat, v: u32) -> bool
    ensures { result ≡ (meaning.effects_in v b.now).artificial_harmonic }
{
    (v < 400) & (byte_of(b, places::EFFECTS) & 0x08 != 0)
}

pub fn swell_lost(b: &Beat) -> bool
    ensures { (v : ℕ) → result ≡ (meaning.effects_in v b.now).swell_lost }
{
    byte_of(b, places::EFFECTS) & 0x10 != 0
}

pub fn rasgueado_lost(b: &Beat) -> bool
    ensures { (v : ℕ) → result ≡ (meaning.effects_in v b.now).rasgueado_lost }
{
    byte_of(b, places::MORE_EFFECTS) & 0x01 != 0
}

pub fn tap(b: &Beat) -> bool
    ensures { (v : ℕ) → result ≡ (meaning.effects_in v b.now).tap }
{
    byte_of(b, places::EFFECTS) & 0x20 != 0 && byte_of(b, places::TAPPING) == 1
}

pub fn tapping_lost(b: &Beat) -> bool
    ensures { (v : ℕ) → result ≡ (meaning.effects_in v b.now).tapping_lost }
{
    if byte_of(b, places::EFFECTS) & 0x20 == 0 {
        return false;
    }
    let kind = byte_of(b, places::TAPPING);
    (kind == 2) | (kind == 3)
}

fn dive(b: &Beat, v: u32) -> bool
    ensures { result ≡ (meaning.tapping_in v (byte_in b.now meaning.EFFECTS) b.now).dive }
{
    if byte_of(b, places::EFFECTS) & 0x20 == 0 {
        return false;
    }
    (v < 400) & (byte_of(b, places::TAPPING) == 0)
}

pub fn whammy_lost(b: &Beat, v: u32) -> bool
    ensures { result ≡ (meaning.effects_in v b.now).whammy_lost }
{
    (byte_of(b, places::MORE_EFFECTS) & 0x04 != 0) | dive(b, v)
}

fn brush_of(up: u8, down: u8) -> Arpeggio
    ensures { result ≡ effects.brush_of up down }
{
    if 0 < up {
        return Arpeggio::Up;
    }
    if 0 < down {
        return Arpeggio::Down;
    }
    Arpeggio::NoArpeggio
}

pub fn brush(b: &Beat, v: u32) -> Arpeggio
    ensures { result ≡ (meaning.effects_in v b.now).brush }
{
    if byte_of(b, places::EFFECTS) & 0x40 == 0 {
        return Arpeggio::NoArpeggio;
    }
    let first = byte_of(b, places::BRUSH_FIRST);
    let second = byte_of(b, places::BRUSH_SECOND);
    if 500 <= v {
        return brush_of(first, second);
    }
    brush_of(second, first)
}

fn stroke_of(b: u8) -> PickStroke
    ensures { result ≡ effects.stroke_of b }
{
    match b {
        1 => PickStroke::Up,
        2 => PickStroke::Down,
        _ => PickStroke::NoStroke,
    }
}

pub fn pick(b: &Beat) -> PickStroke
    ensures { (v : ℕ) → result ≡ (meaning.effects_in v b.now).pick }
{
    if byte_of(b, places::MORE_EFFECTS) & 0x02 == 0 {
        return PickStroke::NoStroke;
    }
    stroke_of(byte_of(b, places::PICK))
}

pub fn tempo(b: &Beat) -> Option<u16>
    ensures { result ≡ (meaning.mix_in (byte_in b.now meaning.FLAGS) b.now).tempo }
{
    if byte_of(b, places::FLAGS) & 0x10 == 0 {
        return None;
    }
    model::kinds::tempo_from(number_of(b, places::TEMPO))
}

pub fn wah_lost(b: &Beat) -> bool
    ensures { result ≡ (meaning.mix_in (byte_in b.now meaning.FLAGS) b.now).wah_lost }
{
    byte_of(b, places::FLAGS) & 0x10 != 0 && byte_of(b, places::WAH) != 0
}

pub fn change_lost(b: &Beat) -> bool
    ensures { result ≡ (meaning.mix_in (byte_in b.now meaning.FLAGS) b.now).change_lost }
{
    byte_of(b, places::FLAGS) & 0x10 != 0 && byte_of(b, places::CHANGE) != 0
}

// The string bits: which of the notes are there.
pub fn strings(b: &Beat) -> u8
    ensures { result ≡ byte_in b.now meaning.STRINGS }
{
    byte_of(b, places::STRINGS)
}

fn ottava_of(flags: u32) -> Ottava
    ensures { result ≡ tail.ottava_of flags }
{
    if flags & 0x10 != 0 {
        return Ottava::Va8;
    }
    if flags & 0x20 != 0 {
        return Ottava::Vb8;
    }
    if flags & 0x40 != 0 {
        return Ottava::Ma15;
    }
    if flags & 0x100 != 0 {
        return Ottava::Mb15;
    }
    Ottava::NoOttava
}

pub fn ottava(b: &Beat) -> Ottava
    ensures { result ≡ meaning.ottava_in b.now }
{
    ottava_of(number_of(b, places::OTTAVA))
}

// Whether it has no chord name, text, effects, mix table or ottava: nothing but its head and its notes.
pub fn bare(b: &Beat) -> bool
    ensures { result ≡ meaning.bare_in b.now }
{
    let flags = byte_of(b, places::FLAGS);
    let effects = byte_of(b, places::EFFECTS);
    let more = byte_of(b, places::MORE_EFFECTS);
    let ottava = number_of(b, places::OTTAVA);
    ((flags & 0x02 == 0) & ((flags & 0x04 == 0) & (flags & 0x10 == 0)))
        & ((effects == 0) & ((more == 0) & (ottava == 0)))
}
