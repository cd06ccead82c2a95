// What the words of a string's note say: a function for each field, since no number of a word stands outside. Any
// number of a string will do.
ghost use Rattle.std.specs.Prelude.{◌≡◌, false, ℕ, ◌+◌, ◌<◌};
ghost use Rattle.note.specs.Marks as marking;
ghost use Rattle.note.specs.Note as format;
ghost use Rattle.note.specs.Words as meaning;

use crate::bend::Bend;
use crate::marks::Grace;
use crate::places::Notes;
use crate::{LeftHand, places};
use curve::level::NoteLevel;
use curve::slide::SlideEffect;

fn byte(w: &Notes, i: usize, k: usize) -> u8
    requires { k < 18 }
    ensures { result ≡ meaning.byte_in w.now (meaning.start i + k) }
{
    places::byte_of(w, places::start_of(i) + k)
}

pub fn fret(w: &Notes, i: usize) -> u8
    ensures { (v : ℕ) → result ≡ (meaning.read_in v w.now i).fret }
{
    curve::held::fret_of(byte(w, i, places::FRET))
}

pub fn tied(w: &Notes, i: usize) -> bool
    ensures { (v : ℕ) → result ≡ (meaning.read_in v w.now i).tie }
{
    byte(w, i, places::KIND) == 2
}

pub fn dead(w: &Notes, i: usize) -> bool
    ensures { (v : ℕ) → result ≡ (meaning.read_in v w.now i).dead }
{
    byte(w, i, places::KIND) == 3
}

pub fn ghosted(w: &Notes, i: usize) -> bool
    ensures { (v : ℕ) → result ≡ (meaning.read_in v w.now i).ghosted }
{
    byte(w, i, places::FLAGS) & 0x04 != 0
}

pub fn heavy_accent(w: &Notes, i: usize) -> bool
    ensures { (v : ℕ) → result ≡ (meaning.read_in v w.now i).heavy_accent }
{
    byte(w, i, places::FLAGS) & 0x02 != 0
}

pub fn accent(w: &Notes, i: usize) -> bool
    ensures { (v : ℕ) → result ≡ (meaning.read_in v w.now i).accent }
{
    byte(w, i, places::FLAGS) & 0x40 != 0
}

pub fn swap_accidental(w: &Notes, i: usize) -> bool
    ensures { (v : ℕ) → result ≡ (meaning.read_in v w.now i).swap_accidental }
{
    byte(w, i, places::TURNED) & 0x02 != 0
}

pub fn let_ring(w: &Notes, i: usize) -> bool
    ensures { (v : ℕ) → result ≡ (meaning.read_in v w.now i).effects.let_ring }
{
    byte(w, i, places::FIRST) & 0x08 != 0
}

pub fn hammer(w: &Notes, i: usize) -> bool
    ensures { (v : ℕ) → result ≡ (meaning.read_in v w.now i).effects.hammer }
{
    byte(w, i, places::FIRST) & 0x02 != 0
}

pub fn staccato(w: &Notes, i: usize) -> bool
    ensures { (v : ℕ) → result ≡ (meaning.read_in v w.now i).effects.staccato }
{
    byte(w, i, places::MORE) & 0x01 != 0
}

pub fn palm_mute(w: &Notes, i: usize) -> bool
    ensures { (v : ℕ) → result ≡ (meaning.read_in v w.now i).effects.palm_mute }
{
    byte(w, i, places::MORE) & 0x02 != 0
}

pub fn harmonic(w: &Notes, i: usize) -> bool
    ensures { (v : ℕ) → result ≡ (meaning.read_in v w.now i).effects.harmonic }
{
    byte(w, i, places::MORE) & 0x10 != 0
}

pub fn trill(w: &Notes, i: usize) -> bool
    ensures { (v : ℕ) → result ≡ (meaning.read_in v w.now i).effects.trill }
{
    byte(w, i, places::MORE) & 0x20 != 0
}

pub fn vibrato(w: &Notes, i: usize) -> bool
    ensures { (v : ℕ) → result ≡ (meaning.read_in v w.now i).effects.vibrato }
{
    byte(w, i, places::MORE) & 0x40 != 0
}

pub fn harmonic_lost(w: &Notes, i: usize) -> bool
    ensures { (v : ℕ) → result ≡ (meaning.read_in v w.now i).effects.harmonic_lost }
{
    byte(w, i, places::MORE) & 0x10 != 0 && byte(w, i, places::HARMONIC) != 1
}

pub fn tremolo(w: &Notes, i: usize) -> Option<u8>
    ensures { (v : ℕ) → result ≡ (meaning.read_in v w.now i).effects.tremolo }
{
    if byte(w, i, places::MORE) & 0x04 == 0 {
        return None;
    }
    Some(curve::held::tremolo_of(byte(w, i, places::SPEED)))
}

pub fn right_hand_lost(w: &Notes, i: usize) -> bool
    ensures { (v : ℕ) → result ≡ (meaning.read_in v w.now i).right_hand_lost }
{
    byte(w, i, places::FLAGS) & 0x80 != 0 && byte(w, i, places::RIGHT) < crate::NEGATIVE_BYTE
}

fn finger_of(b: u8) -> LeftHand
    ensures { result ≡ format.left_hand b }
{
    if crate::NEGATIVE_BYTE <= b {
        return LeftHand::NoFinger;
    }
    if b <= 4 {
        return LeftHand::Finger(b);
    }
    LeftHand::Beyond
}

pub fn left_hand(w: &Notes, i: usize) -> LeftHand
    ensures { (v : ℕ) → result ≡ (meaning.read_in v w.now i).left_hand }
{
    if byte(w, i, places::FLAGS) & 0x80 == 0 {
        return LeftHand::NoFinger;
    }
    finger_of(byte(w, i, places::LEFT))
}

fn dynamic(w: &Notes, i: usize) -> Option<u8>
    ensures { result
        ≡ meaning.dynamic_in (meaning.byte_in w.now (meaning.start i + meaning.FLAGS)) w.now
        (meaning.start i) }
{
    if byte(w, i, places::FLAGS) & 0x10 == 0 {
        return None;
    }
    Some(byte(w, i, places::DYNAMIC))
}

pub fn level(w: &Notes, i: usize) -> NoteLevel
    ensures { (v : ℕ) → result ≡ (meaning.read_in v w.now i).level }
{
    let flags = byte(w, i, places::FLAGS);
    curve::level::note_level(
        flags & 0x04 != 0,
        flags & 0x40 != 0,
        flags & 0x02 != 0,
        dynamic(w, i),
    )
}

fn grace_of(fret: u8, transition: u8, flags: u8) -> Option<Grace>
    ensures { result ≡ marking.grace_of fret transition flags }
{
    Some(Grace {
        fret: curve::held::fret_of(fret),
        transition,
        dead: flags & 0x01 != 0,
        on_beat: flags & 0x02 != 0,
    })
}

pub fn grace(w: &Notes, i: usize) -> Option<Grace>
    ensures { (v : ℕ) → result ≡ (meaning.read_in v w.now i).effects.grace }
{
    if byte(w, i, places::FIRST) & 0x10 == 0 {
        return None;
    }
    grace_of(
        byte(w, i, places::GRACE_FRET),
        byte(w, i, places::TRANSITION),
        byte(w, i, places::GRACE_FLAGS),
    )
}

fn slide_flag(v: u32, flags: u8) -> SlideEffect
    ensures { result ≡ marking.slide_flag v flags }
{
    SlideEffect {
        slide: (v < 400) & (flags & 0x04 != 0),
        falloff: false,
        doit: false,
        scoop: false,
        plop: false,
        lost: false,
    }
}

// What a slide is, is told by the version too.
pub fn slide(w: &Notes, i: usize, v: u32) -> SlideEffect
    ensures { result ≡ (meaning.read_in v w.now i).effects.slide }
{
    if byte(w, i, places::MORE) & 0x08 == 0 {
        return slide_flag(v, byte(w, i, places::FIRST));
    }
    curve::slide::slide_of(v, byte(w, i, places::SLIDE))
}

// Where the points of the bend stand, and how many they are.
pub fn bend(w: &Notes, i: usize) -> Bend
    ensures { result ≡ meaning.bend_at w.now (meaning.start i) }
{
    if byte(w, i, places::FIRST) & 0x01 == 0 {
        return crate::bend::NO_BEND;
    }
    let o = places::start_of(i);
    Bend {
        start: w[o + places::BEND_START],
        count: (w[o + places::BEND_COUNT] % 4294967296) as u32,
    }
}

// Whether it has flags of effects: one that has none adds nothing but its accent to its row.
pub fn effects(w: &Notes, i: usize) -> bool
    ensures told { result ≡ meaning.effects_given w.now i }
    ensures none { (v : ℕ) → result ≡ false → meaning.WithoutEffects v w.now i }
{
    (byte(w, i, places::FIRST) != 0) | (byte(w, i, places::MORE) != 0)
}

// Whether it has an accent or flags of effects: one that has none gives nothing to its row's articulations and technique.
pub fn voiced(w: &Notes, i: usize) -> bool
    ensures told { result ≡ meaning.voiced_in w.now i }
    ensures plain { (v : ℕ) → result ≡ false → meaning.Plain v w.now i }
{
    accent(w, i) | (heavy_accent(w, i) | effects(w, i))
}

// Whether it has fingers, of either hand.
pub fn fingered(w: &Notes, i: usize) -> bool
    ensures { result ≡ meaning.fingered_in w.now i }
{
    byte(w, i, places::FLAGS) & 0x80 != 0
}
