// The effects of a beat, and what of them is lost.
ghost use Rattle.std.specs.Prelude.{ℕ, ◌+◌};
ghost use Rattle.format.specs.Place.{Reaches};
ghost use Rattle.format.specs.Padded.{Near};
ghost use Rattle.note.specs.Words.{byte_in, Fills, FillsTo};
ghost use Rattle.beat.specs.Effects as format;
ghost use Rattle.beat.specs.Words as meaning;

use crate::places;
use crate::places::Beat;
use format::Place;
use model::Arpeggio;
use note::optional::pass_if;
use note::places::{byte_of, put, put_if};

// None is one of its cases, as in the kinds of `model`.
#[derive(Clone, Copy)]
pub enum PickStroke {
    NoStroke,
    Up,
    Down,
}

// The effects of a beat, as the format's definitions have them.
#[derive(Clone, Copy)]
pub struct BeatEffects {
    pub vibrato: bool,
    pub tap: bool,
    pub brush: Arpeggio,
    pub pick: PickStroke,
    pub natural_harmonic: bool,
    pub artificial_harmonic: bool,
    pub swell_lost: bool,
    pub rasgueado_lost: bool,
    pub tapping_lost: bool,
    pub whammy_lost: bool,
}

// What the tapping byte says: a tap, a slap or pop, or the whammy of the first versions.
#[derive(Clone, Copy)]
struct Tapping {
    tap: bool,
    slap: bool,
    dive: bool,
}

fn tapping_at(s: &[u8], at: usize, v: u32, flags: u8, b: &mut Beat) -> usize
    requires { Near 5 at }
    ensures { Fills (format.tapping v flags) 5 s.now at meaning.TAPPING b.old b.new
        (meaning.tapping_in v flags b.new) result }
{
    if flags & 0x20 == 0 {
        return at;
    }
    put(b, places::TAPPING, bin::ahead::byte(s, at));
    pass_if(at + 1, v < 400, 4)
}

fn tremolo_bar(s: &[u8], from: Place, more: u8) -> Place
    ensures { Reaches (format.tremolo_bar more) s.now from tt result }
{
    if more & 0x04 != 0 {
        return note::bend::skip_bend(s, from);
    }
    from
}

// Which of the two bytes is up is told by the version: any.
fn brush_at(s: &[u8], at: usize, flags: u8, b: &mut Beat) -> usize
    requires { Near 2 at }
    ensures { (v : ℕ)
        → Fills (format.brush v flags) 2 s.now at meaning.BRUSH_FIRST b.old b.new
        (meaning.brush_in v flags b.new) result }
{
    if flags & 0x40 == 0 {
        return at;
    }
    put(b, places::BRUSH_FIRST, bin::ahead::byte(s, at));
    put(b, places::BRUSH_SECOND, bin::ahead::byte(s, at + 1));
    at + 2
}

// Brush and pick stroke, behind the tremolo bar.
fn strokes_at(s: &[u8], at: usize, flags: u8, more: u8, b: &mut Beat) -> Place
    requires { Near 3 at }
    ensures { meaning.StrokesTo flags more s.now at b.old b.new result }
{
    let at = brush_at(s, at, flags, b);
    bin::ahead::reached(s, put_if(s, at, more & 0x02 != 0, b, places::PICK))
}

// What stands behind the first flags. The bar is read from place to place: a count of points may be refused.
fn effects_end(s: &[u8], at: usize, v: u32, flags: u8, b: &mut Beat) -> Place
    requires { Near 6 at }
    ensures { FillsTo (meaning.effects_end v flags) s.now at meaning.MORE_EFFECTS b.old b.new
        (meaning.effects_with v flags (byte_in b.new meaning.MORE_EFFECTS) b.new) result }
{
    let at = put_if(s, at, 400 <= v, b, places::MORE_EFFECTS);
    let more = byte_of(b, places::MORE_EFFECTS);
    let tapped = tapping_at(s, at, v, flags, b);
    let next = tremolo_bar(s, bin::ahead::reached(s, tapped), more);
    let Ok(past) = next else {
        return next;
    };
    strokes_at(s, past, flags, more, b)
}

// The effects of a beat, where its flags say that it has any.
pub(crate) fn effects_at(s: &[u8], from: Place, v: u32, flags: u8, b: &mut Beat) -> Place
    ensures { meaning.Stores (format.beat_effects v flags) s.now from meaning.EFFECTS b.old
        b.new (meaning.effects_in v b.new) result }
{
    if flags & 0x08 == 0 {
        put(b, places::EFFECTS, 0);
        put(b, places::MORE_EFFECTS, 0);
        return from;
    }
    let (first, at) = bin::u8_at(s, from)?;
    put(b, places::EFFECTS, first);
    effects_end(s, at, v, first, b)
}
