// The name of a beat's chord, without the diagram around it, and the text of a beat.
ghost use Rattle.std.specs.Prelude.{Ok};
ghost use Rattle.format.specs.Text.{text_in};
ghost use Rattle.format.specs.Place.{Reaches, ReadsAs};
ghost use Rattle.beat.specs.Chord as format;
ghost use Rattle.beat.specs.Words as meaning;

use crate::places;
use crate::places::{Beat, put_range};
use format::{Place, Range, Reading};

// A name of fixed width, between the bytes of its diagram.
fn diagram_name(s: &[u8], from: Place, lead: usize, width: usize, rest: usize) -> Reading<Range>
    ensures { ReadsAs (text_in s.now) (format.diagram lead width rest) s.now from result }
{
    let (name, at) = bin::string::fixed_string(s, bin::skip_at(s, from, lead), width)?;
    let at = bin::skip_at(s, Ok(at), rest)?;
    Ok((name, at))
}

fn old_frets_past(s: &[u8], at: usize, v: u32, first: u32) -> Place
    ensures { Reaches (format.old_frets v first) s.now (Ok at) tt result }
{
    if bin::NEGATIVE <= first {
        return Ok(at);
    }
    if first == 0 {
        return Ok(at);
    }
    if 406 <= v {
        return bin::skip_at(s, Ok(at), 28);
    }
    bin::skip_at(s, Ok(at), 24)
}

fn old_chord_name(s: &[u8], at: usize, v: u32) -> Reading<Range>
    ensures { ReadsAs (text_in s.now) (format.old_chord v) s.now (Ok at) result }
{
    let (name, at) = bin::string::int_byte_string(s, Ok(at))?;
    let (first, at) = bin::u32_at(s, Ok(at))?;
    let at = old_frets_past(s, at, v, first)?;
    Ok((name, at))
}

fn early_chord_name(s: &[u8], from: Place, v: u32) -> Reading<Range>
    ensures { ReadsAs (text_in s.now) (format.early_chord v) s.now from result }
{
    let (form, at) = bin::u8_at(s, from)?;
    if form == 0 {
        return old_chord_name(s, at, v);
    }
    if 400 <= v {
        return diagram_name(s, Ok(at), 16, 21, 68);
    }
    diagram_name(s, Ok(at), 25, 34, 64)
}

fn any_chord_name(s: &[u8], from: Place, v: u32) -> Reading<Range>
    ensures { ReadsAs (text_in s.now) (format.chord v) s.now from result }
{
    if 500 <= v {
        return diagram_name(s, from, 17, 21, 68);
    }
    early_chord_name(s, from, v)
}

// The chord's name, where the beat's flags say that it has a chord.
pub(crate) fn chord_at(s: &[u8], from: Place, v: u32, flags: u8, b: &mut Beat) -> Place
    ensures { meaning.Stores (format.chord_name v flags) s.now from meaning.CHORD_START b.old
        b.new (text_in s.now (meaning.chord_in flags b.new)) result }
{
    if flags & 0x02 == 0 {
        return from;
    }
    let (range, next) = any_chord_name(s, from, v)?;
    put_range(b, places::CHORD_START, range);
    Ok(next)
}

// The beat's text, where its flags say that it has one.
pub(crate) fn text_at(s: &[u8], from: Place, flags: u8, b: &mut Beat) -> Place
    ensures { meaning.Stores (format.beat_text flags) s.now from meaning.TEXT_START b.old
        b.new (text_in s.now (meaning.text_range flags b.new)) result }
{
    if flags & 0x04 == 0 {
        return from;
    }
    let (range, next) = bin::string::int_byte_string_unused(s, from)?;
    put_range(b, places::TEXT_START, range);
    Ok(next)
}
