// The mix table of a beat: of its values only whether one is given goes on, and the tempo.
ghost use Rattle.std.specs.Prelude.{◌≡◌, true};
ghost use Rattle.format.specs.Place.{Reaches, Reads, ReadsAs};
ghost use Rattle.format.specs.Fields.{sign_byte};
ghost use Rattle.beat.specs.Mix as format;
ghost use Rattle.beat.specs.Words as meaning;

use crate::places;
use crate::places::Beat;
use format::{Place, Reading};
use model::kinds::flag_word;
use note::optional::skip_if;
use note::places::store;

// Whether each of three values of the mix table is 0 or more.
#[derive(Clone, Copy)]
struct Signs {
    a: bool,
    b: bool,
    c: bool,
}

// What goes on of a mix table, as the format's definitions have it.
#[derive(Clone, Copy)]
pub struct Mix {
    pub tempo: Option<u16>,
    pub wah_lost: bool,
    pub change_lost: bool,
}

// Whether a value of the mix table is 0 or more; nothing else of it goes on.
fn sign_at(s: &[u8], from: Place) -> Reading<bool>
    ensures { Reads sign_byte s.now from result }
{
    let (b, at) = bin::u8_at(s, from)?;
    Ok((b < note::NEGATIVE_BYTE, at))
}

fn three_signs(s: &[u8], from: Place) -> Reading<Signs>
    ensures { Reads format.three_signs s.now from result }
{
    let (a, at) = sign_at(s, from)?;
    let (b, at) = sign_at(s, Ok(at))?;
    let (c, at) = sign_at(s, Ok(at))?;
    Ok((Signs { a, b, c }, at))
}

fn three_durations(s: &[u8], from: Place, x: Signs) -> Place
    ensures { Reaches (format.three_durations x) s.now from tt result }
{
    skip_if(s, skip_if(s, skip_if(s, from, x.a, 1), x.b, 1), x.c, 1)
}

fn tempo_name_past(s: &[u8], from: Place, v: u32) -> Place
    ensures { Reaches (format.tempo_name v) s.now from tt result }
{
    if 500 <= v {
        return bin::string::int_byte_string_past(s, from);
    }
    from
}

fn tempo_end(s: &[u8], from: Place, v: u32, tempo: u32) -> Place
    ensures { Reaches (format.tempo_end v tempo) s.now from tt result }
{
    let given = tempo < bin::NEGATIVE;
    skip_if(s, skip_if(s, from, given, 1), given & (510 <= v), 1)
}

// Whether there is a wah byte of 0 or more.
fn wah_at(s: &[u8], from: Place, v: u32) -> Reading<bool>
    ensures { Reads (format.wah v) s.now from result }
{
    let at = from?;
    if v < 500 {
        return Ok((false, at));
    }
    let (b, at) = bin::u8_at(s, Ok(at))?;
    Ok((b < note::NEGATIVE_BYTE, at))
}

fn mix_strings_past(s: &[u8], from: Place, v: u32) -> Place
    ensures { Reaches (format.mix_strings v) s.now from tt result }
{
    if v < 510 {
        return from;
    }
    let at = bin::string::int_byte_string_past(s, from);
    bin::string::int_byte_string_past(s, at)
}

// The tempo as the file has it, and the two losses: 1 for one, else 0.
fn mix_end(s: &[u8], from: Place, v: u32, changed: bool, tempo: u32, b: &mut Beat) -> Place
    ensures { meaning.Stores (format.mix_end v changed tempo) s.now from meaning.TEMPO b.old
        b.new (meaning.mix_by true b.new) result }
{
    let at = tempo_end(s, from, v, tempo);
    let (wah, at) = wah_at(s, skip_if(s, at, 400 <= v, 1), v)?;
    store(b, places::TEMPO, tempo as usize);
    store(b, places::WAH, flag_word(wah) as usize);
    store(b, places::CHANGE, flag_word(changed) as usize);
    mix_strings_past(s, Ok(at), v)
}

fn any_given(instrument: bool, x: Signs, y: Signs) -> bool
    ensures { result ≡ format.any_given instrument x y }
{
    instrument | (x.a | x.b | x.c) | (y.a | y.b | y.c)
}

fn mix_tempo(
    s: &[u8],
    from: Place,
    v: u32,
    instrument: bool,
    x: Signs,
    y: Signs,
    b: &mut Beat,
) -> Place
    ensures { meaning.Stores (format.mix_tempo v instrument x y) s.now from meaning.TEMPO b.old
        b.new (meaning.mix_by true b.new) result }
{
    let (tempo, at) = bin::u32_at(s, tempo_name_past(s, from, v))?;
    let at = three_durations(s, three_durations(s, Ok(at), x), y);
    mix_end(s, at, v, any_given(instrument, x, y), tempo, b)
}

fn mix_table(s: &[u8], from: Place, v: u32, b: &mut Beat) -> Place
    ensures { meaning.Stores (format.mix_table v) s.now from meaning.TEMPO b.old b.new
        (meaning.mix_by true b.new) result }
{
    let (instrument, at) = sign_at(s, from)?;
    let (x, at) = three_signs(s, skip_if(s, Ok(at), 500 <= v, 16))?;
    let (y, at) = three_signs(s, Ok(at))?;
    mix_tempo(s, Ok(at), v, instrument, x, y, b)
}

// The mix table, where the beat's flags say that it has one.
pub(crate) fn mix_at(s: &[u8], from: Place, v: u32, flags: u8, b: &mut Beat) -> Place
    ensures { meaning.Stores (format.mix v flags) s.now from meaning.TEMPO b.old b.new
        (meaning.mix_in flags b.new) result }
{
    if flags & 0x10 == 0 {
        return from;
    }
    mix_table(s, from, v, b)
}
