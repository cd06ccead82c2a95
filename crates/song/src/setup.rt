// Page setup and tempo, the channel table, and directions.
ghost use Rattle.std.specs.Prelude.{◌≡◌, Ok};
ghost use Rattle.format.specs.Place.{Gives, Reaches, Reads, ReadsAs};
ghost use Rattle.song.specs.Setup as setup;

use bin::skip_at;
use bin::string::int_byte_string_past;
use format::{Place, Reading};

fn equalizer_at(s: &[u8], from: Place, v: u32) -> Place
    ensures { Reaches (setup.equalizer v) s.now from tt result }
{
    if v < 510 {
        return from;
    }
    skip_at(s, from, 19)
}

fn templates_at(s: &[u8], from: Place) -> Place
    ensures { Reaches setup.templates s.now from tt result }
{
    let mut at = from;
    let mut i: u32 = 0;
    while i < 10 {
        at = int_byte_string_past(s, at);
        i += 1;
    }
    at
}

fn page_at(s: &[u8], from: Place, v: u32) -> Place
    ensures { Reaches (setup.page v) s.now from tt result }
{
    if 500 <= v {
        let at = templates_at(s, skip_at(s, skip_at(s, from, 28), 2));
        return int_byte_string_past(s, at);
    }
    from
}

fn hide_tempo_at(s: &[u8], from: Place, v: u32) -> Place
    ensures { Reaches (setup.hide_tempo v) s.now from tt result }
{
    if v < 510 {
        return from;
    }
    skip_at(s, from, 1)
}

fn octave_at(s: &[u8], from: Place, v: u32) -> Place
    ensures { Reaches (setup.octave v) s.now from tt result }
{
    if 400 <= v {
        return skip_at(s, from, 1);
    }
    from
}

fn tempo_at(s: &[u8], from: Place, v: u32) -> Reading<Option<u16>>
    ensures { Reads (setup.tempo v) s.now from result }
{
    let (tempo, at) = bin::u32_at(s, from)?;
    let at = hide_tempo_at(s, Ok(at), v);
    let at = octave_at(s, skip_at(s, at, 4), v)?;
    Ok((model::kinds::tempo_from(tempo), at))
}

// The page's setup is passed over; then the file's tempo.
pub fn setup_at(s: &[u8], from: Place, v: u32) -> Reading<Option<u16>>
    ensures { Reads (setup.setup v) s.now from result }
{
    let at = page_at(s, equalizer_at(s, from, v), v);
    tempo_at(s, at, v)
}

fn program_of(v: u32) -> u8
    ensures { result ≡ setup.program_of v }
{
    if v <= 127 {
        return v as u8;
    }
    0
}

fn channel_at(s: &[u8], at: usize) -> Reading<u8>
    ensures { Reads setup.channel s.now (Ok at) result }
{
    let (program, at) = bin::u32_at(s, Ok(at))?;
    let at = skip_at(s, Ok(at), 8)?;
    Ok((program_of(program), at))
}

fn port_at(s: &[u8], from: usize) -> Reading<[u8; 16]>
    ensures { Reads setup.port s.now (Ok from) result }
{
    let mut programs = [0u8; 16];
    let mut at = from;
    let mut i = 0;
    while i < 16 {
        let (program, next) = channel_at(s, at)?;
        programs[i] = program;
        at = next;
        i += 1;
    }
    Ok((programs, at))
}

// The programs of four ports of sixteen channels. No struct can hold an array of arrays, so the table is a local of the
// caller's, as it is in the Rust, and is lent to be filled; where reading stops it holds zeros.
pub fn channel_table_at(s: &[u8], from: Place, programs: &mut [[u8; 16]; 4]) -> Place
    ensures { Gives setup.channel_table setup.no_ports s.now from programs.new result }
{
    *programs = [[0u8; 16]; 4];
    let mut at = from?;
    let mut table = [[0u8; 16]; 4];
    let mut i = 0;
    while i < 4 {
        let (row, next) = port_at(s, at)?;
        table[i] = row;
        at = next;
        i += 1;
    }
    *programs = table;
    Ok(at)
}

// A bar number that is not above 0 names no bar. A plain 0 says so: no bar has the number 0, so that to compare it with a bar's needs
// no case.
fn bar_number(v: u32) -> u16
    ensures { result ≡ setup.bar_number v }
{
    if 32768 <= v {
        return 0;
    }
    v as u16
}

fn nineteen_at(s: &[u8], from: usize) -> Reading<[u16; 19]>
    ensures { Reads setup.nineteen s.now (Ok from) result }
{
    let mut bars = [0u16; 19];
    let mut at = from;
    let mut i = 0;
    while i < 19 {
        let (bar, next) = bin::u16_at(s, Ok(at))?;
        bars[i] = bar_number(bar);
        at = next;
        i += 1;
    }
    Ok((bars, at))
}

// Nineteen bar numbers from v500 on.
pub fn directions_at(s: &[u8], from: Place, v: u32) -> Reading<[u16; 19]>
    ensures { Reads (setup.directions v) s.now from result }
{
    let at = from?;
    if v < 500 {
        return Ok(([0u16; 19], at));
    }
    let (bars, at) = nineteen_at(s, at)?;
    let at = skip_at(s, Ok(at), 4)?;
    Ok((bars, at))
}
