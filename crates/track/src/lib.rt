// Tracks.
#![tactic(auto)]

ghost use Rattle.std.specs.Prelude.{◌≡◌, ◌≤◌, Ok, IfOk};
ghost use Rattle.format.specs.Place.{Reaches, Reads, ReadsAs};
ghost use Rattle.track.specs.Track as track;

use bin::skip_at;
use bin::string::int_byte_string_past;
use curve::held::{capo_of, tuning_of};
use format::{Counted, Place, Range, Reading};
use header::has;
use model::Clef;

// A track's strings: how many, and the keys of the open ones in the file's order, 0 past the last.
#[derive(Clone, Copy, PartialEq, Eq)]
pub struct Strings {
    pub count: u8,
    pub tunings: [u8; 7],
}

// Where a track's program stands in the channel table, and its capo.
#[derive(Clone, Copy)]
pub struct Sound {
    pub port: u8,
    pub channel: u8,
    pub capo: u8,
}

// What a track says of its staff from v500 on.
#[derive(Clone, Copy)]
pub struct Staff {
    pub flags: u8,
    pub clef: u32,
}

#[derive(Clone, Copy)]
pub struct TrackHeader {
    pub name: Range,
    pub strings: Strings,
    pub capo: u8,
    pub percussion: bool,
    pub tablature: bool,
    pub clef: Clef,
    pub channel: u8,
    pub program: Option<u8>,
}

// The keys of the first n strings.
fn tunings_at(s: &[u8], from: usize, n: usize) -> Reading<[u8; 7]>
    requires { n ≤ 7 }
    ensures { Reads (track.tunings n) s.now (Ok from) result }
{
    let mut keys = [0u8; 7];
    let mut at = from;
    let mut i = 0;
    while i < n {
        let (word, next) = bin::u32_at(s, Ok(at))?;
        keys[i] = tuning_of(word);
        at = next;
        i += 1;
    }
    Ok((keys, at))
}

// The tunings past the string count are passed over.
fn strings_at(s: &[u8], at: usize) -> Reading<Strings>
    ensures reads { Reads track.strings s.now (Ok at) result }
    ensures count_bound { IfOk result (λ r. r.0.count ≤ 7) }
{
    let (n, at) = bin::count_at(s, Ok(at), Counted::Strings)?;
    let (tunings, at) = tunings_at(s, at, n as usize)?;
    let at = skip_at(s, Ok(at), 4 * (7 - (n as usize)))?;
    let count = n as u8;
    Ok((Strings { count, tunings }, at))
}

// A number less one, held to 0..last.
fn numbered(last: u8, v: u32) -> u8
    ensures { result ≡ track.numbered last v }
{
    let n = bin::signed::less_one(v);
    if n < (last as u32) {
        return n as u8;
    }
    last
}

fn sound_at(s: &[u8], at: usize) -> Reading<Sound>
    ensures reads { Reads track.sound s.now (Ok at) result }
    ensures port_bound { IfOk result (λ r. (r.0.port ≤ 3) × (r.0.channel ≤ 15)) }
{
    let (port, at) = bin::u32_at(s, Ok(at))?;
    let (channel, at) = bin::u32_at(s, Ok(at))?;
    let (capo, at) = bin::u32_at(s, skip_at(s, Ok(at), 8))?;
    let at = skip_at(s, Ok(at), 4)?;
    let sound = Sound {
        port: numbered(3, port),
        channel: numbered(15, channel),
        capo: capo_of(capo),
    };
    Ok((sound, at))
}

fn effect_at(s: &[u8], from: Place, v: u32) -> Place
    ensures { Reaches (track.effect v) s.now from tt result }
{
    if 510 <= v {
        let at = int_byte_string_past(s, skip_at(s, from, 4));
        return int_byte_string_past(s, at);
    }
    from
}

// Before v500 the staff is as if its flag 0x01 were set and its clef field 0.
fn staff_at(s: &[u8], at: usize, v: u32) -> Reading<Staff>
    ensures { Reads (track.staff v) s.now (Ok at) result }
{
    if v < 500 {
        return Ok((Staff { flags: 1, clef: 0 }, at));
    }
    let (flags, at) = bin::u8_at(s, Ok(at))?;
    let (clef, at) = bin::u32_at(s, skip_at(s, Ok(at), 4))?;
    let at = effect_at(s, skip_at(s, Ok(at), 36), v)?;
    Ok((Staff { flags, clef }, at))
}

fn tablature_of(percussion: bool, strings: u8, flags: u8) -> bool
    ensures { result ≡ track.tablature_of percussion strings flags }
{
    if percussion {
        return false;
    }
    if strings == 0 {
        return false;
    }
    has(flags, 0x01)
}

// Whether the last tuning is under 35.
fn is_low(strings: Strings) -> bool
    requires { strings.count ≤ 7 }
    ensures { result ≡ track.low strings }
{
    let n = strings.count as usize;
    if n == 0 {
        return false;
    }
    let tunings = strings.tunings;
    tunings[n - 1] < 35
}

fn clef_of(percussion: bool, strings: Strings, field: u32) -> Clef
    requires { strings.count ≤ 7 }
    ensures { result ≡ track.clef_of percussion strings field }
{
    if percussion {
        return Clef::Percussion;
    }
    if is_low(strings) {
        return Clef::Bass;
    }
    if field == 12 {
        return Clef::Bass;
    }
    Clef::Treble
}

// The program of the port and channel, absent for percussion.
fn program_of(percussion: bool, programs: [[u8; 16]; 4], port: usize, channel: usize) -> Option<u8>
    requires { (port ≤ 3) × (channel ≤ 15) }
    ensures { result ≡ track.channel_program percussion programs port channel }
{
    if percussion {
        return None;
    }
    Some(programs[port][channel])
}

fn track_of(
    programs: [[u8; 16]; 4],
    flags: u8,
    name: Range,
    strings: Strings,
    sound: Sound,
    staff: Staff,
) -> TrackHeader
    requires { (strings.count ≤ 7) × (sound.port ≤ 3) × (sound.channel ≤ 15) }
    ensures { result ≡ track.track_of programs flags name strings sound staff }
{
    let percussion = has(flags, 0x01);
    TrackHeader {
        name,
        strings,
        capo: sound.capo,
        percussion,
        tablature: tablature_of(percussion, strings.count, staff.flags),
        clef: clef_of(percussion, strings, staff.clef),
        channel: sound.channel,
        program: program_of(
            percussion,
            programs,
            sound.port as usize,
            sound.channel as usize,
        ),
    }
}

// A track, with the program that the channel table has for it.
pub fn track_at(s: &[u8], from: Place, v: u32, programs: [[u8; 16]; 4]) -> Reading<TrackHeader>
    ensures { Reads (track.track v programs) s.now from result }
{
    let (flags, at) = bin::u8_at(s, from)?;
    let (name, at) = bin::string::fixed_string(s, Ok(at), 40)?;
    let (strings, at) = strings_at(s, at)?;
    let (sound, at) = sound_at(s, at)?;
    let (staff, at) = staff_at(s, at, v)?;
    Ok((track_of(programs, flags, name, strings, sound, staff), at))
}
