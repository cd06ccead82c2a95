// Keys (MIDI numbers) of notes and of graces.
ghost use Rattle.std.specs.Prelude.{◌≡◌, min};
ghost use Rattle.curve.specs.Key.{percussion_key, string_key, note_key, grace_key};

// The largest key.
const LAST: u32 = 127;

// The key of a fret on a percussion track.
#[tactic(auto, unfolding(crate::specs::Key::percussion_key))]
pub fn percussion_key(fret: u8) -> u8
    ensures { result ≡ percussion_key fret }
{
    match fret {
        27 => 42,
        28 => 60,
        32 => 31,
        _ => fret,
    }
}

// `key`, held to the largest key.
fn key_held(key: u32) -> u8
    ensures { result ≡ min key 127 }
{
    key.min(LAST) as u8
}

// The key of a fret on a string.
pub fn string_key(fret: u8, tuning: u8, capo: u8) -> u8
    ensures { result ≡ string_key fret tuning capo }
{
    key_held(fret as u32 + tuning as u32 + capo as u32)
}

// The key of a note, of either kind of track.
pub fn note_key(percussion: bool, fret: u8, tuning: u8, capo: u8) -> u8
    ensures { result ≡ note_key percussion fret tuning capo }
{
    if percussion {
        percussion_key(fret)
    } else {
        string_key(fret, tuning, capo)
    }
}

// The key of a grace: `key` is its note's, `fret` the fret that was read for the note, `grace` the grace's own.
pub fn grace_key(key: u8, fret: u8, grace: u8) -> u8
    ensures { result ≡ grace_key key fret grace }
{
    key_held((key as u32 + grace as u32).saturating_sub(fret as u32))
}
