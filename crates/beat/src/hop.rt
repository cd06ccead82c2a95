// A plain beat is hopped over, where it is only counted.
ghost use Rattle.beat.specs.Hop as meaning;

use crate::tail;
use format::Place;
use note::notes::hop_notes;

// Flags, duration, strings, seven notes and the tail at most: then all of them are there.
const PLAIN_BEAT: usize = 41;

// Where the beat ends, and its strings: of a beat of nothing but plain notes, of any duration, with no chord, text, effects, mix table,
// tuplet and status.
pub fn hop_beat(s: &[u8], from: Place, v: u32) -> Option<(usize, u8)>
    ensures { meaning.Hops v s.now from result }
{
    let Ok(at) = from else {
        return None;
    };
    if s.len() < at {
        return None;
    }
    if s.len() - at < PLAIN_BEAT {
        return None;
    }
    if s[at] & 0x7E != 0 {
        return None;
    }
    let strings = s[at + 2];
    let past = hop_notes(s, at + 3, v, strings)?;
    Some((tail::tail_of(s, past, v).next, strings))
}
