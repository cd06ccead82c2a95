// A beat's head: flags, status, duration and tuplet.
ghost use Rattle.std.specs.Prelude.{◌+◌};
ghost use Rattle.format.specs.Padded.{Near};
ghost use Rattle.note.specs.Words.{byte_in, Fills};
ghost use Rattle.beat.specs.Head as format;
ghost use Rattle.beat.specs.Words as meaning;

use crate::places;
use crate::places::Beat;
use format::Place;
use model::{Duration, Tuplet};
use note::places::{put, store};

// A head, as the format's definitions have it.
#[derive(Clone, Copy)]
pub struct Head {
    pub flags: u8,
    pub kept: bool,
    pub duration: Duration,
    pub tuplet: Option<Tuplet>,
}

fn status_at(s: &[u8], at: usize, flags: u8, b: &mut Beat) -> usize
    requires { Near 1 at }
    ensures { Fills (format.status flags) 1 s.now at meaning.STATUS b.old b.new
        (byte_in b.new meaning.STATUS) result }
{
    if flags & 0x40 == 0 {
        put(b, places::STATUS, 0x02);
        return at;
    }
    put(b, places::STATUS, bin::ahead::byte(s, at));
    at + 1
}

fn tuplet_at(s: &[u8], at: usize, flags: u8, b: &mut Beat) -> usize
    requires { Near 4 at }
    ensures { Fills (format.tuplet flags) 4 s.now at meaning.TUPLET b.old b.new
        (meaning.number_in b.new meaning.TUPLET) result }
{
    if flags & 0x20 == 0 {
        store(b, places::TUPLET, 0);
        return at;
    }
    let actual = bin::ahead::four_bytes(s, at);
    store(b, places::TUPLET, actual as usize);
    at + 4
}

// What stands behind the flags.
fn head_end(s: &[u8], at: usize, flags: u8, b: &mut Beat) -> usize
    requires { Near 6 at }
    ensures { Fills (meaning.head_end flags) 6 s.now at meaning.STATUS b.old b.new
        (meaning.head_with flags b.new) result }
{
    let at = status_at(s, at, flags, b);
    put(b, places::DURATION, bin::ahead::byte(s, at));
    tuplet_at(s, at + 1, flags, b)
}

// Its fields are read to the last, past the end of the file as zeros: where they end says whether all were there.
pub(crate) fn head_at(s: &[u8], from: Place, b: &mut Beat) -> Place
    ensures { meaning.Stores format.head s.now from meaning.FLAGS b.old b.new
        (meaning.head_in b.new) result }
{
    let (flags, at) = bin::u8_at(s, from)?;
    put(b, places::FLAGS, flags);
    bin::ahead::reached(s, head_end(s, at, flags, b))
}
