// The tail of a beat: its ottava.
ghost use Rattle.std.specs.Prelude.{◌+◌, ◌≤◌};
ghost use Rattle.format.specs.Padded.{Near, Padded};
ghost use Rattle.note.specs.Words.{Fills};
ghost use Rattle.beat.specs.Tail as format;
ghost use Rattle.beat.specs.Words as meaning;

use crate::places;
use crate::places::Beat;
use note::optional::pass_if;
use note::places::store;

// Its flags, and where the beat ends.
#[derive(Clone, Copy)]
pub(crate) struct Tail {
    pub flags: u32,
    pub next: usize,
}

// No flags stand there before v500.
pub(crate) fn tail_of(s: &[u8], at: usize, v: u32) -> Tail
    requires { Near 3 at }
    ensures reads { Padded (format.tail v) s.now at (format.ottava_of result.flags) result.next }
    ensures near { result.next ≤ at + 3 }
{
    if v < 500 {
        return Tail { flags: 0, next: at };
    }
    let flags = bin::ahead::two_bytes(s, at);
    Tail {
        flags,
        next: pass_if(at + 2, flags & 0x800 != 0, 1),
    }
}

pub(crate) fn tail_at(s: &[u8], at: usize, v: u32, b: &mut Beat) -> usize
    requires { Near 3 at }
    ensures { Fills (format.tail v) 3 s.now at meaning.OTTAVA b.old b.new
        (meaning.ottava_in b.new) result }
{
    let tail = tail_of(s, at, v);
    store(b, places::OTTAVA, tail.flags as usize);
    tail.next
}
