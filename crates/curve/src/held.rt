// Numbers of the file held to their ranges, each range by its name over one `held_to`. A byte or a word is the file's own: in two's
// complement, where it is signed.
ghost use Rattle.std.specs.Prelude.{◌≡◌, ◌≤◌};
ghost use Rattle.curve.specs.Held.{held, HeldTo, byte_half, byte_end, word_half};

// The first word of four bytes that stands for a number below zero.
pub(crate) const WORD_HALF: u32 = 0x8000_0000;

// The first byte that stands for a number below zero.
const BYTE_HALF: u32 = 0x80;

// Past the last byte: no byte of these stands for a number below zero.
const BYTE_END: u32 = 0x100;

// `x` held to lo..hi; from `half` on, `x` stands for a number below zero.
#[tactic(auto, unfolding(crate::specs::Held::held))]
pub(crate) fn held_to(half: u32, lo: u32, hi: u32, x: u32) -> u32
    requires { lo ≤ hi }
    ensures { HeldTo half lo hi x result }
{
    if x < half { x.clamp(lo, hi) } else { lo }
}

// The fret of a note or of a grace, 0..99.
pub fn fret_of(byte: u8) -> u8
    ensures { result ≡ held byte_half 0 99 byte }
{
    held_to(BYTE_HALF, 0, 99, byte as u32) as u8
}

// A string's tuning, 0..127.
pub fn tuning_of(word: u32) -> u8
    ensures { result ≡ held word_half 0 127 word }
{
    held_to(WORD_HALF, 0, 127, word) as u8
}

// A track's capo, 0..24.
pub fn capo_of(word: u32) -> u8
    ensures { result ≡ held word_half 0 24 word }
{
    held_to(WORD_HALF, 0, 24, word) as u8
}

// A note's dynamic, 1..8.
pub fn dynamic_of(byte: u8) -> u8
    ensures { result ≡ held byte_half 1 8 byte }
{
    held_to(BYTE_HALF, 1, 8, byte as u32) as u8
}

// A tremolo's strokes, 1..3: this byte is unsigned.
pub fn tremolo_of(byte: u8) -> u8
    ensures { result ≡ held byte_end 1 3 byte }
{
    held_to(BYTE_END, 1, 3, byte as u32) as u8
}
