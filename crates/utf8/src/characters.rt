// The character of a byte: its code point by the windows-1252 index, and that in UTF-8.
ghost use Rattle.std.specs.Prelude.{◌≡◌, ◌≤◌, ℕ, List, length, take};
ghost use Rattle.std.proofs.Common.{length-take-le};
ghost use Rattle.utf8.specs.Characters.{code_point, encoded, character, filled};

use std::marker::Model;

// Of the bytes 0x80 to 0x9F.
pub const INDEX: [u16; 32] = [
    0x20AC, 0x81, 0x201A, 0x192, 0x201E, 0x2026, 0x2020, 0x2021, 0x2C6, 0x2030, 0x160, 0x2039,
    0x152, 0x8D, 0x17D, 0x8F, 0x90, 0x2018, 0x2019, 0x201C, 0x201D, 0x2022, 0x2013, 0x2014, 0x2DC,
    0x2122, 0x161, 0x203A, 0x153, 0x9D, 0x17E, 0x178,
];

// One to three bytes of UTF-8: the first `len`, and zeros behind them, so that what is shown tells the fields (a `Copy` type has to).
#[derive(Clone, Copy)]
pub struct Character {
    bytes: [u8; 3],
    len: usize,
}

impl Model for Character {
    ghost Value = { List ℕ };

    ghost view = { λ c. take c.len c.bytes };

    ghost invariant = { λ c. (c.len ≤ 3) × (c.len ≤ length c.bytes) × (filled (take c.len c.bytes) ≡ c.bytes) };

    ghost inverse = { λ bs. record { bytes = filled bs; len = length bs } };

    ghost inverse_ok = { λ c h i. record { bytes = h.2 i; len = length-take-le c.len c.bytes h.1 i } };
}

impl Character {
    pub fn as_slice(&self) -> &[u8]
        ensures { result.now ≡ self.now }
    {
        &self.bytes[..self.len]
    }

    pub fn len(&self) -> usize
        ensures { result ≡ length self.now }
    {
        self.len
    }

    // All three, of which the first `len` count, for a loop that writes them: for a slice the whole struct is made in memory, padding too,
    // at each byte.
    pub fn bytes(&self) -> [u8; 3]
        ensures { take (length self.now) result ≡ self.now }
    {
        self.bytes
    }
}

#[tactic(auto, unfolding(crate::specs::Characters::index, crate::specs::Characters::code_point))]
fn code_point(b: u8) -> u16
    ensures { result ≡ code_point b }
{
    match b {
        0x80..=0x9F => INDEX[(b - 0x80) as usize],
        _ => u16::from(b),
    }
}

fn encoded_of(code: u16) -> Character
    ensures { result ≡ encoded code }
{
    if code < 0x80 {
        return Character {
            bytes: [code as u8, 0, 0],
            len: 1,
        };
    }
    let last = (0x80 + code % 64) as u8;
    if code < 0x800 {
        return Character {
            bytes: [(0xC0 + code / 64) as u8, last, 0],
            len: 2,
        };
    }
    Character {
        bytes: [
            (0xE0 + code / 4096) as u8,
            (0x80 + code / 64 % 64) as u8,
            last,
        ],
        len: 3,
    }
}

#[tactic(auto, unfolding(crate::specs::Characters::character))]
pub fn character_of(b: u8) -> Character
    ensures { result ≡ character b }
{
    encoded_of(code_point(b))
}
