// UTF-8 read back. Of the bytes at the front it is worked out which byte's character they can be; that character is then made and held
// to them, so that nothing is accepted but what is written.
ghost use Rattle.std.specs.Prelude.{◌≡◌, true, List, ℕ, ◌<◌, Some, None, MatchOption, option_map, length, drop};
ghost use Rattle.std.proofs.lemmas.List.Edits.{sets};
ghost use Rattle.utf8.specs.Characters.{code_point, encoded, character};
ghost use Rattle.utf8.specs.Back.{begins, front, back};

use crate::characters::{INDEX, character_of};
use bin::ahead;

// The code point whose UTF-8 stands at the front, if there is one.
fn code_at(s: &[u8]) -> u16
    ensures { (c : ℕ) → c < 65536 → begins (encoded c) s.now ≡ true → result ≡ c }
{
    let first = u16::from(ahead::byte(s, 0));
    let second = u16::from(ahead::byte(s, 1));
    let third = u16::from(ahead::byte(s, 2));
    if first < 0x80 {
        return first;
    }
    if first < 0xE0 {
        return first % 32 * 64 + second % 64;
    }
    first % 16 * 4096 + second % 64 * 64 + third % 64
}

// The byte that has this code point, if there is one.
fn byte_of(code: u16) -> u8
    ensures { (b : ℕ) → b < 256 → code_point b ≡ code → result ≡ b }
{
    if code < 256 {
        return code as u8;
    }
    for i in 0..INDEX.len() {
        if INDEX[i] == code {
            return (0x80 + i) as u8;
        }
    }
    0
}

// The byte whose character stands at the front, and what stands behind that.
fn front_of(s: &[u8]) -> Option<(u8, &[u8])>
    ensures { MatchOption result (front s.now ≡ None)
        (λ x. (front s.now ≡ Some x.0) × (x.1.now ≡ drop (length (character x.0)) s.now)) }
{
    // What is ASCII stands for itself: no character is made in memory and compared there.
    if let [first, rest @ ..] = s
        && *first < 0x80
    {
        return Some((*first, rest));
    }
    let code = code_at(s);
    let byte = byte_of(code);
    let character = character_of(byte);
    let rest = s.strip_prefix(character.as_slice())?;
    Some((byte, rest))
}

// The bytes of a text, from the start of a buffer on, as far as it goes: how many they are, and none where the text is refused.
pub fn read(text: &[u8], out: &mut [u8]) -> Option<usize>
    ensures counted { result ≡ option_map length (back text.now) }
    ensures stored { (bs : List ℕ) → back text.now ≡ Some bs → out.new ≡ sets out.old 0 bs }
{
    let mut left = text;
    let mut n: usize = 0;
    while !left.is_empty() {
        let (byte, rest) = front_of(left)?;
        tables::store(out, n, byte);
        n += 1;
        left = rest;
    }
    Some(n)
}
