// A text's bytes as UTF-8.
ghost use Rattle.std.specs.Prelude.{◌≡◌, ◌+◌, ◌≤◌, length};
ghost use Rattle.std.proofs.lemmas.List.Edits.{sets};
ghost use Rattle.utf8.specs.Characters.{character, written};
ghost use Rattle.utf8.specs.Answers as answers;
ghost use Rattle.utf8.specs.Found.{stated};

use crate::CodingError;
use crate::characters::character_of;

// How many bytes the character of a byte has. Most have one, which is told by one test.
#[tactic(auto, using(crate::proofs::Front::character_one))]
fn size_of(byte: u8) -> usize
    ensures { result ≡ length (character byte) }
{
    if byte < 0x80 {
        return 1;
    }
    character_of(byte).len()
}

// How many bytes a text has as UTF-8, where a length says it.
fn length_of(text: &[u8]) -> Option<usize>
    ensures { result ≡ stated (length (written text.now)) }
{
    let mut n: usize = 0;
    for byte in text {
        n = n.checked_add(size_of(*byte))?;
    }
    Some(n)
}

// Bytes for which there is room: no test for each.
fn store(out: &mut [u8], at: usize, bytes: &[u8])
    requires { at + length bytes.now ≤ length out.old }
    ensures { out.new ≡ sets out.old at bytes.now }
{
    for j in 0..bytes.len() {
        out[at + j] = bytes[j];
    }
}

// The characters one after another, at the start of a buffer that has room for them.
fn write(text: &[u8], out: &mut [u8])
    requires { length (written text.now) ≤ length out.old }
    ensures { out.new ≡ sets out.old 0 (written text.now) }
{
    let mut at: usize = 0;
    for byte in text {
        let character = character_of(*byte);
        let bytes = character.bytes();
        let len = character.len();
        store(out, at, &bytes[..len]);
        at += len;
    }
}

// The text as UTF-8 in a buffer.
pub fn put(text: &[u8], out: &mut [u8]) -> Result<usize, CodingError>
    ensures { let said = answers.put (written text.now) out.old in (result ≡ said.coded) × (out.new ≡ said.buffer) }
{
    let needed = length_of(text).ok_or(CodingError::Short(usize::MAX))?;
    if out.len() < needed {
        return Err(CodingError::Short(needed));
    }
    write(text, out);
    Ok(needed)
}
