// Texts for the web (document 02, l): a range of a file's bytes, which are windows-1252, written as UTF-8 into a lent buffer, and such
// UTF-8 read back. Each way is gone twice: the first pass finds what there is to refuse and the length, the second stores.
#![tactic(auto)]

ghost use Rattle.std.specs.Prelude.{◌≡◌};
ghost use Rattle.utf8.specs.Answers.{number_of, length_of, to_utf8, from_utf8};

mod back;
mod characters;
mod text;

use format::Range;
use std::error::Error;
use std::fmt;

// Why nothing was written.
#[derive(Clone, Copy, PartialEq, Eq, Debug)]
pub enum CodingError {
    // start after end, or end past the input
    NoRange,
    // bytes that are no shortest form of a character of the index
    NoCharacter,
    // the length needed
    Short(usize),
}

impl fmt::Display for CodingError {
    fn fmt<W: fmt::Write>(&self, f: &mut fmt::Formatter<W>) -> fmt::Result {
        match *self {
            CodingError::NoRange => f.write_str("the range is no part of the input"),
            CodingError::NoCharacter => f.write_str("no character of the index"),
            CodingError::Short(needed) => write!(f, "{needed} bytes are needed"),
        }
    }
}

impl Error for CodingError {}

// Document 02's number of an answer; this and the length below are the words that C gets.
pub fn number(x: Result<usize, CodingError>) -> usize
    ensures { result ≡ number_of x }
{
    match x {
        Ok(_) => 0,
        Err(CodingError::NoRange) => 9,
        Err(CodingError::NoCharacter) => 10,
        Err(CodingError::Short(_)) => 8,
    }
}

// The length, or the length needed.
pub fn length(x: Result<usize, CodingError>) -> usize
    ensures { result ≡ length_of x }
{
    match x {
        Ok(n) | Err(CodingError::Short(n)) => n,
        Err(CodingError::NoRange | CodingError::NoCharacter) => 0,
    }
}

// Any range of any input: how many bytes were written.
pub fn to_utf8(data: &[u8], range: Range, out: &mut [u8]) -> Result<usize, CodingError>
    ensures { let said = to_utf8 «data».now range out.old in (result ≡ said.coded) × (out.new ≡ said.buffer) }
{
    let text = data
        .get(range.start..range.end)
        .ok_or(CodingError::NoRange)?;
    text::put(text, out)
}

// All of `data`: a caller with a range lends that part.
pub fn from_utf8(data: &[u8], out: &mut [u8]) -> Result<usize, CodingError>
    ensures { let said = from_utf8 «data».now out.old in (result ≡ said.coded) × (out.new ≡ said.buffer) }
{
    let size = back::read(data, &mut []).ok_or(CodingError::NoCharacter)?;
    if out.len() < size {
        return Err(CodingError::Short(size));
    }
    back::read(data, out);
    Ok(size)
}
