// Texts: cut at the first zero byte and trimmed, kept as a range of the input; and the four kinds of string, kept or passed over:
// two functions each, as they are two programs of the format, so that nothing of what is passed over reaches an answer (docs/DECISIONS.md).
ghost use Rattle.std.specs.Prelude.{◌≡◌, ◌+◌, ◌-◌, ◌≤◌, length};
ghost use Rattle.std.proofs.Math.Seq.{slice};
ghost use Rattle.format.specs.Text.{blank, cut_len, lead_len, keep_len, range_of, text_in};
ghost use Rattle.format.specs.Place.{Reaches, Reads, ReadsAs};
ghost use Rattle.format.specs.Fields as field;

use crate::signed::less_one;
use format::{NO_RANGE, Place, Range, Reading, Stop};

// no text is longer
const MAX_STRING: u32 = 1048576;

#[tactic(auto, unfolding(format::specs::Text::blank))]
fn is_blank(b: u8) -> bool
    ensures { result ≡ blank b }
{
    matches!(b, 9..=13 | 32 | 160)
}

// where the first zero stands, or the end
fn cut_end(s: &[u8], from: usize, end: usize) -> usize
    requires { (from ≤ end) × (end ≤ length s.now) }
    ensures { (from ≤ result) × (result ≤ end) × (result ≡ from + cut_len (slice from end s.now)) }
{
    for i in from..end {
        if s[i] == 0 {
            return i;
        }
    }
    end
}

// past the blanks at the start
fn lead_end(s: &[u8], from: usize, end: usize) -> usize
    requires { (from ≤ end) × (end ≤ length s.now) }
    ensures { (from ≤ result) × (result ≤ end) × (result ≡ from + lead_len (slice from end s.now)) }
{
    for i in from..end {
        if !is_blank(s[i]) {
            return i;
        }
    }
    end
}

// before the blanks at the end
fn keep_end(s: &[u8], from: usize, end: usize) -> usize
    requires { (from ≤ end) × (end ≤ length s.now) }
    ensures { (from ≤ result) × (result ≤ end) × (result ≡ from + keep_len (slice from end s.now)) }
{
    for last in (from..end).rev() {
        if !is_blank(s[last]) {
            return last + 1;
        }
    }
    from
}

// an empty text is 0 and 0
fn range_of(start: usize, stop: usize) -> Range
    requires { start ≤ stop }
    ensures { result ≡ range_of start (stop - start) }
{
    if start == stop {
        return NO_RANGE;
    }
    Range { start, end: stop }
}

// The text of n bytes.
pub fn words_at(s: &[u8], from: Place, n: usize) -> Reading<Range>
    ensures { ReadsAs (text_in s.now) (field.text_bytes n) s.now from result }
{
    let at = from?;
    if s.len() < at {
        return Err(Stop::Ends);
    }
    if s.len() - at < n {
        return Err(Stop::Ends);
    }
    let end = at + n;
    let cut = cut_end(s, at, end);
    let start = lead_end(s, at, cut);
    let stop = keep_end(s, start, cut);
    Ok((range_of(start, stop), end))
}

// A text's length is tested before its bytes are sought.
fn string_at(s: &[u8], from: Place, n: u32) -> Reading<Range>
    ensures { ReadsAs (text_in s.now) (field.string_of n) s.now from result }
{
    let at = from?;
    if n <= MAX_STRING {
        return words_at(s, Ok(at), n as usize);
    }
    Err(Stop::Text)
}

fn string_past(s: &[u8], from: Place, n: u32) -> Place
    ensures { Reaches (field.string_past n) s.now from tt result }
{
    let at = from?;
    if n <= MAX_STRING {
        return crate::skip_at(s, Ok(at), n as usize);
    }
    Err(Stop::Text)
}

// A length byte, then a field of fixed width.
pub fn fixed_string(s: &[u8], from: Place, width: usize) -> Reading<Range>
    ensures { ReadsAs (text_in s.now) (field.fixed_string width) s.now from result }
{
    let (stated, at) = crate::u8_at(s, from)?;
    let n = stated as usize;
    if width < n {
        return words_at(s, Ok(at), width);
    }
    let (range, at) = words_at(s, Ok(at), n)?;
    let at = crate::skip_at(s, Ok(at), width - n)?;
    Ok((range, at))
}

// A four-byte field size that is not used, then a length byte and the text.
pub fn int_byte_string_unused(s: &[u8], from: Place) -> Reading<Range>
    ensures { ReadsAs (text_in s.now) field.int_byte_string_unused s.now from result }
{
    let (n, at) = crate::u8_at(s, crate::skip_at(s, from, 4))?;
    words_at(s, Ok(at), n as usize)
}

pub fn int_byte_string_unused_past(s: &[u8], from: Place) -> Place
    ensures { Reaches field.int_byte_string_unused_past s.now from tt result }
{
    let (n, at) = crate::u8_at(s, crate::skip_at(s, from, 4))?;
    crate::skip_at(s, Ok(at), n as usize)
}

// A four-byte length, then the text.
pub fn int_string(s: &[u8], from: Place) -> Reading<Range>
    ensures { ReadsAs (text_in s.now) field.int_string s.now from result }
{
    let (n, at) = crate::u32_at(s, from)?;
    string_at(s, Ok(at), n)
}

// A four-byte size, a length byte that is passed over, then the text.
pub fn int_byte_string(s: &[u8], from: Place) -> Reading<Range>
    ensures { ReadsAs (text_in s.now) field.int_byte_string s.now from result }
{
    let (size, at) = crate::u32_at(s, from)?;
    string_at(s, crate::skip_at(s, Ok(at), 1), less_one(size))
}

pub fn int_byte_string_past(s: &[u8], from: Place) -> Place
    ensures { Reaches field.int_byte_string_past s.now from tt result }
{
    let (size, at) = crate::u32_at(s, from)?;
    string_past(s, crate::skip_at(s, Ok(at), 1), less_one(size))
}
