// Texts of beats: each once for its bar and track, both voices together (docs/RULES.md 28).
ghost use Rattle.std.specs.Prelude.{◌≡◌};
ghost use Rattle.std.proofs.Math.Seq.{slice};
ghost use Rattle.score.specs.Page.{keep_text, texts_after};
ghost use Rattle.words.specs.Words.{words, entered_words};
ghost use Rattle.into_bars.specs.Entered.{text_here, in_bar, same_at};

use entries::Entry;
use entries::texts::TEXT_WORDS;
use format::Range;
use model::Text;
use tables::load_field;

// the words of a text's entry
const BAR: usize = 0;

const TRACK: usize = 1;

const START: usize = 2;

const END: usize = 3;

// The part of the file that a range names, as far as the file goes.
#[tactic(auto, using(crate::proofs::Bytes::part_far))]
fn part(s: &[u8], start: usize, end: usize) -> &[u8]
    ensures { result.now ≡ slice start end s.now }
{
    bin::text(s, start, end.min(s.len()))
}

fn in_bar(texts: &[u32], i: usize, bar: u32, track: u32) -> bool
    ensures { result ≡ in_bar texts.now i bar track }
{
    (bar == load_field(texts, i, TEXT_WORDS, BAR))
        & (track == load_field(texts, i, TEXT_WORDS, TRACK))
}

// Whether text `i` has the bytes of another.
#[tactic(auto, using(crate::proofs::Bytes::bytes_same))]
fn same_at(s: &[u8], texts: &[u32], i: usize, text: Range) -> bool
    ensures { result ≡ same_at s.now texts.now i text }
{
    let start = load_field(texts, i, TEXT_WORDS, START) as usize;
    let end = load_field(texts, i, TEXT_WORDS, END) as usize;
    part(s, text.start, text.end) == part(s, start, end)
}

// Texts stand in the order of their bars and tracks, so those of this bar and track are the last.
#[tactic(auto, using(crate::proofs::Bytes::entered_other, crate::proofs::Bytes::entered_found, crate::proofs::Bytes::entered_on))]
pub fn entered(s: &[u8], texts: &[u32], count: u32, bar: u32, track: u32, text: Range) -> bool
    ensures { result
        ≡ entered_words s.now count (text_here s.now bar track text) texts.now }
{
    for i in (0..count as usize).rev() {
        if !in_bar(texts, i, bar, track) {
            return false;
        }
        if same_at(s, texts, i, text) {
            return true;
        }
    }
    false
}

// Hands back how many texts are entered then.
pub fn keep_text(s: &[u8], texts: &mut [u32], count: u32, bar: u32, track: u32, text: Range) -> u32
    ensures texts_after { texts.new
        ≡ keep_text (words s.now) count (text_here s.now bar track text) texts.old }
    ensures value { result
        ≡ texts_after (words s.now) count (text_here s.now bar track text) texts.old }
{
    if entered(s, texts, count, bar, track, text) {
        return count;
    }
    let entry = Text {
        bar,
        track,
        range: text,
    };
    entry.store(texts, count as usize);
    words::plus(count, 1)
}
