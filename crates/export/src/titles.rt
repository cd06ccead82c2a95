// Texts as UTF-8, and UTF-8 read back (document 02, l), for a program in another language. `said` gets two words, or as many as it has: the
// answer's number and its length, 0 where it names none.
ghost use Rattle.std.specs.Prelude.{◌≡◌};
ghost use Rattle.std.proofs.lemmas.List.Edits.{sets};
ghost use Rattle.utf8.specs.Answers.{to_utf8, from_utf8};
ghost use Rattle.export.specs.Said.{coded_words};

use format::Range;
use utf8::CodingError;

fn say(coded: Result<usize, CodingError>, said: &mut [usize])
    ensures { said.new ≡ sets said.old 0 (coded_words coded) }
{
    tables::store_words(said, 0, &[utf8::number(coded), utf8::length(coded)]);
}

#[unsafe(no_mangle)]
pub extern "C" fn fungusleigh_to_utf8(
    data: &[u8],
    start: usize,
    end: usize,
    out: &mut [u8],
    said: &mut [usize],
)
    ensures { let coding = to_utf8 «data».now (record { start = start; end = end }) out.old in
        (out.new ≡ coding.buffer) × (said.new ≡ sets said.old 0 (coded_words coding.coded)) }
{
    say(utf8::to_utf8(data, Range { start, end }, out), said);
}

#[unsafe(no_mangle)]
pub extern "C" fn fungusleigh_from_utf8(data: &[u8], out: &mut [u8], said: &mut [usize])
    ensures { let coding = from_utf8 «data».now out.old in
        (out.new ≡ coding.buffer) × (said.new ≡ sets said.old 0 (coded_words coding.coded)) }
{
    say(utf8::from_utf8(data, out), said);
}
