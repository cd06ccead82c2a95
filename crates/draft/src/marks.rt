// Articulations, in the order in which they are added (docs/RULES.md 21).
ghost use Rattle.std.specs.Prelude.{◌≡◌, ℕ};
ghost use Rattle.model.specs.Marks.{added_in};
ghost use Rattle.note.specs.Words.{read_in};
ghost use Rattle.beat.specs.Words.{effects_in};
ghost use Rattle.score.specs.Rows as rule;
ghost use Rattle.draft.specs.Steps.{add_marks, beat_harmonic};

use beat::effects::PickStroke;
use beat::places::Beat;
use model::Articulation;
use model::marks::{Marks, added};
use note::field;
use note::places::Notes;

// By a flag, as the definition `only`: a closure would be called under the same test.
#[tactic(auto, unfolding(crate::specs::Steps::add_marks))]
fn added_if(m: Marks, given: bool, a: Articulation) -> Marks
    ensures { added_in result ≡ add_marks (added_in m) (rule.only given a) }
{
    if given { added(m, a) } else { m }
}

#[tactic(auto, unfolding(crate::specs::Steps::add_marks))]
pub(crate) fn with_accent(m: Marks, notes: &Notes, string: usize) -> Marks
    ensures { (v : ℕ) → added_in result ≡ add_marks (added_in m) (rule.accents (read_in v notes.now string)) }
{
    if field::heavy_accent(notes, string) {
        return added(m, Articulation::Marcato);
    }
    added_if(m, field::accent(notes, string), Articulation::Accent)
}

fn strokes(n: u8) -> Articulation
    ensures { result ≡ rule.strokes n }
{
    match n {
        1 => Articulation::Tremolo1,
        2 => Articulation::Tremolo2,
        _ => Articulation::Tremolo3,
    }
}

#[tactic(auto, unfolding(crate::specs::Steps::add_marks))]
fn with_tremolo(m: Marks, tremolo: Option<u8>) -> Marks
    ensures { added_in result ≡ add_marks (added_in m) (rule.tremolos tremolo) }
{
    let Some(n) = tremolo else {
        return m;
    };
    added(m, strokes(n))
}

#[tactic(auto, using(crate::proofs::Steps::add_both))]
fn with_slide(m: Marks, notes: &Notes, string: usize, v: u32) -> Marks
    ensures { added_in result ≡ add_marks (added_in m) (rule.slides (read_in v notes.now string).effects.slide) }
{
    let slide = field::slide(notes, string, v);
    let m = added_if(m, slide.falloff, Articulation::Falloff);
    let m = added_if(m, slide.doit, Articulation::Doit);
    let m = added_if(m, slide.scoop, Articulation::Scoop);
    added_if(m, slide.plop, Articulation::Plop)
}

// A beat's harmonic is one of each of its notes.
pub(crate) fn beat_harmonic(b: &Beat, v: u32) -> bool
    ensures { result ≡ beat_harmonic (effects_in v b.now) }
{
    beat::field::natural_harmonic(b, v) | beat::field::artificial_harmonic(b, v)
}

fn harmonic(b: &Beat, notes: &Notes, string: usize, v: u32) -> bool
    ensures { result ≡ rule.harmonics (read_in v notes.now string) (effects_in v b.now) }
{
    field::harmonic(notes, string) | beat_harmonic(b, v)
}

#[tactic(auto, unfolding(score::specs::Rows::note_marks), using(crate::proofs::Steps::add_both))]
pub(crate) fn with_note(m: Marks, b: &Beat, notes: &Notes, string: usize, v: u32) -> Marks
    ensures { added_in result
        ≡ add_marks (added_in m) (rule.note_marks (effects_in v b.now) (read_in v notes.now string)) }
{
    let m = with_accent(m, notes, string);
    let m = added_if(m, field::vibrato(notes, string), Articulation::Vibrato);
    let m = with_slide(m, notes, string, v);
    let m = added_if(m, field::staccato(notes, string), Articulation::Staccato);
    let m = added_if(m, harmonic(b, notes, string, v), Articulation::Harmonic);
    let m = added_if(m, field::trill(notes, string), Articulation::Trill);
    with_tremolo(m, field::tremolo(notes, string))
}

#[tactic(auto, unfolding(crate::specs::Steps::add_marks))]
fn with_bow(m: Marks, stroke: PickStroke) -> Marks
    ensures { added_in result ≡ add_marks (added_in m) (rule.bows stroke) }
{
    match stroke {
        PickStroke::NoStroke => m,
        PickStroke::Up => added(m, Articulation::UpBow),
        PickStroke::Down => added(m, Articulation::DownBow),
    }
}

#[tactic(auto, unfolding(score::specs::Rows::beat_marks), using(crate::proofs::Steps::add_both))]
pub(crate) fn with_beat(m: Marks, b: &Beat, v: u32) -> Marks
    ensures { added_in result ≡ add_marks (added_in m) (rule.beat_marks (effects_in v b.now)) }
{
    let m = with_bow(m, beat::field::pick(b));
    let m = added_if(m, beat::field::vibrato(b, v), Articulation::Vibrato);
    added_if(m, beat::field::tap(b), Articulation::Tap)
}
