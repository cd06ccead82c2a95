// Technique and its text: the members are gone through in the order of their keys (docs/RULES.md 19).
ghost use Rattle.std.specs.Prelude.{◌≡◌, List, ℕ};
ghost use Rattle.format.specs.Text.{pick};
ghost use Rattle.note.specs.Points.{bend_in};
ghost use Rattle.note.specs.Words.{start, note_in, read_in};
ghost use Rattle.score.specs.Rows as rule;
ghost use Rattle.draft.specs.Steps.{played_in, played_by};

use model::{Technique, TechniqueText};
use note::bend::Bend;
use note::field;
use note::places::Notes;

#[derive(Clone, Copy)]
pub struct Played {
    pub text: TechniqueText,
    pub technique: Technique,
    pub bend: Bend,
}

// No Option: its count says that there is none.
pub(crate) const NO_BEND: Bend = Bend { start: 0, count: 0 };

pub(crate) const NO_PLAY: Played = Played {
    text: TechniqueText::NoText,
    technique: Technique::NoTechnique,
    bend: NO_BEND,
};

fn none_text(text: TechniqueText) -> bool
    ensures { result ≡ rule.none_text text }
{
    text == TechniqueText::NoText
}

fn none_yet(technique: Technique) -> bool
    ensures { result ≡ rule.none_yet technique }
{
    technique == Technique::NoTechnique
}

// Palm mute overwrites the hammer mark; let ring does not.
fn with_text(notes: &Notes, string: usize, p: Played) -> Played
    ensures { (s : List ℕ) (v : ℕ) → played_in s result
        ≡ rule.with_text (read_in v notes.now string).effects (played_in s p) }
{
    if field::palm_mute(notes, string) {
        return Played {
            text: TechniqueText::PalmMute,
            ..p
        };
    }
    if field::let_ring(notes, string) & none_text(p.text) {
        return Played {
            text: TechniqueText::LetRing,
            ..p
        };
    }
    p
}

#[tactic(auto, using(crate::proofs::Steps::bent_is))]
fn with_bend(bend: Bend, p: Played) -> Played
    ensures { (s : List ℕ) → played_in s result ≡ rule.with_bend (bend_in s bend) (played_in s p) }
{
    if (0 < bend.count) & none_yet(p.technique) {
        return Played {
            technique: Technique::Bend,
            bend,
            ..p
        };
    }
    p
}

fn hammer_text(text: TechniqueText) -> TechniqueText
    ensures { result ≡ pick (rule.none_text text) TechniqueText.HammerMark text }
{
    if none_text(text) {
        TechniqueText::HammerMark
    } else {
        text
    }
}

fn with_hammer(notes: &Notes, string: usize, p: Played) -> Played
    ensures { (s : List ℕ) (v : ℕ) → played_in s result
        ≡ rule.with_hammer (read_in v notes.now string).effects (played_in s p) }
{
    if field::hammer(notes, string) & none_yet(p.technique) {
        return Played {
            text: hammer_text(p.text),
            technique: Technique::Hammer,
            ..p
        };
    }
    p
}

fn with_slide(notes: &Notes, string: usize, v: u32, p: Played) -> Played
    ensures { (s : List ℕ) → played_in s result
        ≡ rule.with_slide (read_in v notes.now string).effects (played_in s p) }
{
    let slide = field::slide(notes, string, v);
    if slide.slide & none_yet(p.technique) {
        return Played {
            technique: Technique::Slide,
            ..p
        };
    }
    p
}

pub(crate) fn played_by(notes: &Notes, string: usize, v: u32, p: Played) -> Played
    ensures { (s : List ℕ) → played_in s result ≡ played_by (note_in s v notes.now (start string)) (played_in s p) }
{
    let p = with_text(notes, string, p);
    let p = with_bend(field::bend(notes, string), p);
    let p = with_hammer(notes, string, p);
    with_slide(notes, string, v, p)
}
