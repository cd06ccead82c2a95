// What the graces of a chord give their row (docs/RULES.md 22).
ghost use Rattle.std.specs.Prelude.{◌≡◌, List, ℕ, eqb};
ghost use Rattle.format.specs.Text.{pick};
ghost use Rattle.score.specs.Members.{graces};
ghost use Rattle.draft.specs.Chord.{chord_in};
ghost use Rattle.draft.specs.Steps.{graces_of, graced_by, graced_if, technique_by};

use crate::chord;
use crate::voicing::head_with;
use model::{NoteHead, Technique, TechniqueText};
use note::field;
use note::marks::Grace;
use note::places::Notes;

// `any`: whether there are graces.
#[derive(Clone, Copy)]
pub struct Graces {
    pub any: bool,
    pub text: TechniqueText,
    pub technique: Technique,
    pub head: NoteHead,
}

const NO_GRACES: Graces = Graces {
    any: false,
    text: TechniqueText::NoText,
    technique: Technique::NoTechnique,
    head: NoteHead::Normal,
};

// The last transition 1 or 3 counts.
fn grace_technique(transition: u8, before: Technique) -> Technique
    ensures { result ≡ technique_by transition before }
{
    match transition {
        1 => Technique::Slide,
        3 => Technique::Hammer,
        _ => before,
    }
}

// Any transition 3 leaves the mark.
fn grace_text(transition: u8, before: TechniqueText) -> TechniqueText
    ensures { result ≡ pick (eqb transition 3) TechniqueText.HammerMark before }
{
    if transition == 3 {
        TechniqueText::HammerMark
    } else {
        before
    }
}

#[tactic(auto, unfolding(crate::specs::Steps::graced_by))]
fn graced_by(grace: Grace, x: Graces) -> Graces
    ensures { result ≡ graced_by grace x }
{
    Graces {
        any: true,
        text: grace_text(grace.transition, x.text),
        technique: grace_technique(grace.transition, x.technique),
        head: head_with(grace.dead, x.head),
    }
}

fn graced_if(grace: Option<Grace>, x: Graces) -> Graces
    ensures { result ≡ graced_if grace x }
{
    let Some(g) = grace else {
        return x;
    };
    graced_by(g, x)
}

#[tactic(auto, unfolding(crate::specs::Chord::chord_in), using(crate::proofs::Walks::next_graces, crate::proofs::Steps::graces_after_lem))]
pub fn graces_of(notes: &Notes, chord: &[u32]) -> Graces
    ensures { (s : List ℕ) (v : ℕ) → result ≡ graces_of (graces (chord_in s v notes.now chord.now)) }
{
    let mut x = NO_GRACES;
    for struck in chord {
        let grace = field::grace(notes, chord::string_of(*struck));
        x = graced_if(grace, x);
    }
    x
}
