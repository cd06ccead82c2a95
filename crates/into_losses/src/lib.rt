// Losses: each report adds one. Those of reading a beat count whether it is kept or not, those of building its row
// only where it is.
#![tactic(auto)]

ghost use Rattle.std.specs.Prelude.{◌≡◌, true, List, ◌++◌, ℕ, replicate};
ghost use Rattle.model.specs.declared.Loss.TheVariants.{TripletFeel, UnsupportedDirection};
ghost use Rattle.format.specs.Text.{pick};
ghost use Rattle.note.specs.Words.{read_in, notes_in};
ghost use Rattle.beat.specs.Words.{effects_in, mix_in, beat_in};
ghost use Rattle.beat.specs.Words as meaning;
ghost use Rattle.note.specs.Words.{byte_in};
ghost use Rattle.score.specs.Members.{graces};
ghost use Rattle.score.specs.Bars.{unsupported, other_signs};
ghost use Rattle.score.specs.Losses as rule;
ghost use Rattle.score.specs.Page as page;
ghost use Rattle.draft.specs.Chord.{chord_in};
ghost use Rattle.words.specs.Words.{words, word_plus};
ghost use Rattle.words.specs.Reports.{reports};
ghost use Rattle.into_losses.specs.Notes.{Lossless};
ghost use Rattle.into_losses.specs.Graces.{on_beat};

use beat::places::Beat;
use draft::chord;
use model::{Loss, answers};
use note::marks::Grace;
use note::notes::Strings;
use note::places::Notes;
use note::{LeftHand, field};
use words::report_if;

pub mod rooms; // the rooms that a beat needs

pub type Losses = [u32; 17];

// ---- of the song

// The signs that are no direction of the page, by their places among the numbers.
const OTHER_SIGNS: [usize; 9] = [1, 3, 7, 11, 13, 14, 15, 16, 18];

// Any of them above 0 is a loss.
fn sign_losses(losses: [u32; 17], directions: [u16; 19]) -> [u32; 17]
    ensures { result ≡ reports (rule.reported (unsupported directions other_signs) UnsupportedDirection) losses }
{
    let mut losses = losses;
    for n in OTHER_SIGNS {
        lose_if(&mut losses, 0 < directions[n], Loss::UnsupportedDirection);
    }
    losses
}

pub fn song_losses(swing: bool, directions: [u16; 19]) -> [u32; 17]
    ensures { result
        ≡ reports
        (rule.report_if swing TripletFeel ++ rule.reported (unsupported directions other_signs)
        UnsupportedDirection)
        (replicate 17 0) }
{
    sign_losses(report_if([0u32; 17], swing, Loss::TripletFeel), directions)
}

// ---- of reading a beat

fn counted_if(count: u32, lost: bool) -> u32
    ensures { result ≡ pick lost (word_plus count 1) count }
{
    if lost { words::plus(count, 1) } else { count }
}

// The word is stored whether there is a loss or not: a branch that is taken by chance costs more than a store.
fn lose_if(losses: &mut Losses, lost: bool, loss: Loss)
    ensures { losses.new ≡ reports (rule.report_if lost loss) losses.old }
{
    let n = answers::loss_number(loss);
    losses[n] = counted_if(losses[n], lost);
}

fn effect_losses(losses: &mut Losses, b: &Beat, v: u32)
    ensures { losses.new ≡ reports (rule.effect_losses (effects_in v b.now)) losses.old }
{
    lose_if(
        losses,
        beat::field::swell_lost(b),
        Loss::UnsupportedVolumeSwell,
    );
    lose_if(
        losses,
        beat::field::rasgueado_lost(b),
        Loss::UnsupportedRasgueado,
    );
    lose_if(
        losses,
        beat::field::tapping_lost(b),
        Loss::UnsupportedTapping,
    );
    lose_if(
        losses,
        beat::field::whammy_lost(b, v),
        Loss::UnsupportedWhammy,
    );
}

fn mix_losses(losses: &mut Losses, b: &Beat)
    ensures { losses.new
        ≡ reports (rule.mix_losses (mix_in (byte_in b.now meaning.FLAGS) b.now))
        losses.old }
{
    lose_if(losses, beat::field::wah_lost(b), Loss::UnsupportedWah);
    lose_if(
        losses,
        beat::field::change_lost(b),
        Loss::UnsupportedMixChange,
    );
}

// Most notes have neither effects nor fingers, and lose nothing.
fn lossless(notes: &Notes, string: usize) -> bool
    ensures { (v : ℕ) → result ≡ true → Lossless (read_in v notes.now string) }
{
    !(field::effects(notes, string) | field::fingered(notes, string))
}

fn note_losses(losses: &mut Losses, notes: &Notes, string: usize, v: u32)
    ensures { losses.new ≡ reports (rule.note_losses (read_in v notes.now string)) losses.old }
{
    if lossless(notes, string) {
        return;
    }
    let slide = field::slide(notes, string, v);
    lose_if(
        losses,
        field::right_hand_lost(notes, string),
        Loss::UnsupportedRightHandFingering,
    );
    lose_if(losses, slide.lost, Loss::UnsupportedSlideType);
    lose_if(
        losses,
        field::harmonic_lost(notes, string),
        Loss::HarmonicType,
    );
}

// Of every note that is read, also on a string that the track does not have.
fn notes_losses(losses: &mut Losses, strings: u8, notes: &Notes, v: u32)
    ensures { (s : List ℕ) → losses.new
        ≡ reports (rule.notes_losses strings 0 (notes_in s v strings notes.now)) losses.old }
{
    for string in Strings::of(strings as u32) {
        note_losses(losses, notes, string, v);
    }
}

fn reading_losses(losses: &mut Losses, b: &Beat, notes: &Notes, v: u32)
    ensures { (s : List ℕ) → losses.new
        ≡ reports (rule.reading_losses (beat_in s v b.now notes.now)) losses.old }
{
    lose_if(
        losses,
        beat::field::flags(b) & 0x02 != 0,
        Loss::UnsupportedChordDiagram,
    );
    effect_losses(losses, b, v);
    mix_losses(losses, b);
    notes_losses(losses, beat::field::strings(b), notes, v);
}

// ---- of building its row: of each note and of each grace in two functions, whose bodies have no line in common

fn is_beyond(hand: LeftHand) -> bool
    ensures { result ≡ rule.is_beyond hand }
{
    hand == LeftHand::Beyond
}

fn on_beat(grace: Option<Grace>) -> bool
    ensures { result ≡ on_beat grace }
{
    match grace {
        None => false,
        Some(g) => g.on_beat,
    }
}

#[tactic(auto, using(words::proofs::Reports::reports_none, words::proofs::Reports::reports_append))]
fn built_losses(losses: &mut Losses, notes: &Notes, string: usize)
    ensures { (v : ℕ)
        → losses.new
        ≡ reports (rule.built_losses (read_in v notes.now string)) losses.old }
{
    if lossless(notes, string) {
        return;
    }
    let rung = field::palm_mute(notes, string) & field::let_ring(notes, string);
    lose_if(losses, rung, Loss::LetRingWithPalmMute);
    let beyond = is_beyond(field::left_hand(notes, string));
    lose_if(losses, beyond, Loss::UnsupportedFingering);
}

#[tactic(auto, unfolding(draft::specs::Chord::chord_in), using(crate::proofs::Counting::members_next, crate::proofs::Counting::members_end))]
fn member_losses(losses: &mut Losses, notes: &Notes, chord: &[u32])
    ensures { (s : List ℕ) (v : ℕ) → losses.new
        ≡ reports (rule.member_losses (chord_in s v notes.now chord.now)) losses.old }
{
    for struck in chord {
        built_losses(losses, notes, chord::string_of(*struck));
    }
}

#[tactic(auto, unfolding(draft::specs::Chord::chord_in), using(crate::proofs::Counting::graces_next, crate::proofs::Counting::graces_end))]
fn grace_losses(losses: &mut Losses, notes: &Notes, chord: &[u32])
    ensures { (s : List ℕ) (v : ℕ) → losses.new
        ≡ reports (rule.grace_losses (graces (chord_in s v notes.now chord.now))) losses.old }
{
    for struck in chord {
        let grace = field::grace(notes, chord::string_of(*struck));
        lose_if(losses, on_beat(grace), Loss::OnBeatGrace);
    }
}

fn building_losses(losses: &mut Losses, b: &Beat, notes: &Notes, chord: &[u32], v: u32)
    ensures { (s : List ℕ) → losses.new
        ≡ reports (rule.building_losses (beat_in s v b.now notes.now)
        (chord_in s v notes.now chord.now)) losses.old }
{
    member_losses(losses, notes, chord);
    grace_losses(losses, notes, chord);
    lose_if(
        losses,
        !chord.is_empty() & beat::field::artificial_harmonic(b, v),
        Loss::HarmonicType,
    );
}

pub fn beat_losses(losses: &mut Losses, b: &Beat, notes: &Notes, chord: &[u32], v: u32)
    ensures { (s : List ℕ) → losses.new
        ≡ page.report (words s) (page.beat_losses (words s) (beat_in s v b.now notes.now)
        (chord_in s v notes.now chord.now)) losses.old }
{
    reading_losses(losses, b, notes, v);
    if beat::field::kept(b) {
        building_losses(losses, b, notes, chord, v);
    }
}
