// The members of a row: entered after the ties that they end are started on the members of the row before.
ghost use Rattle.std.specs.Prelude.{◌≡◌, Bool, List, [], ◌∷◌, map, ℕ, ◌+◌, ◌≤◌, length};
ghost use Rattle.format.specs.Text.{pick};
ghost use Rattle.tables.specs.Table.{stores};
ghost use Rattle.entries.specs.Words.{member_stride, member_words};
ghost use Rattle.score.specs.declared.Fretboard.{Fretboard};
ghost use Rattle.score.specs.Members.{member_of, graces, grace_member};
ghost use Rattle.score.specs.Page.{unfingered, fingered, plain_finger, first_key, start_ties};
ghost use Rattle.draft.specs.Chord.{keyed_in, chord_in};
ghost use Rattle.words.specs.Words.{answers_word, start_words, words};
ghost use Rattle.into_rows.specs.Entry.{Sums};

use draft::{chord, member};
use entries::Entry;
use entries::members::{MEMBER_WORDS, set_tie_start};
use model::{Finger, Member, Span, kinds};
use note::field;
use note::places::Notes;
use score::Fretboard;

// What a row holds of its members: how many, the key of the first, 0 where there is none, and the finger of an only one. No Option: the
// count says that there is none.
#[derive(Clone, Copy)]
pub struct Company {
    pub count: u32,
    pub key: u8,
    pub finger: Finger,
}

// ---- ties

// Whether a tied member answers one of so much: on tablature by its string, off it by its key.
fn answers(tied: Member, key: u32, string: u32) -> bool
    ensures { result ≡ answers_word tied key string }
{
    let own = kinds::string_word(tied.position);
    if own == 0 {
        u32::from(tied.key) == key
    } else {
        own == string
    }
}

// A tie starts at the first of the last beat's members that a tied one answers.
#[tactic(auto, using(crate::proofs::Entering::start_here, crate::proofs::Entering::start_later))]
fn start_tie(members: &mut [u32], last: Span, tied: Member)
    ensures { members.new ≡ start_words last.first last.count tied members.old }
{
    let first = last.first as usize;
    for i in first..first + last.count as usize {
        let key = tables::load_field(members, i, MEMBER_WORDS, 0);
        let string = tables::load_field(members, i, MEMBER_WORDS, 2);
        if answers(tied, key, string) {
            set_tie_start(members, i, true);
            return;
        }
    }
}

#[tactic(auto, using(crate::proofs::Gathering::tied_starts, crate::proofs::Gathering::untied_stays))]
fn start_if_tied(
    members: &mut [u32],
    last: Span,
    board: Fretboard,
    flat: bool,
    notes: &Notes,
    struck: u32,
)
    ensures { (s : List ℕ) (v : ℕ) → members.new
        ≡ start_ties (words []) last (member_of board flat (keyed_in s v notes.now struck) ∷ []) members.old }
{
    if field::tied(notes, chord::string_of(struck)) {
        start_tie(members, last, member::member_of(board, flat, notes, struck));
    }
}

// The fretboard, the notes and the chord stand apart here: a struct of them would be made for two calls, and taken apart at once.
#[tactic(auto, unfolding(draft::specs::Chord::chord_in), using(crate::proofs::Gathering::next_ties))]
pub(crate) fn start_ties(
    members: &mut [u32],
    last: Span,
    board: Fretboard,
    flat: bool,
    notes: &Notes,
    chord: &[u32],
)
    ensures { (s : List ℕ) (v : ℕ) → members.new
        ≡ start_ties (words []) last (map (member_of board flat) (chord_in s v notes.now chord.now)) members.old }
{
    for struck in chord {
        start_if_tied(members, last, board, flat, notes, *struck);
    }
}

// ---- members

// The finger of an only member is the row's (docs/RULES.md 1).
fn unfingered_if(only: bool, member: Member) -> Member
    ensures { result ≡ pick only (unfingered member) member }
{
    if only {
        Member {
            finger: Finger::NoFinger,
            ..member
        }
    } else {
        member
    }
}

// From member number `first` on, as far as the table goes.
#[tactic(auto, using(crate::proofs::Gathering::next_member))]
pub(crate) fn add_members(
    members: &mut [u32],
    first: u32,
    board: Fretboard,
    flat: bool,
    notes: &Notes,
    chord: &[u32],
)
    requires { length chord.now ≤ 7 }
    ensures { (s : List ℕ) (v : ℕ) → members.new
        ≡ stores member_words member_stride members.old first
        (fingered (map (member_of board flat) (chord_in s v notes.now chord.now))) }
{
    let only = chord.len() == 1;
    let start = first as usize;
    for (i, struck) in chord.iter().enumerate() {
        let member = member::member_of(board, flat, notes, *struck);
        unfingered_if(only, member).store(members, start + i);
    }
}

#[tactic(auto, using(crate::proofs::Gathering::only_finger, crate::proofs::Gathering::no_finger))]
fn plain_finger(notes: &Notes, chord: &[u32]) -> Finger
    ensures { (s : List ℕ) (v : ℕ) (board : Fretboard) (flat : Bool) →
        plain_finger (map (member_of board flat) (chord_in s v notes.now chord.now)) ≡ result }
{
    let [struck] = chord else {
        return Finger::NoFinger;
    };
    member::finger_of(field::left_hand(notes, chord::string_of(*struck)))
}

#[tactic(auto, using(crate::proofs::Gathering::no_key, crate::proofs::Gathering::the_key))]
fn first_key(chord: &[u32]) -> u8
    ensures { (s : List ℕ) (v : ℕ) (w : List ℕ) (board : Fretboard) (flat : Bool) →
        first_key (map (member_of board flat) (chord_in s v w chord.now)) ≡ result }
{
    match chord.first() {
        Some(struck) => chord::key_of(*struck),
        None => 0,
    }
}

#[tactic(auto, using(crate::proofs::Gathering::as_many))]
pub(crate) fn company_of(notes: &Notes, chord: &[u32]) -> Company
    requires { length chord.now ≤ 7 }
    ensures { (s : List ℕ) (v : ℕ) (board : Fretboard) (flat : Bool) →
        Sums (map (member_of board flat) (chord_in s v notes.now chord.now)) result }
{
    Company {
        count: chord.len() as u32,
        key: first_key(chord),
        finger: plain_finger(notes, chord),
    }
}

// ---- graces: grace members stand as their notes. Apart from members, since graces are counted as they are added and have no finger

// The grace of a struck note as member number `n`, if it has one; the number after it.
#[tactic(auto, using(crate::proofs::Gracing::no_grace_lem, crate::proofs::Gracing::the_grace, crate::proofs::Gracing::grace_stored))]
fn add_grace(
    members: &mut [u32],
    n: usize,
    board: Fretboard,
    flat: bool,
    notes: &Notes,
    struck: u32,
) -> usize
    requires { n ≤ 4294967302 }
    ensures next { result ≤ n + 1 }
    ensures number { (s : List ℕ) (v : ℕ) → result ≡ n + length (graces (keyed_in s v notes.now struck ∷ [])) }
    ensures stored { (s : List ℕ) (v : ℕ) → members.new
        ≡ stores member_words member_stride members.old n
        (map (grace_member board flat) (graces (keyed_in s v notes.now struck ∷ []))) }
{
    let Some(grace) = field::grace(notes, chord::string_of(struck)) else {
        return n;
    };
    member::grace_member(board, flat, notes, struck, grace).store(members, n);
    n + 1
}

// A grace has no finger, so that an only one keeps all that it has.
#[tactic(auto, unfolding(draft::specs::Chord::chord_in))]
pub(crate) fn add_graces(
    members: &mut [u32],
    first: u32,
    board: Fretboard,
    flat: bool,
    notes: &Notes,
    chord: &[u32],
) -> u32
    requires { length chord.now ≤ 7 }
    ensures number { (s : List ℕ) (v : ℕ) → result ≡ length (graces (chord_in s v notes.now chord.now)) }
    ensures stored { (s : List ℕ) (v : ℕ) → members.new
        ≡ stores member_words member_stride members.old first
        (fingered (map (grace_member board flat) (graces (chord_in s v notes.now chord.now)))) }
{
    let start = first as usize;
    let mut n = start;
    for struck in chord {
        n = add_grace(members, n, board, flat, notes, *struck);
    }
    (n - start) as u32
}

#[tactic(auto, unfolding(draft::specs::Chord::chord_in), using(crate::proofs::Gracing::none_here, crate::proofs::Gracing::first_grace))]
fn first_grace_key(notes: &Notes, chord: &[u32]) -> u8
    ensures { (s : List ℕ) (v : ℕ) (board : Fretboard) (flat : Bool) →
        first_key (map (grace_member board flat) (graces (chord_in s v notes.now chord.now))) ≡ result }
{
    for struck in chord {
        let string = chord::string_of(*struck);
        if let Some(grace) = field::grace(notes, string) {
            return curve::key::grace_key(
                chord::key_of(*struck),
                field::fret(notes, string),
                grace.fret,
            );
        }
    }
    0
}

// `count` is how many graces there are.
#[tactic(auto, using(crate::proofs::Gracing::as_many_graces, crate::proofs::Gracing::no_plain))]
pub(crate) fn grace_company(notes: &Notes, chord: &[u32], count: u32) -> Company
    ensures { (s : List ℕ) (v : ℕ) (board : Fretboard) (flat : Bool) →
        count ≡ length (graces (chord_in s v notes.now chord.now)) →
        Sums (map (grace_member board flat) (graces (chord_in s v notes.now chord.now))) result }
{
    Company {
        count,
        key: first_grace_key(notes, chord),
        finger: Finger::NoFinger,
    }
}
