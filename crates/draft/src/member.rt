// The members of a row: of the notes of a chord, and of the graces before them. Two functions, since no field but the string is made alike.
ghost use Rattle.std.specs.Prelude.{◌≡◌, List, ℕ, ◌-◌};
ghost use Rattle.score.specs.Members.{position_of, turned, finger_of, member_of, grace_member};
ghost use Rattle.draft.specs.Chord.{keyed_in};

use crate::chord;
use model::{Finger, Member, TabPosition, Ties};
use note::marks::Grace;
use note::places::Notes;
use note::{LeftHand, field};
use score::Fretboard;

// docs/RULES.md 17: 1 is the lowest string.
fn string_number(count: u8, string: usize) -> u8
    ensures { result ≡ count - string }
{
    (count as usize).saturating_sub(string) as u8
}

fn position_of(board: Fretboard, string: usize, fret: u8) -> Option<TabPosition>
    ensures { result ≡ position_of board string fret }
{
    if board.tablature {
        Some(TabPosition {
            string: string_number(board.strings.count, string),
            fret,
        })
    } else {
        None
    }
}

// The file's numbers, which are not the words of the kind: no `From`.
fn numbered_finger(n: u8) -> Finger
    ensures { result ≡ finger_of (LeftHand.Finger n) }
{
    match n {
        0 => Finger::Thumb,
        1 => Finger::Index,
        2 => Finger::Middle,
        3 => Finger::Ring,
        4 => Finger::Little,
        _ => Finger::NoFinger,
    }
}

pub fn finger_of(hand: LeftHand) -> Finger
    ensures { result ≡ finger_of hand }
{
    match hand {
        LeftHand::Finger(n) => numbered_finger(n),
        LeftHand::NoFinger | LeftHand::Beyond => Finger::NoFinger,
    }
}

// docs/RULES.md 16: the note turns the flat preference of the key round.
fn flat_of(flat: bool, swap: bool) -> bool
    ensures { result ≡ turned flat swap }
{
    flat != swap
}

#[tactic(auto, unfolding(score::specs::Members::member_of))]
pub fn member_of(board: Fretboard, flat: bool, notes: &Notes, struck: u32) -> Member
    ensures { (s : List ℕ) (v : ℕ) → result ≡ member_of board flat (keyed_in s v notes.now struck) }
{
    let string = chord::string_of(struck);
    Member {
        key: chord::key_of(struck),
        flat: flat_of(flat, field::swap_accidental(notes, string)),
        position: position_of(board, string, chord::fret_of(struck)),
        ghosted: field::ghosted(notes, string),
        ties: Ties {
            end: field::tied(notes, string),
            start: false,
        },
        finger: finger_of(field::left_hand(notes, string)),
    }
}

// A grace's offset is taken from the fret read, not the one remembered.
#[tactic(auto, unfolding(score::specs::Members::grace_member))]
pub fn grace_member(
    board: Fretboard,
    flat: bool,
    notes: &Notes,
    struck: u32,
    grace: Grace,
) -> Member
    ensures { (s : List ℕ) (v : ℕ) → result
        ≡ grace_member board flat (record { grace = grace; note = keyed_in s v notes.now struck }) }
{
    let string = chord::string_of(struck);
    Member {
        key: curve::key::grace_key(
            chord::key_of(struck),
            field::fret(notes, string),
            grace.fret,
        ),
        flat,
        position: position_of(board, string, grace.fret),
        ghosted: false,
        ties: Ties {
            end: false,
            start: false,
        },
        finger: Finger::NoFinger,
    }
}
