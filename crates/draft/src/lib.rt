// What is made of a beat: which of its notes sound, in the order of their keys, and the rows of a kept beat before they are entered in
// the tables.
#![tactic(auto)]

pub mod chord; // a chord as words
pub mod sounding; // which notes sound, in the order of their keys
pub mod member; // the members of a row
pub mod played; // technique and its text
pub mod marks; // articulations
pub mod voicing; // what the notes of a chord give its row
pub mod graces; // what the graces of a chord give theirs
pub mod rows; // the rows of a beat

use format::Range;
use model::{
    Arpeggio, Articulations, NoteHead, NoteValue, Ottava, RowKind, RowPlace, Technique,
    TechniqueText,
};
use note::bend::Bend;

// A row but for its members, which are made of the chord where they are entered; its bend where the points stand in the file.
#[derive(Clone, Copy)]
pub struct Draft {
    pub place: RowPlace,
    pub kind: RowKind,
    pub rest: bool,
    pub value: NoteValue,
    pub text: TechniqueText,
    pub technique: Technique,
    pub bend: Bend,
    pub dynamic: Option<u8>,
    pub articulations: Articulations,
    pub arpeggio: Arpeggio,
    pub head: NoteHead,
    pub ottava: Ottava,
    pub chord: Range,
    pub beat: Range,
}
