// What a page engine reads: the entries of the six lent tables and the answer of a reading, as values.
// What may be absent is an Option, but for kinds that have a case for none among their words. docs/TABLES.md has the tables word by word.
#![tactic(auto)]

use format::{Counted, Range};

pub mod answers; // the answer of a reading, case by case; losses
mod durations; // codes and lengths of durations
pub mod kinds; // the words of the small kinds
pub mod marks; // articulations in the order added

// ---- bars

#[derive(Clone, Copy, PartialEq, Eq)]
pub struct Time {
    pub numerator: u8,
    pub denominator: u8,
}

#[derive(Clone, Copy, PartialEq, Eq)]
pub enum Mode {
    Major,
    Minor,
}

// Sharps above 0, flats below. No Option: document 01 names the form, a case that holds a mode (docs/DECISIONS.md).
#[derive(Clone, Copy, PartialEq, Eq)]
pub enum Key {
    NoKey,
    Fifths(i8, Mode),
}

// Where a bar stands among neighbours of the same ending number.
#[derive(Clone, Copy, PartialEq, Eq)]
pub enum EndingPlace {
    NoPlace,
    Begin,
    Mid,
    End,
    BeginEnd,
}

#[derive(Clone, Copy, PartialEq, Eq)]
pub enum Direction {
    NoDirection,
    Coda,
    Segno,
    Fine,
    DaCapo,
    DaCapoAlCoda,
    DaCapoAlFine,
    DalSegno,
    DalSegnoAlCoda,
    DalSegnoAlFine,
    ToCoda,
}

// Whether the time or the key is another than before.
#[derive(Clone, Copy, PartialEq, Eq)]
pub struct Changes {
    pub time: bool,
    pub key: bool,
}

// A double bar stands only where no repeat ends.
#[derive(Clone, Copy, PartialEq, Eq)]
pub struct Repeats {
    pub start: bool,
    pub end: bool,
    pub double: bool,
}

#[derive(Clone, Copy, PartialEq, Eq)]
pub struct Bar {
    pub time: Time,
    pub key: Key,
    pub changed: Changes,
    pub repeats: Repeats,
    // its number
    pub ending: Option<u8>,
    // of an ending that serves several passes: bit n of the mask is pass n + 1
    pub passes: Option<u8>,
    pub place: EndingPlace,
    pub marker: Range,
    pub direction: Direction,
    // beats per minute
    pub tempo: Option<u16>,
}

// ---- tracks

// The keys of the open strings in the file's order, each a word of the table (docs/TABLES.md); those past `strings` are 0.
#[derive(Clone, Copy, PartialEq, Eq)]
pub struct Tunings {
    pub strings: u8,
    pub first: u8,
    pub second: u8,
    pub third: u8,
    pub fourth: u8,
    pub fifth: u8,
    pub sixth: u8,
    pub seventh: u8,
}

#[derive(Clone, Copy, PartialEq, Eq)]
pub enum Clef {
    Treble,
    Bass,
    Percussion,
}

#[derive(Clone, Copy, PartialEq, Eq)]
pub struct Track {
    pub name: Range,
    pub tunings: Tunings,
    pub capo: u8,
    pub percussion: bool,
    pub tablature: bool,
    pub clef: Clef,
    pub channel: u8,
    // of General MIDI
    pub program: Option<u8>,
}

// ---- rows

#[derive(Clone, Copy, PartialEq, Eq)]
pub struct RowPlace {
    pub bar: u32,
    pub track: u32,
    pub voice: u32,
}

#[derive(Clone, Copy, PartialEq, Eq)]
pub enum RowKind {
    Beat,
    Grace,
}

#[derive(Clone, Copy, PartialEq, Eq)]
pub enum Duration {
    Whole,
    Half,
    Quarter,
    Eighth,
    Sixteenth,
    ThirtySecond,
    SixtyFourth,
}

// So many notes in the time of so many.
#[derive(Clone, Copy, PartialEq, Eq)]
pub struct Tuplet {
    pub actual: u8,
    pub normal: u8,
}

#[derive(Clone, Copy, PartialEq, Eq)]
pub struct NoteValue {
    pub duration: Duration,
    pub dot: bool,
    pub tuplet: Option<Tuplet>,
}

// Entries of another table that belong to a row. No Option: where it has none the table has 0 of them at place 0 (docs/TABLES.md).
#[derive(Clone, Copy, PartialEq, Eq)]
pub struct Span {
    pub first: u32,
    pub count: u32,
}

#[derive(Clone, Copy, PartialEq, Eq)]
pub enum Technique {
    NoTechnique,
    Bend,
    Hammer,
    PullOff,
    Slide,
}

// The hammer mark stands only until hammers are resolved to pull-offs: no row of a finished table has it.
#[derive(Clone, Copy, PartialEq, Eq)]
pub enum TechniqueText {
    NoText,
    PalmMute,
    LetRing,
    HammerMark,
}

#[derive(Clone, Copy, PartialEq, Eq)]
pub struct Playing {
    pub text: TechniqueText,
    pub technique: Technique,
    pub curve: Span,
    pub height: Option<Cents>,
}

#[derive(Clone, Copy, PartialEq, Eq)]
pub enum Dynamic {
    NoDynamic,
    Ppp,
    Pp,
    Piano,
    Mp,
    Mf,
    Forte,
    Ff,
    Fff,
}

#[derive(Clone, Copy, PartialEq, Eq)]
pub enum Articulation {
    Marcato,
    Accent,
    Vibrato,
    Staccato,
    Harmonic,
    Trill,
    Tremolo1,
    Tremolo2,
    Tremolo3,
    UpBow,
    DownBow,
    Tap,
    Falloff,
    Doit,
    Scoop,
    Plop,
}

// Articulations in the order added, none twice, as the table has them (docs/TABLES.md): a hexadecimal number of `count` digits, a digit
// for each, read from the left.
#[derive(Clone, Copy, PartialEq, Eq)]
pub struct Articulations {
    pub count: u8,
    pub digits: u64,
}

#[derive(Clone, Copy, PartialEq, Eq)]
pub enum Arpeggio {
    NoArpeggio,
    Up,
    Down,
}

#[derive(Clone, Copy, PartialEq, Eq)]
pub enum NoteHead {
    Normal,
    Cross,
}

#[derive(Clone, Copy, PartialEq, Eq)]
pub struct Expression {
    pub dynamic: Dynamic,
    pub articulations: Articulations,
    pub arpeggio: Arpeggio,
    pub head: NoteHead,
}

#[derive(Clone, Copy, PartialEq, Eq)]
pub enum Ottava {
    NoOttava,
    Va8,
    Vb8,
    Ma15,
    Mb15,
}

// What starts at a row, and whether one ends there.
#[derive(Clone, Copy, PartialEq, Eq)]
pub struct OttavaMarks {
    pub start: Ottava,
    pub end: bool,
}

#[derive(Clone, Copy, PartialEq, Eq)]
pub enum Finger {
    NoFinger,
    Thumb,
    Index,
    Middle,
    Ring,
    Little,
}

#[derive(Clone, Copy, PartialEq, Eq)]
pub struct Row {
    pub place: RowPlace,
    pub kind: RowKind,
    pub rest: bool,
    pub value: NoteValue,
    pub members: Span,
    pub playing: Playing,
    pub expression: Expression,
    pub ottava: OttavaMarks,
    pub chord: Range,
    // the plain finger of a row's only member
    pub finger: Finger,
    // the bytes of its beat in the file; a grace row has those of the beat that it stands before
    pub beat: Range,
}

// ---- members, curve points, texts

// String 1 is the lowest.
#[derive(Clone, Copy, PartialEq, Eq)]
pub struct TabPosition {
    pub string: u8,
    pub fret: u8,
}

#[derive(Clone, Copy, PartialEq, Eq)]
pub struct Ties {
    pub end: bool,
    pub start: bool,
}

#[derive(Clone, Copy, PartialEq, Eq)]
pub struct Member {
    pub key: u8,
    pub flat: bool,
    pub position: Option<TabPosition>,
    pub ghosted: bool,
    pub ties: Ties,
    pub finger: Finger,
}

// A place on a bend curve, 0 to 1,000.
#[derive(Clone, Copy, PartialEq, Eq)]
pub struct PerMille(pub u16);

// A height above or below the fretted pitch.
#[derive(Clone, Copy, PartialEq, Eq)]
pub struct Cents(pub i16);

#[derive(Clone, Copy, PartialEq, Eq)]
pub struct Point {
    pub position: PerMille,
    pub height: Cents,
}

#[derive(Clone, Copy, PartialEq, Eq)]
pub struct Text {
    pub bar: u32,
    pub track: u32,
    pub range: Range,
}

// ---- the answer of a reading: no Result, since the equation `reading` and the words that C gets say the outcome beside the values

#[derive(Clone, Copy, PartialEq, Eq)]
pub enum Outcome {
    Read,
    Truncated,
    Version,
    // which count, its value, and the offset of its four bytes in the file
    Count(Counted, i32, usize),
    Empty,
    TooLong,
    NoRoom,
}

// Numbers of entries of the six tables.
#[derive(Clone, Copy, Default, PartialEq, Eq)]
pub struct Sizes {
    pub bars: u32,
    pub tracks: u32,
    pub rows: u32,
    pub members: u32,
    pub points: u32,
    pub texts: u32,
}

#[derive(Clone, Copy, Default, PartialEq, Eq)]
pub struct LyricLine {
    pub start: u32,
    pub text: Range,
}

#[derive(Clone, Copy, Default, PartialEq, Eq)]
pub struct Lyrics {
    pub track: Option<u32>,
    pub lines: [LyricLine; 5],
}

// `used` is the number of bytes that the reading used.
#[derive(Clone, Copy, Default, PartialEq, Eq)]
pub struct Song {
    pub used: usize,
    pub version: u32,
    pub title: Range,
    pub subtitle: Range,
    pub composer: Range,
    pub lyricist: Range,
    pub copyright: Range,
    pub lyrics: Lyrics,
    pub tempo: Option<u16>,
}

// What a reading reports and does not keep. A loss's code in the Rust is "gp." and the name of its count here, with dashes:
// `drum_kit` counts the reports of "gp.drum-kit". The counts stand in byte order of the codes.
#[derive(Clone, Copy, PartialEq, Eq)]
pub enum Loss {
    DrumKit,
    HarmonicType,
    LetRingWithPalmMute,
    OnBeatGrace,
    RepeatCount,
    TripletFeel,
    UnsupportedChordDiagram,
    UnsupportedDirection,
    UnsupportedFingering,
    UnsupportedMixChange,
    UnsupportedRasgueado,
    UnsupportedRightHandFingering,
    UnsupportedSlideType,
    UnsupportedTapping,
    UnsupportedVolumeSwell,
    UnsupportedWah,
    UnsupportedWhammy,
}

#[derive(Clone, Copy, Default, PartialEq, Eq)]
pub struct Losses {
    pub drum_kit: u32,
    pub harmonic_type: u32,
    pub let_ring_with_palm_mute: u32,
    pub on_beat_grace: u32,
    pub repeat_count: u32,
    pub triplet_feel: u32,
    pub unsupported_chord_diagram: u32,
    pub unsupported_direction: u32,
    pub unsupported_fingering: u32,
    pub unsupported_mix_change: u32,
    pub unsupported_rasgueado: u32,
    pub unsupported_right_hand_fingering: u32,
    pub unsupported_slide_type: u32,
    pub unsupported_tapping: u32,
    pub unsupported_volume_swell: u32,
    pub unsupported_wah: u32,
    pub unsupported_whammy: u32,
}

// `counts` are the entries kept, `rooms` those that the tables need room for.
#[derive(Clone, Copy, PartialEq, Eq)]
pub struct Answer {
    pub outcome: Outcome,
    pub song: Song,
    pub counts: Sizes,
    pub rooms: Sizes,
    pub losses: Losses,
}
