// The words of the small kinds. None is one of a kind's words, so that one `From` serves each way: an Option would need another beside it.
ghost use Rattle.std.specs.Prelude.{◌≡◌, ◌%◌};
ghost use Rattle.bin.specs.Signed.{signed};
ghost use Rattle.model.specs.Kinds.{ending_place_word, ending_place_of, direction_word, direction_of, clef_word, clef_of, row_kind_word, row_kind_of, duration_word, duration_of, technique_word, technique_of, technique_text_word, technique_text_of, dynamic_word, dynamic_of, articulation_word, articulation_of, arpeggio_word, arpeggio_of, note_head_word, note_head_of, ottava_word, ottava_of, finger_word, finger_of, flag_word, flag_of, mode_word, fifths_word, key_of, ending_word, ending_of, passes_word, passes_of, tempo_word, tempo_of, tempo_from, program_word, program_of, actual_word, normal_word, tuplet_of, string_word, fret_word, position_of, cents_word, cents_of, per_mille_of, peak_word, height_word, height_of, duration_code, units_of};

use crate::{
    Arpeggio, Articulation, Cents, Clef, Direction, Duration, Dynamic, EndingPlace, Finger, Key,
    Mode, NoteHead, Ottava, PerMille, RowKind, TabPosition, Technique, TechniqueText, Tuplet,
};
use bin::signed;

impl From<EndingPlace> for u32 {
    ghost from_gives = { λ x word. word ≡ ending_place_word x };

    fn from(x: EndingPlace) -> u32 {
        x as u32
    }
}

impl From<u32> for EndingPlace {
    ghost from_gives = { λ word x. x ≡ ending_place_of word };

    #[tactic(auto, unfolding(crate::specs::Kinds::ending_place_of))]
    fn from(word: u32) -> EndingPlace {
        match word {
            1 => EndingPlace::Begin,
            2 => EndingPlace::Mid,
            3 => EndingPlace::End,
            4 => EndingPlace::BeginEnd,
            _ => EndingPlace::NoPlace,
        }
    }
}

impl From<Direction> for u32 {
    ghost from_gives = { λ x word. word ≡ direction_word x };

    fn from(x: Direction) -> u32 {
        x as u32
    }
}

impl From<u32> for Direction {
    ghost from_gives = { λ word x. x ≡ direction_of word };

    #[tactic(auto, unfolding(crate::specs::Kinds::direction_of))]
    fn from(word: u32) -> Direction {
        match word {
            1 => Direction::Coda,
            2 => Direction::Segno,
            3 => Direction::Fine,
            4 => Direction::DaCapo,
            5 => Direction::DaCapoAlCoda,
            6 => Direction::DaCapoAlFine,
            7 => Direction::DalSegno,
            8 => Direction::DalSegnoAlCoda,
            9 => Direction::DalSegnoAlFine,
            10 => Direction::ToCoda,
            _ => Direction::NoDirection,
        }
    }
}

impl From<Clef> for u32 {
    ghost from_gives = { λ x word. word ≡ clef_word x };

    fn from(x: Clef) -> u32 {
        x as u32
    }
}

impl From<u32> for Clef {
    ghost from_gives = { λ word x. x ≡ clef_of word };

    #[tactic(auto, unfolding(crate::specs::Kinds::clef_of))]
    fn from(word: u32) -> Clef {
        match word {
            1 => Clef::Bass,
            2 => Clef::Percussion,
            _ => Clef::Treble,
        }
    }
}

impl From<RowKind> for u32 {
    ghost from_gives = { λ x word. word ≡ row_kind_word x };

    fn from(x: RowKind) -> u32 {
        x as u32
    }
}

impl From<u32> for RowKind {
    ghost from_gives = { λ word x. x ≡ row_kind_of word };

    #[tactic(auto, unfolding(crate::specs::Kinds::row_kind_of))]
    fn from(word: u32) -> RowKind {
        match word {
            1 => RowKind::Grace,
            _ => RowKind::Beat,
        }
    }
}

impl From<Duration> for u32 {
    ghost from_gives = { λ x word. word ≡ duration_word x };

    fn from(x: Duration) -> u32 {
        x as u32
    }
}

impl From<u32> for Duration {
    ghost from_gives = { λ word x. x ≡ duration_of word };

    #[tactic(auto, unfolding(crate::specs::Kinds::duration_of))]
    fn from(word: u32) -> Duration {
        match word {
            0 => Duration::Whole,
            1 => Duration::Half,
            2 => Duration::Quarter,
            3 => Duration::Eighth,
            4 => Duration::Sixteenth,
            5 => Duration::ThirtySecond,
            6 => Duration::SixtyFourth,
            _ => Duration::Quarter,
        }
    }
}

impl From<Technique> for u32 {
    ghost from_gives = { λ x word. word ≡ technique_word x };

    fn from(x: Technique) -> u32 {
        x as u32
    }
}

impl From<u32> for Technique {
    ghost from_gives = { λ word x. x ≡ technique_of word };

    #[tactic(auto, unfolding(crate::specs::Kinds::technique_of))]
    fn from(word: u32) -> Technique {
        match word {
            1 => Technique::Bend,
            2 => Technique::Hammer,
            3 => Technique::PullOff,
            4 => Technique::Slide,
            _ => Technique::NoTechnique,
        }
    }
}

impl From<TechniqueText> for u32 {
    ghost from_gives = { λ x word. word ≡ technique_text_word x };

    fn from(x: TechniqueText) -> u32 {
        x as u32
    }
}

impl From<u32> for TechniqueText {
    ghost from_gives = { λ word x. x ≡ technique_text_of word };

    #[tactic(auto, unfolding(crate::specs::Kinds::technique_text_of))]
    fn from(word: u32) -> TechniqueText {
        match word {
            1 => TechniqueText::PalmMute,
            2 => TechniqueText::LetRing,
            3 => TechniqueText::HammerMark,
            _ => TechniqueText::NoText,
        }
    }
}

impl From<Dynamic> for u32 {
    ghost from_gives = { λ x word. word ≡ dynamic_word x };

    fn from(x: Dynamic) -> u32 {
        x as u32
    }
}

impl From<u32> for Dynamic {
    ghost from_gives = { λ word x. x ≡ dynamic_of word };

    #[tactic(auto, unfolding(crate::specs::Kinds::dynamic_of))]
    fn from(word: u32) -> Dynamic {
        match word {
            1 => Dynamic::Ppp,
            2 => Dynamic::Pp,
            3 => Dynamic::Piano,
            4 => Dynamic::Mp,
            5 => Dynamic::Mf,
            6 => Dynamic::Forte,
            7 => Dynamic::Ff,
            8 => Dynamic::Fff,
            _ => Dynamic::NoDynamic,
        }
    }
}

impl From<Articulation> for u32 {
    ghost from_gives = { λ x word. word ≡ articulation_word x };

    fn from(x: Articulation) -> u32 {
        x as u32
    }
}

impl From<u32> for Articulation {
    ghost from_gives = { λ word x. x ≡ articulation_of word };

    #[tactic(auto, unfolding(crate::specs::Kinds::articulation_of))]
    fn from(word: u32) -> Articulation {
        match word {
            0 => Articulation::Marcato,
            1 => Articulation::Accent,
            2 => Articulation::Vibrato,
            3 => Articulation::Staccato,
            4 => Articulation::Harmonic,
            5 => Articulation::Trill,
            6 => Articulation::Tremolo1,
            7 => Articulation::Tremolo2,
            8 => Articulation::Tremolo3,
            9 => Articulation::UpBow,
            10 => Articulation::DownBow,
            11 => Articulation::Tap,
            12 => Articulation::Falloff,
            13 => Articulation::Doit,
            14 => Articulation::Scoop,
            _ => Articulation::Plop,
        }
    }
}

impl From<Arpeggio> for u32 {
    ghost from_gives = { λ x word. word ≡ arpeggio_word x };

    fn from(x: Arpeggio) -> u32 {
        x as u32
    }
}

impl From<u32> for Arpeggio {
    ghost from_gives = { λ word x. x ≡ arpeggio_of word };

    #[tactic(auto, unfolding(crate::specs::Kinds::arpeggio_of))]
    fn from(word: u32) -> Arpeggio {
        match word {
            1 => Arpeggio::Up,
            2 => Arpeggio::Down,
            _ => Arpeggio::NoArpeggio,
        }
    }
}

impl From<NoteHead> for u32 {
    ghost from_gives = { λ x word. word ≡ note_head_word x };

    fn from(x: NoteHead) -> u32 {
        x as u32
    }
}

impl From<u32> for NoteHead {
    ghost from_gives = { λ word x. x ≡ note_head_of word };

    #[tactic(auto, unfolding(crate::specs::Kinds::note_head_of))]
    fn from(word: u32) -> NoteHead {
        match word {
            1 => NoteHead::Cross,
            _ => NoteHead::Normal,
        }
    }
}

impl From<Ottava> for u32 {
    ghost from_gives = { λ x word. word ≡ ottava_word x };

    fn from(x: Ottava) -> u32 {
        x as u32
    }
}

impl From<u32> for Ottava {
    ghost from_gives = { λ word x. x ≡ ottava_of word };

    #[tactic(auto, unfolding(crate::specs::Kinds::ottava_of))]
    fn from(word: u32) -> Ottava {
        match word {
            1 => Ottava::Va8,
            2 => Ottava::Vb8,
            3 => Ottava::Ma15,
            4 => Ottava::Mb15,
            _ => Ottava::NoOttava,
        }
    }
}

impl From<Finger> for u32 {
    ghost from_gives = { λ x word. word ≡ finger_word x };

    fn from(x: Finger) -> u32 {
        x as u32
    }
}

impl From<u32> for Finger {
    ghost from_gives = { λ word x. x ≡ finger_of word };

    #[tactic(auto, unfolding(crate::specs::Kinds::finger_of))]
    fn from(word: u32) -> Finger {
        match word {
            1 => Finger::Thumb,
            2 => Finger::Index,
            3 => Finger::Middle,
            4 => Finger::Ring,
            5 => Finger::Little,
            _ => Finger::NoFinger,
        }
    }
}

// ---- kinds that hold a number

pub fn flag_word(x: bool) -> u32
    ensures { result ≡ flag_word x }
{
    if x { 1 } else { 0 }
}

pub fn flag_of(word: u32) -> bool
    ensures { result ≡ flag_of word }
{
    word != 0
}

pub fn byte_word(x: u8) -> u32
    ensures { result ≡ x }
{
    x as u32
}

pub fn byte_of(word: u32) -> u8
    ensures { result ≡ word % 256 }
{
    (word % 256) as u8
}

pub fn mode_word(x: Key) -> u32
    ensures { result ≡ mode_word x }
{
    match x {
        Key::NoKey => 0,
        Key::Fifths(_, m) => match m {
            Mode::Major => 1,
            Mode::Minor => 2,
        },
    }
}

pub fn fifths_word(x: Key) -> u32
    ensures { result ≡ fifths_word x }
{
    match x {
        Key::NoKey => 0,
        Key::Fifths(n, _) => signed::from_i32(n as i32),
    }
}

pub fn key_of(mode: u32, fifths: u32) -> Key
    ensures { result ≡ key_of mode fifths }
{
    let n = signed::to_i8(byte_of(fifths));
    if mode == 1 {
        return Key::Fifths(n, Mode::Major);
    }
    if mode == 2 {
        return Key::Fifths(n, Mode::Minor);
    }
    Key::NoKey
}

// ---- words of what may be absent: of a field and not of a type, so that they have names and no `From`

pub fn ending_word(x: Option<u8>) -> u32
    ensures { result ≡ ending_word x }
{
    match x {
        None => 0,
        Some(n) => byte_word(n),
    }
}

pub fn ending_of(word: u32) -> Option<u8>
    ensures { result ≡ ending_of word }
{
    if word == 0 {
        return None;
    }
    Some(byte_of(word))
}

pub fn passes_word(x: Option<u8>) -> u32
    ensures { result ≡ passes_word x }
{
    match x {
        None => 0,
        Some(m) => byte_word(m),
    }
}

pub fn passes_of(word: u32) -> Option<u8>
    ensures { result ≡ passes_of word }
{
    if word == 0 {
        return None;
    }
    Some(byte_of(word))
}

pub fn tempo_word(x: Option<u16>) -> u32
    ensures { result ≡ tempo_word x }
{
    match x {
        None => 0,
        Some(n) => n as u32,
    }
}

pub fn tempo_of(word: u32) -> Option<u16>
    ensures { result ≡ tempo_of word }
{
    if word == 0 {
        return None;
    }
    Some((word % 65536) as u16)
}

// The tempo that a number of the file gives: 1 to 999, or none.
pub fn tempo_from(number: u32) -> Option<u16>
    ensures { result ≡ tempo_from number }
{
    if number < 1 {
        return None;
    }
    if number <= 999 {
        return Some(number as u16);
    }
    None
}

pub fn program_word(x: Option<u8>) -> u32
    ensures { result ≡ program_word x }
{
    match x {
        None => 0,
        Some(n) => byte_word(n) + 1,
    }
}

pub fn program_of(word: u32) -> Option<u8>
    ensures { result ≡ program_of word }
{
    if word == 0 {
        return None;
    }
    Some(byte_of(word - 1))
}

pub fn actual_word(x: Option<Tuplet>) -> u32
    ensures { result ≡ actual_word x }
{
    match x {
        None => 0,
        Some(Tuplet { actual: n, .. }) => byte_word(n),
    }
}

pub fn normal_word(x: Option<Tuplet>) -> u32
    ensures { result ≡ normal_word x }
{
    match x {
        None => 0,
        Some(Tuplet { normal: n, .. }) => byte_word(n),
    }
}

pub fn tuplet_of(actual: u32, normal: u32) -> Option<Tuplet>
    ensures { result ≡ tuplet_of actual normal }
{
    if actual == 0 {
        return None;
    }
    Some(Tuplet {
        actual: byte_of(actual),
        normal: byte_of(normal),
    })
}

pub fn string_word(x: Option<TabPosition>) -> u32
    ensures { result ≡ string_word x }
{
    match x {
        None => 0,
        Some(TabPosition { string: n, .. }) => byte_word(n),
    }
}

pub fn fret_word(x: Option<TabPosition>) -> u32
    ensures { result ≡ fret_word x }
{
    match x {
        None => 0,
        Some(TabPosition { fret: n, .. }) => byte_word(n),
    }
}

pub fn position_of(string: u32, fret: u32) -> Option<TabPosition>
    ensures { result ≡ position_of string fret }
{
    if string == 0 {
        return None;
    }
    Some(TabPosition {
        string: byte_of(string),
        fret: byte_of(fret),
    })
}

pub fn per_mille_of(word: u32) -> PerMille
    ensures { result ≡ per_mille_of word }
{
    PerMille((word % 65536) as u16)
}

pub fn cents_word(x: Cents) -> u32
    ensures { result ≡ cents_word x }
{
    signed::from_i32(x.0 as i32)
}

pub fn cents_of(word: u32) -> Cents
    ensures { result ≡ cents_of word }
{
    Cents(signed::to_i16((word % 65536) as u16))
}

pub fn peak_word(x: Option<Cents>) -> u32
    ensures { result ≡ peak_word x }
{
    match x {
        None => 0,
        Some(_) => 1,
    }
}

pub fn height_word(x: Option<Cents>) -> u32
    ensures { result ≡ height_word x }
{
    match x {
        None => 0,
        Some(c) => cents_word(c),
    }
}

pub fn height_of(peak: u32, cents: u32) -> Option<Cents>
    ensures { result ≡ height_of peak cents }
{
    if peak == 0 {
        return None;
    }
    Some(cents_of(cents))
}
