// How the small kinds read in a line: a flag is 0 or 1, and what is absent reads "none".
use crate::Shown;
use model::{
    Arpeggio, Articulation, Articulations, Clef, Direction, Duration, Dynamic, EndingPlace, Finger,
    Key, Mode, NoteHead, Ottava, RowKind, Technique, TechniqueText, Tunings, marks,
};
use std::fmt;
use std::fmt::{Display, Formatter, Write};

impl Display for Shown<bool> {
    fn fmt<W: Write>(&self, f: &mut Formatter<W>) -> fmt::Result {
        f.write_str(if self.0 { "1" } else { "0" })
    }
}

// What may be absent.
impl<T: Display + Copy> Display for Shown<Option<T>> {
    fn fmt<W: Write>(&self, f: &mut Formatter<W>) -> fmt::Result {
        match self.0 {
            None => f.write_str("none"),
            Some(x) => write!(f, "{x}"),
        }
    }
}

// ---- bars

impl Display for Shown<Key> {
    fn fmt<W: Write>(&self, f: &mut Formatter<W>) -> fmt::Result {
        match self.0 {
            Key::NoKey => f.write_str("none"),
            Key::Fifths(n, Mode::Major) => write!(f, "{n},major"),
            Key::Fifths(n, Mode::Minor) => write!(f, "{n},minor"),
        }
    }
}

// The passes of an ending that serves several, by their mask.
#[derive(Clone, Copy)]
pub(crate) struct Passes(pub Option<u8>);

// The passes themselves, and not their mask.
impl Display for Passes {
    fn fmt<W: Write>(&self, f: &mut Formatter<W>) -> fmt::Result {
        let Some(mask) = self.0 else {
            return f.write_str("none");
        };
        f.write_joined((1u8..=8).filter(|n| mask >> (*n - 1) & 1 == 1), ",")
    }
}

impl Display for Shown<EndingPlace> {
    fn fmt<W: Write>(&self, f: &mut Formatter<W>) -> fmt::Result {
        f.write_str(match self.0 {
            EndingPlace::NoPlace => "none",
            EndingPlace::Begin => "begin",
            EndingPlace::Mid => "mid",
            EndingPlace::End => "end",
            EndingPlace::BeginEnd => "begin_end",
        })
    }
}

impl Display for Shown<Direction> {
    fn fmt<W: Write>(&self, f: &mut Formatter<W>) -> fmt::Result {
        f.write_str(match self.0 {
            Direction::NoDirection => "none",
            Direction::Coda => "Coda",
            Direction::Segno => "Segno",
            Direction::Fine => "Fine",
            Direction::DaCapo => "DaCapo",
            Direction::DaCapoAlCoda => "DaCapoAlCoda",
            Direction::DaCapoAlFine => "DaCapoAlFine",
            Direction::DalSegno => "DalSegno",
            Direction::DalSegnoAlCoda => "DalSegnoAlCoda",
            Direction::DalSegnoAlFine => "DalSegnoAlFine",
            Direction::ToCoda => "ToCoda",
        })
    }
}

// ---- tracks

// The keys of the strings that the track has.
impl Display for Shown<Tunings> {
    fn fmt<W: Write>(&self, f: &mut Formatter<W>) -> fmt::Result {
        let t = self.0;
        if t.strings == 0 {
            return f.write_str("none");
        }
        let keys = [
            t.first, t.second, t.third, t.fourth, t.fifth, t.sixth, t.seventh,
        ];
        f.write_joined(keys.iter().take(t.strings as usize), ",")
    }
}

impl Display for Shown<Clef> {
    fn fmt<W: Write>(&self, f: &mut Formatter<W>) -> fmt::Result {
        f.write_str(match self.0 {
            Clef::Treble => "treble",
            Clef::Bass => "bass",
            Clef::Percussion => "percussion",
        })
    }
}

// ---- rows

impl Display for Shown<RowKind> {
    fn fmt<W: Write>(&self, f: &mut Formatter<W>) -> fmt::Result {
        f.write_str(match self.0 {
            RowKind::Beat => "beat",
            RowKind::Grace => "grace",
        })
    }
}

impl Display for Shown<Duration> {
    fn fmt<W: Write>(&self, f: &mut Formatter<W>) -> fmt::Result {
        f.write_str(match self.0 {
            Duration::Whole => "whole",
            Duration::Half => "half",
            Duration::Quarter => "quarter",
            Duration::Eighth => "8th",
            Duration::Sixteenth => "16th",
            Duration::ThirtySecond => "32nd",
            Duration::SixtyFourth => "64th",
        })
    }
}

impl Display for Shown<Technique> {
    fn fmt<W: Write>(&self, f: &mut Formatter<W>) -> fmt::Result {
        f.write_str(match self.0 {
            Technique::NoTechnique => "none",
            Technique::Bend => "bend",
            Technique::Hammer => "hammer",
            Technique::PullOff => "pull",
            Technique::Slide => "slide",
        })
    }
}

// No row of a finished table has the hammer mark.
impl Display for Shown<TechniqueText> {
    fn fmt<W: Write>(&self, f: &mut Formatter<W>) -> fmt::Result {
        f.write_str(match self.0 {
            TechniqueText::NoText => "none",
            TechniqueText::HammerMark => "",
            TechniqueText::PalmMute => "palmmute",
            TechniqueText::LetRing => "letring",
        })
    }
}

// From 1, ppp, to 8, fff.
impl Display for Shown<Dynamic> {
    fn fmt<W: Write>(&self, f: &mut Formatter<W>) -> fmt::Result {
        match self.0 {
            Dynamic::NoDynamic => f.write_str("none"),
            dynamic => write!(f, "{}", u32::from(dynamic)),
        }
    }
}

impl Display for Shown<Articulation> {
    fn fmt<W: Write>(&self, f: &mut Formatter<W>) -> fmt::Result {
        f.write_str(match self.0 {
            Articulation::Marcato => "marcato",
            Articulation::Accent => "accent",
            Articulation::Vibrato => "vibrato",
            Articulation::Staccato => "staccato",
            Articulation::Harmonic => "harmonic",
            Articulation::Trill => "trill",
            Articulation::Tremolo1 => "tremolo1",
            Articulation::Tremolo2 => "tremolo2",
            Articulation::Tremolo3 => "tremolo3",
            Articulation::UpBow => "upbow",
            Articulation::DownBow => "downbow",
            Articulation::Tap => "tap",
            Articulation::Falloff => "falloff",
            Articulation::Doit => "doit",
            Articulation::Scoop => "scoop",
            Articulation::Plop => "plop",
        })
    }
}

impl Display for Shown<Articulations> {
    fn fmt<W: Write>(&self, f: &mut Formatter<W>) -> fmt::Result {
        if self.0.count == 0 {
            return f.write_str("none");
        }
        let marks = (0..self.0.count).filter_map(|k| marks::mark_at(self.0, k).map(Shown));
        f.write_joined(marks, ",")
    }
}

impl Display for Shown<Arpeggio> {
    fn fmt<W: Write>(&self, f: &mut Formatter<W>) -> fmt::Result {
        f.write_str(match self.0 {
            Arpeggio::NoArpeggio => "none",
            Arpeggio::Up => "up",
            Arpeggio::Down => "down",
        })
    }
}

impl Display for Shown<NoteHead> {
    fn fmt<W: Write>(&self, f: &mut Formatter<W>) -> fmt::Result {
        f.write_str(match self.0 {
            NoteHead::Normal => "normal",
            NoteHead::Cross => "x",
        })
    }
}

impl Display for Shown<Ottava> {
    fn fmt<W: Write>(&self, f: &mut Formatter<W>) -> fmt::Result {
        f.write_str(match self.0 {
            Ottava::NoOttava => "none",
            Ottava::Va8 => "8va",
            Ottava::Vb8 => "8vb",
            Ottava::Ma15 => "15ma",
            Ottava::Mb15 => "15mb",
        })
    }
}

impl Display for Shown<Finger> {
    fn fmt<W: Write>(&self, f: &mut Formatter<W>) -> fmt::Result {
        f.write_str(match self.0 {
            Finger::NoFinger => "none",
            Finger::Thumb => "0",
            Finger::Index => "1",
            Finger::Middle => "2",
            Finger::Ring => "3",
            Finger::Little => "4",
        })
    }
}
