// The entries and the parts of an answer as lines of the dump have them, without the name of the line.
use crate::Shown;
use crate::kinds::Passes;
use format::Range;
use model::{
    Bar, Expression, LyricLine, Member, NoteValue, OttavaMarks, Outcome, Playing, Point, Row,
    RowPlace, Sizes, Song, Span, TabPosition, Text, Track, Tuplet, answers,
};
use std::fmt;
use std::fmt::{Display, Formatter, Write};

impl Display for Shown<Range> {
    fn fmt<W: Write>(&self, f: &mut Formatter<W>) -> fmt::Result {
        write!(f, "{},{}", self.0.start, self.0.end)
    }
}

impl Display for Shown<Span> {
    fn fmt<W: Write>(&self, f: &mut Formatter<W>) -> fmt::Result {
        write!(f, "{},{}", self.0.first, self.0.count)
    }
}

// ---- the answer

impl Display for Shown<Outcome> {
    fn fmt<W: Write>(&self, f: &mut Formatter<W>) -> fmt::Result {
        let number = answers::outcome_number(self.0);
        let which = answers::outcome_which(self.0);
        let value = answers::outcome_value(self.0);
        let offset = answers::outcome_offset(self.0);
        write!(f, "{number} which={which} value={value} offset={offset}")
    }
}

impl Display for Shown<Sizes> {
    fn fmt<W: Write>(&self, f: &mut Formatter<W>) -> fmt::Result {
        write!(
            f,
            "bars={} tracks={} rows={} members={} points={} texts={}",
            self.0.bars, self.0.tracks, self.0.rows, self.0.members, self.0.points, self.0.texts
        )
    }
}

impl Display for Shown<Song> {
    fn fmt<W: Write>(&self, f: &mut Formatter<W>) -> fmt::Result {
        let x = self.0;
        write!(
            f,
            "used={} version={} title={}",
            x.used,
            x.version,
            Shown(x.title)
        )?;
        write!(
            f,
            " subtitle={} composer={}",
            Shown(x.subtitle),
            Shown(x.composer)
        )?;
        write!(
            f,
            " lyricist={} copyright={}",
            Shown(x.lyricist),
            Shown(x.copyright)
        )?;
        write!(
            f,
            " lyrictrack={} tempo={}",
            Shown(x.lyrics.track),
            Shown(x.tempo)
        )
    }
}

impl Display for Shown<LyricLine> {
    fn fmt<W: Write>(&self, f: &mut Formatter<W>) -> fmt::Result {
        write!(f, "start={} text={}", self.0.start, Shown(self.0.text))
    }
}

// ---- bars, tracks

impl Display for Shown<Bar> {
    fn fmt<W: Write>(&self, f: &mut Formatter<W>) -> fmt::Result {
        let x = self.0;
        write!(f, "time={}/{}", x.time.numerator, x.time.denominator)?;
        write!(
            f,
            " timechanged={} key={}",
            Shown(x.changed.time),
            Shown(x.key)
        )?;
        write!(
            f,
            " keychanged={} repeatstart={}",
            Shown(x.changed.key),
            Shown(x.repeats.start)
        )?;
        write!(
            f,
            " repeatend={} double={}",
            Shown(x.repeats.end),
            Shown(x.repeats.double)
        )?;
        write!(f, " ending={} passes={}", Shown(x.ending), Passes(x.passes))?;
        write!(f, " place={} marker={}", Shown(x.place), Shown(x.marker))?;
        write!(
            f,
            " direction={} tempo={}",
            Shown(x.direction),
            Shown(x.tempo)
        )
    }
}

impl Display for Shown<Track> {
    fn fmt<W: Write>(&self, f: &mut Formatter<W>) -> fmt::Result {
        let x = self.0;
        write!(
            f,
            "name={} tunings={} capo={}",
            Shown(x.name),
            Shown(x.tunings),
            x.capo
        )?;
        write!(
            f,
            " percussion={} tablature={}",
            Shown(x.percussion),
            Shown(x.tablature)
        )?;
        write!(
            f,
            " clef={} channel={} program={}",
            Shown(x.clef),
            x.channel,
            Shown(x.program)
        )
    }
}

// ---- rows

impl Display for Shown<RowPlace> {
    fn fmt<W: Write>(&self, f: &mut Formatter<W>) -> fmt::Result {
        write!(
            f,
            "bar={} track={} voice={}",
            self.0.bar, self.0.track, self.0.voice
        )
    }
}

impl Display for Shown<NoteValue> {
    fn fmt<W: Write>(&self, f: &mut Formatter<W>) -> fmt::Result {
        let duration = Shown(self.0.duration);
        let dot = Shown(self.0.dot);
        match self.0.tuplet {
            None => write!(f, "duration={duration} dot={dot} tuplet=none"),
            Some(Tuplet { actual, normal }) => {
                write!(f, "duration={duration} dot={dot} tuplet={actual}:{normal}")
            }
        }
    }
}

impl Display for Shown<Playing> {
    fn fmt<W: Write>(&self, f: &mut Formatter<W>) -> fmt::Result {
        let x = self.0;
        write!(f, "technique={} text={}", Shown(x.technique), Shown(x.text))?;
        write!(
            f,
            " curve={} height={}",
            Shown(x.curve),
            Shown(x.height.map(|c| c.0))
        )
    }
}

impl Display for Shown<Expression> {
    fn fmt<W: Write>(&self, f: &mut Formatter<W>) -> fmt::Result {
        let x = self.0;
        write!(
            f,
            "dynamic={} articulations={}",
            Shown(x.dynamic),
            Shown(x.articulations)
        )?;
        write!(f, " arpeggio={} head={}", Shown(x.arpeggio), Shown(x.head))
    }
}

impl Display for Shown<OttavaMarks> {
    fn fmt<W: Write>(&self, f: &mut Formatter<W>) -> fmt::Result {
        write!(
            f,
            "ottavastart={} ottavaend={}",
            Shown(self.0.start),
            Shown(self.0.end)
        )
    }
}

impl Display for Shown<Row> {
    fn fmt<W: Write>(&self, f: &mut Formatter<W>) -> fmt::Result {
        let x = self.0;
        write!(
            f,
            "{} kind={} rest={}",
            Shown(x.place),
            Shown(x.kind),
            Shown(x.rest)
        )?;
        write!(f, " {} members={}", Shown(x.value), Shown(x.members))?;
        write!(
            f,
            " {} {} {}",
            Shown(x.playing),
            Shown(x.expression),
            Shown(x.ottava)
        )?;
        write!(
            f,
            " chord={} finger={} beat={}",
            Shown(x.chord),
            Shown(x.finger),
            Shown(x.beat)
        )
    }
}

// ---- members, curve points, texts

// Where a member stands on tablature, if it does.
#[derive(Clone, Copy)]
struct Position(Option<TabPosition>);

impl Display for Position {
    fn fmt<W: Write>(&self, f: &mut Formatter<W>) -> fmt::Result {
        match self.0 {
            None => f.write_str("string=none fret=none"),
            Some(TabPosition { string, fret }) => write!(f, "string={string} fret={fret}"),
        }
    }
}

impl Display for Shown<Member> {
    fn fmt<W: Write>(&self, f: &mut Formatter<W>) -> fmt::Result {
        let x = self.0;
        write!(
            f,
            "key={} flat={} {}",
            x.key,
            Shown(x.flat),
            Position(x.position)
        )?;
        write!(
            f,
            " ghost={} tiestart={}",
            Shown(x.ghosted),
            Shown(x.ties.start)
        )?;
        write!(
            f,
            " tieend={} finger={}",
            Shown(x.ties.end),
            Shown(x.finger)
        )
    }
}

impl Display for Shown<Point> {
    fn fmt<W: Write>(&self, f: &mut Formatter<W>) -> fmt::Result {
        write!(
            f,
            "permille={} cents={}",
            self.0.position.0, self.0.height.0
        )
    }
}

impl Display for Shown<Text> {
    fn fmt<W: Write>(&self, f: &mut Formatter<W>) -> fmt::Result {
        write!(
            f,
            "bar={} track={} range={}",
            self.0.bar,
            self.0.track,
            Shown(self.0.range)
        )
    }
}
