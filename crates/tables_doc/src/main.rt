// Writes docs/TABLES.md: the text on standard input, with the words of one example entry of each table, in order, where it has a '~'.
#![tactic(auto)]

use entries::Entry;
use entries::bars::BAR_WORDS;
use entries::members::MEMBER_WORDS;
use entries::points::POINT_WORDS;
use entries::rows::ROW_WORDS;
use entries::texts::TEXT_WORDS;
use entries::tracks::TRACK_WORDS;
use format::Range;
use model::{
    Arpeggio, Articulation, Bar, Cents, Changes, Clef, Direction, Duration, Dynamic, EndingPlace,
    Expression, Finger, Key, Member, Mode, NoteHead, NoteValue, Ottava, OttavaMarks, PerMille,
    Playing, Point, Repeats, Row, RowKind, RowPlace, Span, TabPosition, Technique, TechniqueText,
    Text, Ties, Time, Track, Tunings, Tuplet, marks,
};
use std::io;
use std::io::Write;

// Words of one entry of each table.
const WORDS: usize = BAR_WORDS + TRACK_WORDS + ROW_WORDS + MEMBER_WORDS + POINT_WORDS + TEXT_WORDS;

const MARK: u8 = b'~';

// Bytes of the page's text, at most.
const TEXT: usize = 65536;

// 6/8 in C minor, both new; a repeat ends; ending 2 for passes 2 and 3 begins; a marker; "dal segno al coda"; 96 to the minute.
fn a_bar() -> Bar {
    let time = Time {
        numerator: 6,
        denominator: 8,
    };
    let changed = Changes {
        time: true,
        key: true,
    };
    let repeats = Repeats {
        start: false,
        end: true,
        double: false,
    };
    let marker = Range {
        start: 120,
        end: 126,
    };
    Bar {
        time,
        key: Key::Fifths(-3, Mode::Minor),
        changed,
        repeats,
        ending: Some(2),
        passes: Some(6),
        place: EndingPlace::Begin,
        marker,
        direction: Direction::DalSegnoAlCoda,
        tempo: Some(96),
    }
}

// A guitar with a capo at fret 2 on channel 3 with program 25.
fn a_track() -> Track {
    let name = Range {
        start: 300,
        end: 306,
    };
    let tunings = Tunings {
        strings: 6,
        first: 64,
        second: 59,
        third: 55,
        fourth: 50,
        fifth: 45,
        sixth: 40,
        seventh: 0,
    };
    Track {
        name,
        tunings,
        capo: 2,
        percussion: false,
        tablature: true,
        clef: Clef::Treble,
        channel: 3,
        program: Some(25),
    }
}

fn an_expression() -> Expression {
    let m = marks::added(marks::none_added(), Articulation::Accent);
    let m = marks::added(m, Articulation::Staccato);
    let m = marks::added(m, Articulation::Trill);
    Expression {
        dynamic: Dynamic::Mf,
        articulations: marks::listed(m),
        arpeggio: Arpeggio::Down,
        head: NoteHead::Cross,
    }
}

fn a_playing() -> Playing {
    let curve = Span { first: 5, count: 3 };
    Playing {
        text: TechniqueText::PalmMute,
        technique: Technique::Bend,
        curve,
        height: Some(Cents(-100)),
    }
}

// The beat of bar 4, track 1, voice 0: two members in a dotted eighth of a triplet, palm-muted and bent.
fn a_row() -> Row {
    let place = RowPlace {
        bar: 4,
        track: 1,
        voice: 0,
    };
    let value = NoteValue {
        duration: Duration::Eighth,
        dot: true,
        tuplet: Some(Tuplet {
            actual: 3,
            normal: 2,
        }),
    };
    let members = Span { first: 7, count: 2 };
    let playing = a_playing();
    let expression = an_expression();
    let ottava = OttavaMarks {
        start: Ottava::Va8,
        end: false,
    };
    let chord = Range {
        start: 1200,
        end: 1203,
    };
    let beat = Range {
        start: 1180,
        end: 1240,
    };
    Row {
        place,
        kind: RowKind::Beat,
        rest: false,
        value,
        members,
        playing,
        expression,
        ottava,
        chord,
        finger: Finger::NoFinger,
        beat,
    }
}

// Fret 2 of the third string from below, tied from before, in parentheses.
fn a_member() -> Member {
    let ties = Ties {
        end: true,
        start: false,
    };
    Member {
        key: 57,
        flat: false,
        position: Some(TabPosition { string: 3, fret: 2 }),
        ghosted: true,
        ties,
        finger: Finger::Ring,
    }
}

fn a_point() -> Point {
    Point {
        position: PerMille(983),
        height: Cents(-100),
    }
}

fn a_text() -> Text {
    let range = Range {
        start: 900,
        end: 914,
    };
    Text {
        bar: 4,
        track: 1,
        range,
    }
}

// The words of the six entries, one after another, as the page has them.
fn store_all(words: &mut [u32; WORDS]) {
    let (bar, left) = words.split_at_mut(BAR_WORDS);
    let (track, left) = left.split_at_mut(TRACK_WORDS);
    let (row, left) = left.split_at_mut(ROW_WORDS);
    let (member, left) = left.split_at_mut(MEMBER_WORDS);
    let (point, text) = left.split_at_mut(POINT_WORDS);
    a_bar().store(bar, 0);
    a_track().store(track, 0);
    a_row().store(row, 0);
    a_member().store(member, 0);
    a_point().store(point, 0);
    a_text().store(text, 0);
}

// The text with a word in the place of each mark; past the last word stands 0.
fn write_filled(out: &mut impl Write, text: &[u8], words: &[u32; WORDS]) -> io::Result<()> {
    let mut words = words.iter();
    for byte in text {
        if *byte == MARK {
            write!(out, "{}", words.next().unwrap_or(&0))?;
        } else {
            out.write_all(&[*byte])?;
        }
    }
    Ok(())
}

fn main(rt: HostRuntime) -> io::Result<()> {
    let mut words = [0; WORDS];
    store_all(&mut words);
    let mut room = [0; TEXT];
    let text = show::input::read(&mut rt.reader(), &mut room)?;
    write_filled(&mut io::writer(&rt), text, &words)
}
