// A beat is only counted: the rows and members that it makes, and the rooms that it needs.
ghost use Rattle.std.specs.Prelude.{◌≡◌, List, ℕ, ◌≤◌};
ghost use Rattle.beat.specs.Beat.{BeatIs};
ghost use Rattle.beat.specs.Hop.{Unmarked};
ghost use Rattle.beat.specs.Words.{beat_in};
ghost use Rattle.words.specs.Counted.{one_note, one_grace, grace_of, graced, kept_with, kept_of, strings_on};
ghost use Rattle.words.specs.Counted as spec;
ghost use Rattle.enter.specs.Pages.{walked, SamePage};

use crate::Page;
use beat::places::Beat;
use draft::sounding::that_sound;
use into_tracks::parts::string_count_at;
use note::field;
use note::marks::Grace;
use note::notes::Strings;
use note::places::Notes;
use score::KeptCounts;
use words::plus;

// How many notes sound, and how many graces stand before them.
#[derive(Clone, Copy)]
struct Heard {
    notes: u32,
    graces: u32,
}

fn one_grace(grace: Option<Grace>) -> u32
    ensures value { result ≡ one_grace grace }
    ensures upper_bound { result ≤ 1 }
{
    match grace {
        None => 0,
        Some(_) => 1,
    }
}

// `strings`: how many the track has.
fn heard_of(b: &Beat, notes: &Notes, strings: u8) -> Heard
    ensures notes { (s : List ℕ) (v : ℕ)
        → result.notes
        ≡ spec.heard one_note (beat_in s v b.now notes.now).strings strings 0
        (beat_in s v b.now notes.now).notes }
    ensures graces { (s : List ℕ) (v : ℕ)
        → result.graces
        ≡ spec.heard grace_of (beat_in s v b.now notes.now).strings strings 0
        (beat_in s v b.now notes.now).notes }
{
    let mut count: u32 = 0;
    let mut graces: u32 = 0;
    let sounding = that_sound(beat::field::strings(b), strings);
    for string in Strings::of(sounding) {
        let grace = field::grace(notes, string);
        count += 1;
        graces += one_grace(grace);
    }
    Heard {
        notes: count,
        graces,
    }
}

// A row for the graces, where there are any.
fn with_graces(kept: KeptCounts, graces: u32) -> KeptCounts
    ensures { result ≡ graced graces kept }
{
    if graces == 0 {
        return kept;
    }
    KeptCounts {
        rows: plus(kept.rows, 1),
        members: plus(kept.members, graces),
        points: kept.points,
    }
}

fn kept_with(kept: KeptCounts, heard: Heard) -> KeptCounts
    ensures { result ≡ kept_with heard.notes heard.graces kept }
{
    let before = with_graces(kept, heard.graces);
    KeptCounts {
        rows: plus(before.rows, 1),
        members: plus(before.members, heard.notes),
        points: kept.points,
    }
}

fn kept_of(b: &Beat, notes: &Notes, strings: u8, kept: KeptCounts) -> KeptCounts
    ensures { (s : List ℕ) (v : ℕ) → result ≡ kept_of strings (beat_in s v b.now notes.now) kept }
{
    if beat::field::kept(b) {
        return kept_with(kept, heard_of(b, notes, strings));
    }
    kept
}

impl Page<'_> {
    fn string_count(&self, track: usize) -> u8
        ensures { result ≡ strings_on track self.now.parts.now }
    {
        string_count_at(self.parts, track)
    }

    // Nothing is remembered of a track but what it is played on.
    pub fn count_beat(&mut self, s: &[u8], track: usize, b: &Beat, notes: &Notes)
        ensures beat { (v : ℕ) → walked self.new ≡ spec.count_beat track (beat_in s.now v b.now notes.now) (walked self.old) }
        ensures lent { SamePage self.old self.new }
    {
        let strings = self.string_count(track);
        self.tally.kept = kept_of(b, notes, strings, self.tally.kept);
        crate::count_rooms(&mut self.tally, s, b, notes);
    }

    // A beat of plain notes: one row, and a member for each string that sounds. It needs no room for points.
    pub fn count_plain(&mut self, strings: u8, track: usize)
        ensures beat { (x : BeatIs) → Unmarked strings x → walked self.new ≡ spec.count_beat track x (walked self.old) }
        ensures lent { SamePage self.old self.new }
    {
        let sounding = that_sound(strings, self.string_count(track));
        let heard = Heard {
            notes: u32::count_ones(sounding),
            graces: 0,
        };
        self.tally.kept = kept_with(self.tally.kept, heard);
        self.tally.point_room = plus(self.tally.point_room, 0);
    }
}
