// The rows of a kept beat, entered one after another with their members and their curves.
ghost use Rattle.std.specs.Prelude.{◌≡◌, List, ℕ, ◌≤◌, min, length, take};
ghost use Rattle.model.specs.declared.Member.{Member};
ghost use Rattle.model.specs.declared.Point.{Point};
ghost use Rattle.beat.specs.Words.{beat_in};
ghost use Rattle.score.specs.Page.{last_after, keep_row, keep_rows, keep_beat};
ghost use Rattle.score.specs.Members.{graces};
ghost use Rattle.score.specs.Rows.{grace_rows, beat_row, rows_of};
ghost use Rattle.draft.specs.Chord.{chord_in};
ghost use Rattle.draft.specs.Meant.{drawn, draft_in};
ghost use Rattle.words.specs.Words.{words};
ghost use Rattle.words.specs.Voices.{voice_in};
ghost use Rattle.into_rows.specs.Entry.{Sums, rowing_in, kept_after, voice_after};
ghost use Rattle.into_rows.specs.Tables.{SameTables, rowed_in};

use crate::members::Company;
use crate::points::Bent;
use crate::{members, points, rows};
use beat::places::Beat;
use draft::Draft;
use draft::chord::Chord;
use draft::graces::graces_of;
use draft::rows::{beat_row, grace_row};
use model::{RowKind, RowPlace, Span};
use note::places::Notes;
use score::{Fretboard, KeptCounts};
use words::plus;
use words::voice::VoiceWords;

fn kept_after(company: Company, bent: Bent, kept: KeptCounts) -> KeptCounts
    ensures { result ≡ kept_after company bent kept }
{
    KeptCounts {
        rows: plus(kept.rows, 1),
        members: plus(kept.members, company.count),
        points: plus(kept.points, bent.count),
    }
}

// A grace leaves the members that the next beat's ties may start on.
fn last_after(kind: RowKind, own: Span, last: Span) -> Span
    ensures { result ≡ last_after kind own last }
{
    match kind {
        RowKind::Grace => last,
        RowKind::Beat => own,
    }
}

fn turn_voice(draft: Draft, company: Company, kept: KeptCounts, voice: &mut VoiceWords)
    ensures { (ms : List Member) (ps : List Point)
        → Sums ms company
        → voice_in voice.new
        ≡ voice_after (drawn ms ps draft) kept (voice_in voice.old) }
{
    let own = rows::span_of(kept.members, company.count);
    let last = last_after(draft.kind, own, voice.last());
    let run = rows::run_after(kept.rows, draft, voice.run());
    voice.put_last(last);
    voice.put_run(run);
    voice.put_hammer(rows::hammer_after(kept.rows, draft, company));
}

// The tables of rows, of their members and of the points of their curves, with how much of each is kept.
#[derive(Drop)]
pub struct RowTables<'a> {
    pub rows: &'a mut [u32],
    pub members: &'a mut [u32],
    pub points: &'a mut [u32],
    pub kept: KeptCounts,
}

// Where a beat stands, what it is played on, whether flats are preferred there, and the dynamic before it.
#[derive(Clone, Copy)]
pub struct Setting {
    pub place: RowPlace,
    pub board: Fretboard,
    pub flat: bool,
    pub running: u8,
}

// The words of a beat, of its notes, and of the chord that sounds.
#[derive(Drop)]
pub struct BeatWords {
    pub beat: Beat,
    pub notes: Notes,
    pub chord: Chord,
}

// A beat that was read of a file of this version, its notes, and those of its chord that sound.
#[derive(Clone, Copy)]
struct Heard<'a> {
    s: &'a [u8],
    v: u32,
    beat: &'a Beat,
    notes: &'a Notes,
    chord: &'a [u32],
}

pub(crate) fn size_of(count: usize) -> usize
    ensures { result ≡ min count 7 }
{
    count.min(7)
}

impl RowTables<'_> {
    // A row with its curve, and what is remembered after it; its members are entered apart.
    fn keep_row(&mut self, s: &[u8], draft: Draft, company: Company, voice: &mut VoiceWords)
        ensures row { (ms : List Member) (members : List ℕ) → Sums ms company →
            rowing_in self.new.rows.now (keep_row (words s.now) (draft_in s.now ms draft) (rowing_in self.old.rows.now members self.old.points.now self.old.kept voice.old)).members self.new.points.now self.new.kept voice.new
            ≡ keep_row (words s.now) (draft_in s.now ms draft)
            (rowing_in self.old.rows.now members self.old.points.now self.old.kept voice.old) }
        ensures members { self.new.members.now ≡ self.old.members.now }
        ensures lent { SameTables self.old self.new }
    {
        let bent = points::add_curve(s, self.points, self.kept.points, draft.bend);
        rows::add_row(self.rows, draft, company, bent, self.kept, voice);
        turn_voice(draft, company, self.kept, voice);
        self.kept = kept_after(company, bent, self.kept);
    }

    // The row of a beat's graces, where there are any.
    fn keep_graces(&mut self, setting: &Setting, heard: &Heard, voice: &mut VoiceWords)
        requires { length heard.now.chord.now ≤ 7 }
        ensures rows { rowed_in self.new voice.new
            ≡ keep_rows (words heard.now.s.now) (grace_rows setting.now.place setting.now.board setting.now.flat (beat_in heard.now.s.now heard.now.v heard.now.beat.now heard.now.notes.now).range
            (graces (chord_in heard.now.s.now heard.now.v heard.now.notes.now heard.now.chord.now)))
            (rowed_in self.old voice.old) }
        ensures lent { SameTables self.old self.new }
    {
        let Setting {
            place,
            board,
            flat,
            ..
        } = *setting;
        let x = graces_of(heard.notes, heard.chord);
        if !x.any {
            return;
        }
        let first = self.kept.members;
        let count = members::add_graces(self.members, first, board, flat, heard.notes, heard.chord);
        let company = members::grace_company(heard.notes, heard.chord, count);
        let draft = grace_row(place, beat::field::range(heard.beat), x);
        self.keep_row(heard.s, draft, company, voice);
    }

    // The beat's own row.
    fn keep_own(&mut self, setting: &Setting, heard: &Heard, voice: &mut VoiceWords)
        requires { length heard.now.chord.now ≤ 7 }
        ensures row { rowed_in self.new voice.new
            ≡ keep_row (words heard.now.s.now) (beat_row setting.now.place setting.now.board setting.now.flat setting.now.running (beat_in heard.now.s.now heard.now.v heard.now.beat.now heard.now.notes.now)
            (chord_in heard.now.s.now heard.now.v heard.now.notes.now heard.now.chord.now))
            (rowed_in self.old voice.old) }
        ensures lent { SameTables self.old self.new }
    {
        let Setting { board, flat, .. } = *setting;
        let first = self.kept.members;
        let last = voice.last();
        members::start_ties(self.members, last, board, flat, heard.notes, heard.chord);
        members::add_members(self.members, first, board, flat, heard.notes, heard.chord);
        let company = members::company_of(heard.notes, heard.chord);
        let draft = beat_row(
            setting.place,
            setting.running,
            heard.beat,
            heard.notes,
            heard.chord,
            heard.v,
        );
        self.keep_row(heard.s, draft, company, voice);
    }

    // The rows of a kept beat; the first `size` notes of the chord sound.
    fn keep_rows(&mut self, setting: &Setting, heard: &Heard, size: usize, voice: &mut VoiceWords)
        requires { (size ≤ 7) × (size ≤ length heard.now.chord.now) }
        ensures rows { rowed_in self.new voice.new
            ≡ keep_rows (words heard.now.s.now) (rows_of setting.now.place setting.now.board setting.now.flat setting.now.running (beat_in heard.now.s.now heard.now.v heard.now.beat.now heard.now.notes.now)
            (chord_in heard.now.s.now heard.now.v heard.now.notes.now (take size heard.now.chord.now)))
            (rowed_in self.old voice.old) }
        ensures lent { SameTables self.old self.new }
    {
        let sounding = Heard {
            chord: &heard.chord[..size],
            ..*heard
        };
        self.keep_graces(setting, &sounding, voice);
        self.keep_own(setting, &sounding, voice);
    }

    // The first `count` notes of the chord sound.
    pub fn keep_beat(
        &mut self,
        s: &[u8],
        v: u32,
        setting: &Setting,
        scratch: &BeatWords,
        count: usize,
        voice: &mut VoiceWords,
    )
        ensures beat { rowed_in self.new voice.new
            ≡ keep_beat (words s.now) setting.now.place setting.now.board setting.now.flat setting.now.running (beat_in s.now v scratch.now.beat scratch.now.notes)
            (chord_in s.now v scratch.now.notes (take count scratch.now.chord))
            (rowed_in self.old voice.old) }
        ensures lent { SameTables self.old self.new }
    {
        if !beat::field::kept(&scratch.beat) {
            return;
        }
        let heard = Heard {
            s,
            v,
            beat: &scratch.beat,
            notes: &scratch.notes,
            chord: &scratch.chord,
        };
        self.keep_rows(setting, &heard, size_of(count), voice);
    }
}
