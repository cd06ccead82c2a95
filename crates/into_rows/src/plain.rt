// The row of a beat of plain notes: most rows. Its words go straight into the table, and it has no curve. Apart from
// `keep`: with a test inside the common code a chord takes a quarter more instructions (docs/DECISIONS.md).
ghost use Rattle.std.specs.Prelude.{◌≡◌, Bool, List, [], map, ℕ, ◌*◌, ◌≤◌, length, take, Option};
ghost use Rattle.std.proofs.lemmas.List.Edits.{sets};
ghost use Rattle.model.specs.Kinds.{dynamic_word};
ghost use Rattle.entries.specs.Words.{row_stride, row_words};
ghost use Rattle.beat.specs.Beat.{BeatIs};
ghost use Rattle.beat.specs.Words.{beat_in};
ghost use Rattle.score.specs.Losses.{is_rest};
ghost use Rattle.score.specs.Members.{Keyed, member_of};
ghost use Rattle.score.specs.Page.{dynamic_at, row_entry, run_after, turn_hammer, keep_row};
ghost use Rattle.draft.specs.Chord.{chord_in};
ghost use Rattle.words.specs.Words.{words, word_plus};
ghost use Rattle.into_rows.specs.Entry.{Sums};
ghost use Rattle.into_rows.specs.Tables.{SameTables, rowed_in};
ghost use Rattle.into_rows.specs.Plain.{plain_row, no_marks};

use crate::keep::{BeatWords, RowTables, Setting};
use crate::members;
use crate::members::Company;
use beat::places::Beat;
use entries::rows::{ROW_WORDS, set_technique};
use model::{Ottava, RowPlace, Technique, kinds};
use note::places::Notes;
use score::{Fretboard, Hammer, KeptCounts, OttavaRun};
use words::plus;
use words::voice::VoiceWords;

fn mark_word(mark: Option<u8>) -> u32
    ensures { result ≡ dynamic_word (dynamic_at mark) }
{
    u32::from(crate::rows::dynamic_at(mark))
}

// The words of the row, after those that are kept. Its range is stored apart: in one array with the others the copy into the table
// would begin with these two words, and wait for them, since they are made last.
fn store_plain(
    rows: &mut [u32],
    place: RowPlace,
    mark: Option<u8>,
    b: &Beat,
    notes: &Notes,
    chord: &[u32],
    company: Company,
    kept: KeptCounts,
)
    ensures { (s : List ℕ) (v : ℕ) (board : Fretboard) (flat : Bool) → Sums (map (member_of board flat) (chord_in s v notes.now chord.now)) company →
        rows.new ≡ sets rows.old (kept.rows * row_stride)
        (row_words (row_entry (plain_row place board flat mark (beat_in s v b.now notes.now) (chord_in s v notes.now chord.now)) no_marks kept)) }
{
    let tuplet = beat::field::tuplet(b);
    let head = draft::voicing::head_of(notes, chord);
    let own = crate::rows::span_of(kept.members, company.count);
    let range = beat::field::range(b);
    let words = [
        place.bar,
        place.track,
        place.voice,
        0,
        kinds::flag_word(company.count == 0),
        u32::from(beat::field::duration(b)),
        kinds::flag_word(beat::field::flags(b) & 0x01 != 0),
        kinds::actual_word(tuplet),
        kinds::normal_word(tuplet),
        own.first,
        own.count,
        0,
        0,
        0,
        0,
        0,
        0,
        mark_word(mark),
        0,
        0,
        0,
        0,
        u32::from(head),
        0,
        0,
        0,
        0,
        u32::from(company.finger),
    ];
    let beat = [tables::low(range.start), tables::low(range.end)];
    let at = tables::start_of(rows, kept.rows as usize, ROW_WORDS);
    tables::store_words(rows, at, &words);
    tables::store_words(rows, at + 28, &beat);
}

// A row with the hammer mark turns pull-off when this one starts on a lower key.
fn turn_hammer(rows: &mut [u32], hammer: Option<Hammer>, company: Company)
    ensures { (place : RowPlace) (board : Fretboard) (flat : Bool) (mark : Option ℕ) (x : BeatIs) (xs : List Keyed) → Sums (map (member_of board flat) xs) company →
        rows.new ≡ turn_hammer (words []) hammer (plain_row place board flat mark x xs) rows.old }
{
    let Some(Hammer { row: n, key }) = hammer else {
        return;
    };
    if (company.count != 0) & (company.key < key) {
        set_technique(rows, n as usize, Technique::PullOff);
    }
}

// An ottava goes on over a rest of its kind alone: over a plain one only where it is none.
#[tactic(auto, unfolding(crate::specs::Plain::plain_row))]
fn run_left(rest: bool, run: Option<OttavaRun>) -> Option<OttavaRun>
    ensures { (n : ℕ) (place : RowPlace) (board : Fretboard) (flat : Bool) (mark : Option ℕ) (x : BeatIs) (xs : List Keyed) → rest ≡ is_rest xs →
        result ≡ run_after n (plain_row place board flat mark x xs) run }
{
    let Some(OttavaRun { kind, .. }) = run else {
        return run;
    };
    if rest & (kind == Ottava::NoOttava) {
        run
    } else {
        None
    }
}

// A row without a curve adds no points.
#[tactic(auto, using(crate::proofs::Straight::none_more))]
fn points_kept(points: u32) -> u32
    ensures { result ≡ word_plus points 0 }
{
    points
}

fn keep_row(
    tables: &mut RowTables,
    setting: &Setting,
    mark: Option<u8>,
    b: &Beat,
    notes: &Notes,
    chord: &[u32],
    size: usize,
    voice: &mut VoiceWords,
)
    requires { (size ≤ 7) × (size ≤ length chord.now) }
    ensures row { (s : List ℕ) (v : ℕ) → rowed_in tables.new voice.new
        ≡ keep_row (words s) (plain_row setting.now.place setting.now.board setting.now.flat mark (beat_in s v b.now notes.now)
        (chord_in s v notes.now (take size chord.now)))
        (rowed_in tables.old voice.old) }
    ensures lent { SameTables tables.old tables.new }
{
    let sounding = &chord[..size];
    let company = members::company_of(notes, sounding);
    let kept = tables.kept;
    turn_hammer(tables.rows, voice.hammer(), company);
    store_plain(
        tables.rows,
        setting.place,
        mark,
        b,
        notes,
        sounding,
        company,
        kept,
    );
    members::start_ties(
        tables.members,
        voice.last(),
        setting.board,
        setting.flat,
        notes,
        sounding,
    );
    members::add_members(
        tables.members,
        kept.members,
        setting.board,
        setting.flat,
        notes,
        sounding,
    );
    let own = crate::rows::span_of(kept.members, company.count);
    let run = run_left(company.count == 0, voice.run());
    voice.put_hammer(None);
    voice.put_last(own);
    voice.put_run(run);
    tables.kept = KeptCounts {
        rows: plus(kept.rows, 1),
        members: plus(kept.members, company.count),
        points: points_kept(kept.points),
    };
}

// The first `count` notes of the chord sound.
pub fn keep_plain(
    tables: &mut RowTables,
    setting: &Setting,
    mark: Option<u8>,
    scratch: &BeatWords,
    count: usize,
    voice: &mut VoiceWords,
)
    ensures row { (s : List ℕ) (v : ℕ) → rowed_in tables.new voice.new
        ≡ keep_row (words s) (plain_row setting.now.place setting.now.board setting.now.flat mark (beat_in s v scratch.now.beat scratch.now.notes)
        (chord_in s v scratch.now.notes (take count scratch.now.chord)))
        (rowed_in tables.old voice.old) }
    ensures lent { SameTables tables.old tables.new }
{
    let size = crate::keep::size_of(count);
    keep_row(
        tables,
        setting,
        mark,
        &scratch.beat,
        &scratch.notes,
        &scratch.chord,
        size,
        voice,
    );
}
