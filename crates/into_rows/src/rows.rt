// The entry of a row, and what the row does to those of its voice before it.
ghost use Rattle.std.specs.Prelude.{◌≡◌, List, [], ◌*◌};
ghost use Rattle.std.proofs.lemmas.List.Edits.{sets};
ghost use Rattle.entries.specs.Words.{row_stride, row_words};
ghost use Rattle.model.specs.declared.Member.{Member};
ghost use Rattle.model.specs.declared.Point.{Point};
ghost use Rattle.score.specs.Page.{span_of, marked, text_left, dynamic_at, row_entry};
ghost use Rattle.score.specs.Page.{pulls, hammer_after, turn_hammer, under, same_kind, ottava_marks, run_after, turn_run};
ghost use Rattle.words.specs.Words.{words};
ghost use Rattle.words.specs.Voices.{voice_in};
ghost use Rattle.draft.specs.Meant.{drawn};
ghost use Rattle.into_rows.specs.Entry.{Sums, Bends, undrawn, playing_of, expression_of};

use crate::members::Company;
use crate::points::Bent;
use draft::Draft;
use entries::Entry;
use entries::rows::{set_ottava_end, set_technique};
use model::{
    Dynamic, Expression, Ottava, OttavaMarks, Playing, Row, Span, Technique, TechniqueText,
};
use score::{Hammer, KeptCounts, OttavaRun};
use words::voice::VoiceWords;

// ---- hammers and pull-offs

fn is_marked(text: TechniqueText) -> bool
    ensures { result ≡ marked text }
{
    text == TechniqueText::HammerMark
}

fn pulls(draft: Draft, company: Company, key: u8) -> bool
    ensures { (ms : List Member) (ps : List Point) → Sums ms company → result ≡ pulls (drawn ms ps draft) key }
{
    !draft.rest & ((company.count != 0) & (company.key < key))
}

// A row with the hammer mark turns pull-off when the next row of its voice is no rest and starts on a lower key.
fn turn_hammer(rows: &mut [u32], hammer: Option<Hammer>, draft: Draft, company: Company)
    ensures { (ms : List Member) (ps : List Point) → Sums ms company →
        rows.new ≡ turn_hammer (words []) hammer (drawn ms ps draft) rows.old }
{
    let Some(Hammer { row: n, key }) = hammer else {
        return;
    };
    if pulls(draft, company, key) {
        set_technique(rows, n as usize, Technique::PullOff);
    }
}

pub(crate) fn hammer_after(n: u32, draft: Draft, company: Company) -> Option<Hammer>
    ensures { (ms : List Member) (ps : List Point) → Sums ms company → result ≡ hammer_after n (drawn ms ps draft) }
{
    if is_marked(draft.text) {
        Some(Hammer {
            row: n,
            key: company.key,
        })
    } else {
        None
    }
}

// ---- ottavas

fn is_under(draft: Draft) -> bool
    ensures { result ≡ under (undrawn draft) }
{
    (draft.ottava != Ottava::NoOttava) & !draft.rest
}

fn same_kind(draft: Draft, run: Option<OttavaRun>) -> bool
    ensures { result ≡ same_kind (undrawn draft) run }
{
    match run {
        None => false,
        Some(OttavaRun { kind, .. }) => draft.ottava == kind,
    }
}

// A row under the ottava of the row before it carries that on: it does not end there.
fn turn_run(rows: &mut [u32], run: Option<OttavaRun>, draft: Draft)
    ensures { rows.new ≡ turn_run (words []) run (undrawn draft) rows.old }
{
    let Some(OttavaRun { row: n, .. }) = run else {
        return;
    };
    if is_under(draft) & same_kind(draft, run) {
        set_ottava_end(rows, n as usize, false);
    }
}

fn ottava_marks(draft: Draft, run: Option<OttavaRun>) -> OttavaMarks
    ensures { result ≡ ottava_marks (undrawn draft) run }
{
    let end = is_under(draft);
    if end & !same_kind(draft, run) {
        return OttavaMarks {
            start: draft.ottava,
            end,
        };
    }
    OttavaMarks {
        start: Ottava::NoOttava,
        end,
    }
}

// A rest of the ottava's kind neither ends nor extends it.
pub(crate) fn run_after(n: u32, draft: Draft, run: Option<OttavaRun>) -> Option<OttavaRun>
    ensures { result ≡ run_after n (undrawn draft) run }
{
    if is_under(draft) {
        Some(OttavaRun {
            row: n,
            kind: draft.ottava,
        })
    } else if draft.rest & same_kind(draft, run) {
        run
    } else {
        None
    }
}

// ---- the entry

pub(crate) fn span_of(first: u32, count: u32) -> Span
    ensures { result ≡ span_of first count }
{
    Span {
        first: if count == 0 { 0 } else { first },
        count,
    }
}

// The hammer mark stands in no finished row.
fn text_left(text: TechniqueText) -> TechniqueText
    ensures { result ≡ text_left text }
{
    if is_marked(text) {
        TechniqueText::NoText
    } else {
        text
    }
}

pub(crate) fn dynamic_at(level: Option<u8>) -> Dynamic
    ensures { result ≡ dynamic_at level }
{
    match level {
        None => Dynamic::NoDynamic,
        Some(n) => Dynamic::from(u32::from(n)),
    }
}

fn playing_of(draft: Draft, bent: Bent, first: u32) -> Playing
    ensures { result ≡ playing_of (undrawn draft) bent first }
{
    Playing {
        text: text_left(draft.text),
        technique: draft.technique,
        curve: span_of(first, bent.count),
        height: bent.height,
    }
}

fn expression_of(draft: Draft) -> Expression
    ensures { result ≡ expression_of (undrawn draft) }
{
    Expression {
        dynamic: dynamic_at(draft.dynamic),
        articulations: draft.articulations,
        arpeggio: draft.arpeggio,
        head: draft.head,
    }
}

// The entry of a row whose ottava marks are given.
#[tactic(auto, unfolding(score::specs::Page::row_entry))]
fn row_entry(
    draft: Draft,
    company: Company,
    bent: Bent,
    marks: OttavaMarks,
    kept: KeptCounts,
) -> Row
    ensures { (ms : List Member) (ps : List Point) → Sums ms company → Bends ps bent →
        result ≡ row_entry (drawn ms ps draft) marks kept }
{
    Row {
        place: draft.place,
        kind: draft.kind,
        rest: draft.rest,
        value: draft.value,
        members: span_of(kept.members, company.count),
        playing: playing_of(draft, bent, kept.points),
        expression: expression_of(draft),
        ottava: marks,
        chord: draft.chord,
        finger: company.finger,
        beat: draft.beat,
    }
}

pub(crate) fn add_row(
    rows: &mut [u32],
    draft: Draft,
    company: Company,
    bent: Bent,
    kept: KeptCounts,
    voice: &VoiceWords,
)
    ensures { (ms : List Member) (ps : List Point) → Sums ms company → Bends ps bent → rows.new
        ≡ sets
        (turn_run (words []) (voice_in voice.now).run (drawn ms ps draft)
        (turn_hammer (words []) (voice_in voice.now).hammer (drawn ms ps draft) rows.old))
        (kept.rows * row_stride)
        (row_words (row_entry (drawn ms ps draft) (ottava_marks (drawn ms ps draft) (voice_in voice.now).run) kept)) }
{
    let run = voice.run();
    turn_hammer(rows, voice.hammer(), draft, company);
    turn_run(rows, run, draft);
    let row = row_entry(draft, company, bent, ottava_marks(draft, run), kept);
    row.store(rows, kept.rows as usize);
}
