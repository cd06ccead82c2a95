// Bars: what is made of a header, of those before it and of the directions; and what is set again later in their table.
#![tactic(auto)]

ghost use Rattle.std.specs.Prelude.{◌≡◌, [], ◌++◌, ◌+◌, ◌-◌, ◌<◌, ◌≤◌};
ghost use Rattle.format.specs.Text.{pick};
ghost use Rattle.model.specs.declared.Loss.TheVariants.{UnsupportedDirection};
ghost use Rattle.score.specs.Bars.{stands_at, one_if, several, direction_at, bar_of};
ghost use Rattle.score.specs.Bars.{is_key, same_key, key_changed, time_changed, key_after, flat_after};
ghost use Rattle.score.specs.Bars.{goes_on, last_place, followed, ending_entry, passes_entry};
ghost use Rattle.score.specs.Losses.{report_if, header_losses};
ghost use Rattle.score.specs.Page.{add_header};
ghost use Rattle.words.specs.Words.{words, go_on_words, key_words, tempo_words};
ghost use Rattle.words.specs.Heads.{heads_of, directing};
ghost use Rattle.words.specs.Reports.{reports};

use entries::Entry;
use entries::bars::{BAR_WORDS, PLACE, TEMPO, set_place, set_tempo};
use header::Header;
use model::{Bar, Changes, Direction, EndingPlace, Key, Loss, Repeats, Time, kinds};
use score::Before;
use tables::load_field;
use words::report_if;

pub mod texts; // texts, each once for its bar and track

// the words of a bar's key
const MODE: usize = 2;

const FIFTHS: usize = 3;

// ---- directions

// The signs that are kept, by their places among the numbers.
const KEPT_SIGNS: [(usize, Direction); 10] = [
    (0, Direction::Coda),
    (2, Direction::Segno),
    (4, Direction::Fine),
    (5, Direction::DaCapo),
    (6, Direction::DaCapoAlCoda),
    (8, Direction::DaCapoAlFine),
    (9, Direction::DalSegno),
    (10, Direction::DalSegnoAlCoda),
    (12, Direction::DalSegnoAlFine),
    (17, Direction::ToCoda),
];

// Whether sign `n` stands at a bar: signs number bars from 1.
fn stands_at(numbers: [u16; 19], bar: u32, n: usize) -> bool
    requires { n < 19 }
    ensures { result ≡ stands_at numbers bar n }
{
    (numbers[n] as u64) == (bar as u64) + 1
}

// The first sign of a bar is kept.
#[tactic(auto, unfolding(score::specs::Bars::direction_at))]
fn direction_at(numbers: [u16; 19], bar: u32) -> Direction
    ensures { result ≡ direction_at numbers bar }
{
    for (n, direction) in KEPT_SIGNS {
        if stands_at(numbers, bar, n) {
            return direction;
        }
    }
    Direction::NoDirection
}

// Whether more than one sign that is kept stands at a bar: that is a loss.
fn several(numbers: [u16; 19], bar: u32) -> bool
    ensures { result ≡ several numbers bar }
{
    let mut signs: u32 = 0;
    for (n, _) in KEPT_SIGNS {
        if stands_at(numbers, bar, n) {
            signs += 1;
        }
    }
    1 < signs
}

// ---- time and key: by a match where a rule takes a key apart

#[tactic(auto, unfolding(score::specs::Bars::time_changed))]
fn time_changed(bar: u32, before: Time, time: Time) -> bool
    ensures { result ≡ time_changed bar before time }
{
    (0 < bar) & (before != time)
}

fn is_key(key: Key) -> bool
    ensures { result ≡ is_key key }
{
    key != Key::NoKey
}

// Not by `==`: tried, and the proof didn't close, since that the fifths fit their byte is known only where a key is taken apart.
fn same_key(a: Key, b: Key) -> bool
    ensures { result ≡ same_key a b }
{
    (kinds::fifths_word(a) == kinds::fifths_word(b)) & (kinds::mode_word(a) == kinds::mode_word(b))
}

// Against the last key read, and not the bar before (docs/RULES.md 10).
#[tactic(auto, unfolding(score::specs::Bars::key_changed))]
fn key_changed(bar: u32, before: Key, key: Key) -> bool
    ensures { result ≡ key_changed bar before key }
{
    (0 < bar) & is_key(key) & !same_key(key, before)
}

fn key_after(before: Key, key: Key) -> Key
    ensures { result ≡ key_after before key }
{
    match key {
        Key::NoKey => before,
        Key::Fifths(_, _) => key,
    }
}

// Whether flats are preferred from a bar of this key on (docs/RULES.md 16).
pub fn flat_after(flat: bool, key: Key) -> bool
    ensures { result ≡ flat_after flat key }
{
    match key {
        Key::NoKey => flat,
        Key::Fifths(fifths, _) => fifths < 0,
    }
}

// ---- endings

// Whether a bar goes on with the ending of the bar before it (docs/RULES.md 9).
fn goes_on(before: Before, header: Header) -> bool
    ensures { result ≡ goes_on before header }
{
    (header.ending != 0) & (before.ending == header.ending)
}

// A bar's place while no bar follows it.
fn last_place(before: Before, header: Header) -> EndingPlace
    ensures { result ≡ last_place before header }
{
    if header.ending == 0 {
        return EndingPlace::NoPlace;
    }
    if before.ending == header.ending {
        return EndingPlace::End;
    }
    EndingPlace::BeginEnd
}

// A bar's place once its ending goes on in the next.
fn followed(place: EndingPlace) -> EndingPlace
    ensures { result ≡ followed place }
{
    match place {
        EndingPlace::End => EndingPlace::Mid,
        EndingPlace::BeginEnd => EndingPlace::Begin,
        EndingPlace::NoPlace | EndingPlace::Begin | EndingPlace::Mid => place,
    }
}

fn ending_of(n: u8) -> Option<u8>
    ensures { result ≡ ending_entry n }
{
    if n == 0 {
        return None;
    }
    Some(n)
}

fn passes_of(mask: u8) -> Option<u8>
    ensures { result ≡ passes_entry mask }
{
    if mask == 0 {
        return None;
    }
    Some(mask)
}

// ---- a bar's entry

// The entry of a bar, before the bars after it and its beats are known.
#[tactic(auto, unfolding(score::specs::Bars::bar_of))]
pub fn bar_of(numbers: [u16; 19], bar: u32, time: Time, header: Header, before: Before) -> Bar
    ensures { result ≡ bar_of numbers bar time header before }
{
    Bar {
        time: header.time,
        key: header.key,
        changed: Changes {
            time: time_changed(bar, time, header.time),
            key: key_changed(bar, before.key, header.key),
        },
        repeats: Repeats {
            start: header.repeat_start,
            end: header.repeat_end,
            double: header.double_bar & !header.repeat_end,
        },
        ending: ending_of(header.ending),
        passes: passes_of(header.passes),
        place: last_place(before, header),
        marker: header.marker,
        direction: direction_at(numbers, bar),
        tempo: None,
    }
}

// The first tempo of a bar stays.
#[tactic(auto, unfolding(words::specs::Words::tempo_words))]
pub fn set_first_tempo(bars: &mut [u32], bar: usize, tempo: Option<u16>)
    ensures { bars.new ≡ tempo_words bar tempo bars.old }
{
    if load_field(bars, bar, BAR_WORDS, TEMPO) == 0 {
        set_tempo(bars, bar, tempo);
    }
}

// The ending of a bar goes on in the next.
#[tactic(auto, unfolding(words::specs::Words::go_on_words))]
pub fn go_on(bars: &mut [u32], bar: usize)
    ensures { bars.new ≡ go_on_words bar bars.old }
{
    let place = EndingPlace::from(load_field(bars, bar, BAR_WORDS, PLACE));
    set_place(bars, bar, followed(place));
}

#[tactic(auto, unfolding(words::specs::Words::key_words))]
pub fn key_at(bars: &[u32], bar: usize) -> Key
    ensures { result ≡ key_words bar bars.now }
{
    kinds::key_of(
        load_field(bars, bar, BAR_WORDS, MODE),
        load_field(bars, bar, BAR_WORDS, FIFTHS),
    )
}

// ---- headers, one after another

// What the next header is added to, beside the table.
#[derive(Clone, Copy)]
pub struct Headed {
    pub before: Before,
    pub losses: [u32; 17],
}

fn bar_before(bar: u32) -> usize
    ensures { result ≡ bar - 1 }
{
    bar.saturating_sub(1) as usize
}

// By a flag: what is done is one call, and a closure would be called under the same test.
fn go_on_if(going: bool, bars: &mut [u32], bar: usize)
    ensures { bars.new ≡ pick going (go_on_words bar bars.old) bars.old }
{
    if going {
        go_on(bars, bar);
    }
}

// `several` says whether more than one direction stands at the header's bar.
#[tactic(auto, unfolding(score::specs::Losses::header_losses), using(words::proofs::Reports::reports_append))]
fn header_losses(losses: [u32; 17], header: Header, several: bool) -> [u32; 17]
    ensures { result ≡ reports (header_losses header ++ report_if several UnsupportedDirection) losses }
{
    let losses = report_if(losses, header.repeat_lost, Loss::RepeatCount);
    let losses = report_if(losses, header.swing_lost, Loss::TripletFeel);
    report_if(losses, several, Loss::UnsupportedDirection)
}

// A header after one whose time is `time`: its bar's entry, and whether the ending of the bar before goes on in it.
#[tactic(auto, unfolding(score::specs::Page::add_header, words::specs::Reports::reports))]
pub fn add_header(
    numbers: [u16; 19],
    bar: u32,
    time: Time,
    header: Header,
    before: Before,
    losses: [u32; 17],
    bars: &mut [u32],
) -> Headed
    ensures { heads_of bars.new result.before result.losses
        ≡ add_header (words []) (directing numbers) bar time header (heads_of bars.old before losses) }
{
    let entry = bar_of(numbers, bar, time, header, before);
    go_on_if(goes_on(before, header), bars, bar_before(bar));
    entry.store(bars, bar as usize);
    let losses = header_losses(losses, header, several(numbers, bar));
    Headed {
        before: Before {
            key: key_after(before.key, header.key),
            ending: header.ending,
        },
        losses,
    }
}
