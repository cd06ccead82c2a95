// What is remembered of each track, in words of the reader's own: its fretboard, its running dynamic and its two
// voices. A word that is missing is 0, and a store past the end does nothing.
ghost use Rattle.std.specs.Prelude.{◌≡◌, ◌+◌, ◌*◌, ◌%◌, min, length, drop, get_or, set};
ghost use Rattle.std.proofs.lemmas.List.Edits.{sets};
ghost use Rattle.model.specs.Kinds.{flag_of};
ghost use Rattle.score.specs.Page.{part_of};
ghost use Rattle.words.specs.Words.{part_stride, running_place, voice_place, voice_words, voice_from, board_words, board_from, part_words};
ghost use Rattle.words.specs.Voices.{voice_in};

use model::kinds;
use score::Fretboard;
use track::{Strings, TrackHeader};
use words::voice::{NO_VOICE, VoiceWords};

pub const PART_WORDS: usize = 42;

// Where the number of strings, the running dynamic and the voices stand in their part.
const STRING_COUNT: usize = 0;

const RUNNING: usize = 11;

const FIRST_VOICE: usize = 12;

const SECOND_VOICE: usize = 27;

const BOARD_WORDS: usize = 11;

const VOICE_WORDS: usize = 15;

// A running dynamic starts at 6, forte.
const FORTE: u8 = 6;

// ---- places

// Where word `k` of a part stands, or the end if it would stand past that.
fn place_of(parts: &[u32], track: usize, k: usize) -> usize
    ensures { result ≡ min (track * part_stride + k) (length parts.now) }
{
    let at = tables::start_of(parts, track, PART_WORDS);
    at.saturating_add(k).min(parts.len())
}

// The words from word `k` of a part on.
#[tactic(auto, using(crate::proofs::Places::left_from))]
fn words_from(parts: &[u32], track: usize, k: usize) -> &[u32]
    ensures { result.now ≡ drop (track * part_stride + k) parts.now }
{
    &parts[place_of(parts, track, k)..]
}

#[tactic(auto, using(crate::proofs::Places::second_voice))]
fn voice_place(voice: usize) -> usize
    ensures { result ≡ voice_place voice }
{
    if voice == 0 {
        FIRST_VOICE
    } else {
        SECOND_VOICE
    }
}

// ---- the fretboard and the running dynamic

fn byte_at(parts: &[u32], track: usize, k: usize) -> u8
    ensures { result ≡ get_or parts.now (track * part_stride + k) 0 % 256 }
{
    kinds::byte_of(tables::load_field(parts, track, PART_WORDS, k))
}

#[tactic(auto, unfolding(words::specs::Words::board_from))]
fn strings_of(w: &[u32]) -> Strings
    ensures { result ≡ (board_from 0 w.now).strings }
{
    let count = entries::byte_at(w, 0);
    let tunings = [
        entries::byte_at(w, 1),
        entries::byte_at(w, 2),
        entries::byte_at(w, 3),
        entries::byte_at(w, 4),
        entries::byte_at(w, 5),
        entries::byte_at(w, 6),
        entries::byte_at(w, 7),
    ];
    Strings { count, tunings }
}

#[tactic(auto, unfolding(words::specs::Words::board_from))]
fn board_of(w: &[u32]) -> Fretboard
    ensures { result ≡ board_from 0 w.now }
{
    Fretboard {
        strings: strings_of(w),
        capo: entries::byte_at(w, 8),
        percussion: entries::flag_at(w, 9),
        tablature: entries::flag_at(w, 10),
    }
}

// Of words that are all there the compiler drops the tests.
#[tactic(auto, using(crate::proofs::Places::board_from_lem, crate::proofs::Places::board_here))]
pub fn board_at(parts: &[u32], track: usize) -> Fretboard
    ensures { result ≡ board_from (track * part_stride) parts.now }
{
    let w = words_from(parts, track, 0);
    if BOARD_WORDS <= w.len() {
        return board_of(&w[..BOARD_WORDS]);
    }
    board_of(w)
}

// How many strings a track has, without the rest of its fretboard.
#[tactic(auto, unfolding(words::specs::Words::board_from))]
pub fn string_count_at(parts: &[u32], track: usize) -> u8
    ensures { result ≡ (board_from (track * part_stride) parts.now).strings.count }
{
    byte_at(parts, track, STRING_COUNT)
}

#[tactic(auto, unfolding(words::specs::Words::board_words), using(crate::proofs::Places::seven))]
fn board_words(x: Fretboard) -> [u32; 11]
    ensures { result ≡ board_words x }
{
    let strings = x.strings;
    let tunings = strings.tunings;
    [
        u32::from(strings.count),
        u32::from(tunings[0]),
        u32::from(tunings[1]),
        u32::from(tunings[2]),
        u32::from(tunings[3]),
        u32::from(tunings[4]),
        u32::from(tunings[5]),
        u32::from(tunings[6]),
        u32::from(x.capo),
        kinds::flag_word(x.percussion),
        kinds::flag_word(x.tablature),
    ]
}

#[tactic(auto, using(tables::proofs::Laws::sets_start))]
fn put_board(parts: &mut [u32], track: usize, x: Fretboard)
    ensures { parts.new ≡ sets parts.old (track * part_stride) (board_words x) }
{
    let at = place_of(parts, track, 0);
    tables::store_words(parts, at, &board_words(x));
}

pub fn running_at(parts: &[u32], track: usize) -> u8
    ensures { result ≡ get_or parts.now (track * part_stride + running_place) 0 % 256 }
{
    byte_at(parts, track, RUNNING)
}

pub fn put_running(parts: &mut [u32], track: usize, running: u8)
    ensures { parts.new ≡ set parts.old (track * part_stride + running_place) running }
{
    tables::store_field(parts, track, PART_WORDS, RUNNING, u32::from(running));
}

// ---- voices

#[tactic(auto, unfolding(words::specs::Words::voice_from))]
fn voice_of(w: &[u32]) -> VoiceWords
    ensures { voice_in result ≡ voice_from 0 w.now }
{
    VoiceWords {
        words: [
            tables::load(w, 0),
            tables::load(w, 1),
            tables::load(w, 2),
            tables::load(w, 3),
            tables::load(w, 4),
            tables::load(w, 5),
            tables::load(w, 6),
            tables::load(w, 7),
            tables::load(w, 8),
            tables::load(w, 9),
            tables::load(w, 10),
            tables::load(w, 11),
            tables::load(w, 12),
            tables::load(w, 13),
            tables::load(w, 14),
        ],
    }
}

#[tactic(auto, using(crate::proofs::Places::voice_from_lem, crate::proofs::Places::voice_here))]
pub fn voice_at(parts: &[u32], track: usize, voice: usize) -> VoiceWords
    ensures { voice_in result ≡ voice_from (track * part_stride + voice_place voice) parts.now }
{
    let w = words_from(parts, track, voice_place(voice));
    if VOICE_WORDS <= w.len() {
        return voice_of(&w[..VOICE_WORDS]);
    }
    voice_of(w)
}

#[tactic(auto, using(tables::proofs::Laws::sets_start))]
pub fn put_voice(parts: &mut [u32], track: usize, voice: usize, w: &VoiceWords)
    ensures { parts.new
        ≡ sets parts.old (track * part_stride + voice_place voice) (voice_words (voice_in w.now)) }
{
    let at = place_of(parts, track, voice_place(voice));
    tables::store_words(parts, at, &w.kept());
}

// A part as it is before its first beat.
#[tactic(auto, using(crate::proofs::Places::no_words_lem, crate::proofs::Places::part_shown))]
pub fn add_part(parts: &mut [u32], number: usize, track: TrackHeader)
    ensures { parts.new ≡ sets parts.old (number * part_stride) (part_words (part_of track)) }
{
    let board = Fretboard {
        strings: track.strings,
        capo: track.capo,
        percussion: track.percussion,
        tablature: track.tablature,
    };
    put_board(parts, number, board);
    put_running(parts, number, FORTE);
    put_voice(parts, number, 0, &NO_VOICE);
    put_voice(parts, number, 1, &NO_VOICE);
}
