// A voice as fifteen words that are lent: the last frets of its strings, the hammer that waits, the members of its last kept beat, the
// ottava that is open. The only code that knows where a word of a voice stands.
ghost use Rattle.std.specs.Prelude.{◌≡◌, ◌<◌, get_or};
ghost use Rattle.score.specs.Page.{with_frets};
ghost use Rattle.words.specs.Words.{fret_word, fret_of, hammer_words, hammer_of, run_words, voice_words};
ghost use Rattle.words.specs.Voices.{voice_in, frets_in, with_hammer, with_last, with_run};

use model::{Ottava, Span, kinds};
use score::{Hammer, OttavaRun};

#[derive(Clone, Copy)]
pub struct VoiceWords {
    pub words: [u32; 15],
}

// The frets of the seven strings stand first. Then a flag for whether a hammer waits, its row and its key; the members of the last kept
// beat; a flag for whether an ottava is open, its row and its kind.
const WAITS: usize = 7;

const WAITING_ROW: usize = 8;

const WAITING_KEY: usize = 9;

const LAST_FIRST: usize = 10;

const LAST_COUNT: usize = 11;

const OPEN: usize = 12;

const OPEN_ROW: usize = 13;

const OPEN_KIND: usize = 14;

// Before the first beat.
pub const NO_VOICE: VoiceWords = VoiceWords { words: [0; 15] };

// A byte as a word, and that it is one.
fn byte_word(x: u8) -> u32
    ensures value { result ≡ x }
    ensures byte { result < 256 }
{
    u32::from(x)
}

// Twins of an ottava's by their shape alone: a key is a byte, a kind a word of its own, and each has its own contract.
fn hammer_words(x: Option<Hammer>) -> [u32; 3]
    ensures words { result ≡ hammer_words x }
    ensures said { hammer_of (get_or result 0 0) (get_or result 1 0) (get_or result 2 0) ≡ x }
{
    match x {
        None => [0, 0, 0],
        Some(Hammer { row, key }) => [1, row, byte_word(key)],
    }
}

fn run_words(x: Option<OttavaRun>) -> [u32; 3]
    ensures { result ≡ run_words x }
{
    match x {
        None => [0, 0, 0],
        Some(OttavaRun { row, kind }) => [1, row, u32::from(kind)],
    }
}

// A remembered fret by its word, as document 01 names the form: one more than the fret, and 0 without one.
fn fret_word(word: u32) -> u32
    ensures { result ≡ fret_word (fret_of word) }
{
    if word == 0 {
        return 0;
    }
    (word - 1) % 256 + 1
}

impl VoiceWords {
    // ---- what the words say

    #[tactic(auto, unfolding(crate::specs::Words::voice_from))]
    pub fn frets(&self) -> [u32; 7]
        ensures { frets_in result ≡ (voice_in self.now).frets }
    {
        let w = &self.words;
        [w[0], w[1], w[2], w[3], w[4], w[5], w[6]]
    }

    pub fn hammer(&self) -> Option<Hammer>
        ensures { result ≡ (voice_in self.now).hammer }
    {
        if kinds::flag_of(self.words[WAITS]) {
            return Some(Hammer {
                row: self.words[WAITING_ROW],
                key: kinds::byte_of(self.words[WAITING_KEY]),
            });
        }
        None
    }

    #[tactic(auto, unfolding(crate::specs::Words::voice_from))]
    pub fn last(&self) -> Span
        ensures { result ≡ (voice_in self.now).last }
    {
        Span {
            first: self.words[LAST_FIRST],
            count: self.words[LAST_COUNT],
        }
    }

    pub fn run(&self) -> Option<OttavaRun>
        ensures { result ≡ (voice_in self.now).run }
    {
        if kinds::flag_of(self.words[OPEN]) {
            return Some(OttavaRun {
                row: self.words[OPEN_ROW],
                kind: Ottava::from(self.words[OPEN_KIND]),
            });
        }
        None
    }

    // ---- changes

    pub fn put_frets(&mut self, frets: [u32; 7])
        ensures { voice_in self.new ≡ with_frets (voice_in self.old) (frets_in frets) }
    {
        self.words[..WAITS].copy_from_slice(&frets);
    }

    pub fn put_hammer(&mut self, x: Option<Hammer>)
        ensures { voice_in self.new ≡ with_hammer (voice_in self.old) x }
    {
        self.words[WAITS..LAST_FIRST].copy_from_slice(&hammer_words(x));
    }

    pub fn put_last(&mut self, x: Span)
        ensures { voice_in self.new ≡ with_last (voice_in self.old) x }
    {
        self.words[LAST_FIRST] = x.first;
        self.words[LAST_COUNT] = x.count;
    }

    pub fn put_run(&mut self, x: Option<OttavaRun>)
        ensures { voice_in self.new ≡ with_run (voice_in self.old) x }
    {
        self.words[OPEN..].copy_from_slice(&run_words(x));
    }

    // The words of the voice that these say, as the definitions write them: 0 where there is nothing.
    pub fn kept(&self) -> [u32; 15]
        ensures { result ≡ voice_words (voice_in self.now) }
    {
        let w = &self.words;
        let waits = hammer_words(self.hammer());
        let over = run_words(self.run());
        [
            fret_word(w[0]),
            fret_word(w[1]),
            fret_word(w[2]),
            fret_word(w[3]),
            fret_word(w[4]),
            fret_word(w[5]),
            fret_word(w[6]),
            waits[0],
            waits[1],
            waits[2],
            w[LAST_FIRST],
            w[LAST_COUNT],
            over[0],
            over[1],
            over[2],
        ]
    }
}
