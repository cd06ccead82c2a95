// The table of members.
ghost use Rattle.std.specs.Prelude.{◌≡◌, ◌+◌, ◌*◌, set};
ghost use Rattle.std.proofs.lemmas.List.Edits.{sets};
ghost use Rattle.tables.specs.Table.{room};
ghost use Rattle.model.specs.Kinds.{flag_word};
ghost use Rattle.entries.specs.Words.{member_stride, member_words, member_of, member_at, tie_start_at};

use crate::Entry;
use model::{Finger, Member, Ties, kinds};

pub const MEMBER_WORDS: usize = 8;

pub const TIE_START: usize = 6;

#[tactic(auto, unfolding(crate::specs::Words::member_words))]
pub fn member_words(x: Member) -> [u32; 8]
    ensures { result ≡ member_words x }
{
    [
        u32::from(x.key),
        kinds::flag_word(x.flat),
        kinds::string_word(x.position),
        kinds::fret_word(x.position),
        kinds::flag_word(x.ghosted),
        kinds::flag_word(x.ties.end),
        kinds::flag_word(x.ties.start),
        u32::from(x.finger),
    ]
}

impl Entry for Member {
    ghost WORDS = { member_stride };

    const WORDS: usize = MEMBER_WORDS;

    ghost words = { member_words };

    ghost meant = { member_of };

    #[tactic(auto, unfolding(crate::specs::Words::member_of))]
    fn of_words(w: &[u32]) -> Member {
        Member {
            key: crate::byte_at(w, 0),
            flat: crate::flag_at(w, 1),
            position: kinds::position_of(tables::load(w, 2), tables::load(w, 3)),
            ghosted: crate::flag_at(w, 4),
            ties: Ties {
                end: crate::flag_at(w, 5),
                start: crate::flag_at(w, 6),
            },
            finger: Finger::from(tables::load(w, 7)),
        }
    }

    fn store(self, table: &mut [u32], i: usize) {
        let w = member_words(self);
        tables::store_entry(table, i, &w);
    }
}

// Whether a tie starts at a member, once the next beat of its voice is known.
pub fn set_tie_start(members: &mut [u32], i: usize, x: bool)
    ensures { members.new ≡ set members.old (i * member_stride + tie_start_at) (flag_word x) }
{
    tables::store_field(members, i, MEMBER_WORDS, TIE_START, kinds::flag_word(x));
}
