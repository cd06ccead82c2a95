// The reader of Guitar Pro 3, 4 and 5 files: a file and six lent tables of words, an answer, and the tables filled.
#![tactic(auto)]

ghost use Rattle.std.specs.Prelude.{◌≡◌};
ghost use Rattle.theorems.specs.Promise.{Promise};
ghost use Rattle.reader.specs.Answered.{tables};
ghost use Rattle.reader.specs.Lent.{tables_of, SameTables};
ghost use Rattle.reader.specs.Result.{result_of, FirstPass, Fills};

use enter::Page;
use format::{LIMIT, Reading};
use model::{Answer, Outcome};
use pass::Passed;
use walk::{Counting, Entering};

mod answer; // the answer, by what the passes left
mod pass; // one pass over a file

// What is remembered of a hundred tracks.
const OWN: usize = 4200;

// A pass that only counts: whether the file is read, and the rooms that it needs.
fn first_pass(s: &[u8]) -> Reading<Passed>
    ensures { FirstPass s.now result }
{
    let mut bars = [0u32; 1];
    let mut tracks = [0u32; 1];
    let mut rows = [0u32; 1];
    let mut members = [0u32; 1];
    let mut points = [0u32; 1];
    let mut texts = [0u32; 1];
    let mut parts = [0u32; OWN];
    let mut page = Page {
        bars: &mut bars,
        rows: &mut rows,
        members: &mut members,
        points: &mut points,
        texts: &mut texts,
        parts: &mut parts,
        tally: pass::before_beats([0u32; 17]),
    };
    pass::pass::<Counting>(s, &mut tracks, &mut page)
}

// The six tables that a reading is lent.
#[derive(Drop)]
pub(crate) struct Tables<'a> {
    pub(crate) bars: &'a mut [u32],
    pub(crate) tracks: &'a mut [u32],
    pub(crate) rows: &'a mut [u32],
    pub(crate) members: &'a mut [u32],
    pub(crate) points: &'a mut [u32],
    pub(crate) texts: &'a mut [u32],
}

// A pass that fills the tables, of a file that the first pass read.
fn fill(s: &[u8], lent: &mut Tables) -> Answer
    ensures fills { Fills s.now (tables_of lent.old) (tables_of lent.new) result }
    ensures lent { SameTables lent.old lent.new }
{
    let mut parts = [0u32; OWN];
    let mut page = Page {
        bars: lent.bars,
        rows: lent.rows,
        members: lent.members,
        points: lent.points,
        texts: lent.texts,
        parts: &mut parts,
        tally: pass::before_beats([0u32; 17]),
    };
    let read = pass::pass::<Entering>(s, lent.tracks, &mut page);
    let Ok((passed, used)) = read else {
        return model::answers::refused(Outcome::Truncated);
    };
    answer::answer_of(passed, used, lent)
}

// Reads a file into six tables, which are lent as words: any bytes and any tables. Six slices, as C and the call in README.md lend them.
pub fn read(
    data: &[u8],
    bars: &mut [u32],
    tracks: &mut [u32],
    rows: &mut [u32],
    members: &mut [u32],
    points: &mut [u32],
    texts: &mut [u32],
) -> Answer
    ensures { let before = tables bars.old tracks.old rows.old members.old points.old texts.old in
        let after = result_of result bars.new tracks.new rows.new members.new points.new texts.new in
        Promise «data».now before after }
{
    let s = verdict::up_to(data, LIMIT);
    let first = match first_pass(s) {
        Ok((first, _)) => first,
        Err(stop) => {
            return model::answers::refused(verdict::refusal_of(stop, LIMIT < data.len()));
        },
    };
    let mut lent = Tables {
        bars,
        tracks,
        rows,
        members,
        points,
        texts,
    };
    let rooms = answer::rooms_of(first.song.counts, first.tally);
    if !answer::has_room(rooms, &lent) {
        return model::answers::no_room(rooms);
    }
    fill(s, &mut lent)
}
