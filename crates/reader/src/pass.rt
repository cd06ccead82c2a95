// One pass over a file: the song, the headers, the tracks and the bars.
ghost use Rattle.std.specs.Prelude.{◌≡◌, ◌≤◌, length};
ghost use Rattle.enter.specs.Pages.{SamePage};
ghost use Rattle.reader.specs.Passed.{Passes};
ghost use Rattle.reader.specs.Lent.{lent_by};
ghost use Rattle.reader.specs.Started as started;

use enter::Page;
use format::Reading;
use front::{Heads, SongRead};
use model::{Key, Mode, Time};
use score::{Before, KeptCounts, Tally};
use walk::Pass;

#[derive(Clone, Copy)]
pub struct Passed {
    pub song: SongRead,
    pub tally: Tally,
}

const COMMON_TIME: Time = Time {
    numerator: 4,
    denominator: 4,
};

// What the first header is compared with.
fn before_bars() -> Before
    ensures { result ≡ started.before_bars }
{
    Before {
        key: Key::Fifths(0, Mode::Major),
        ending: 0,
    }
}

pub(crate) fn before_beats(losses: [u32; 17]) -> Tally
    ensures { result ≡ started.before_beats losses }
{
    Tally {
        kept: KeptCounts {
            rows: 0,
            members: 0,
            points: 0,
        },
        texts: 0,
        text_room: 0,
        point_room: 0,
        flat: false,
        losses,
    }
}

// The page has the words of a hundred tracks, and a file has no more.
pub(crate) fn pass<P: Pass>(s: &[u8], tracks: &mut [u32], page: &mut Page) -> Reading<Passed>
    requires { 4200 ≤ length page.old.parts.now }
    ensures passes { let before = lent_by tracks.old page.old in
        let after = lent_by tracks.new page.new in
        Passes P.counting s.now before after result }
    ensures lent { SamePage page.old page.new }
{
    let mut programs = [[0u8; 16]; 4];
    let (song, at) = front::song_at(s, Ok(0), &mut programs)?;
    let v = song.version;
    let counts = song.counts;
    let numbers = song.directions;
    let lost = into_losses::song_losses(song.swing, numbers);
    let mut heads = Heads {
        time: COMMON_TIME,
        before: before_bars(),
        losses: lost,
    };
    let bars = counts.bars;
    let at = front::headers(s, Ok(at), v, numbers, bars, &mut heads, page.bars);
    let mut lost = heads.losses;
    let count = counts.tracks;
    let at = front::all_tracks(s, at, v, programs, count, &mut lost, tracks, page.parts);
    page.tally = before_beats(lost);
    let at = walk::all_bars::<P>(page, s, at, v, bars, count)?;
    let tally = page.tally;
    Ok((Passed { song, tally }, at))
}
