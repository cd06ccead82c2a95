// Lists the file on standard input, as far as its first 32,768 bytes: one line of six numbers, which are the outcome, the bytes
// used, and the bars, tracks, rows and members kept. Of a refusal all but the first are 0.
#![tactic(auto)]

use entries::bars::BAR_WORDS;
use entries::members::MEMBER_WORDS;
use entries::points::POINT_WORDS;
use entries::rows::ROW_WORDS;
use entries::texts::TEXT_WORDS;
use entries::tracks::TRACK_WORDS;
use model::answers;
use std::io;

const ROOM: usize = 32768;

fn list(rt: &impl Print, data: &[u8]) {
    let mut bars = [0; 64 * BAR_WORDS];
    let mut tracks = [0; 8 * TRACK_WORDS];
    let mut rows = [0; 256 * ROW_WORDS];
    let mut members = [0; 512 * MEMBER_WORDS];
    let mut points = [0; 64 * POINT_WORDS];
    let mut texts = [0; 32 * TEXT_WORDS];
    let answer = reader::read(
        data,
        &mut bars,
        &mut tracks,
        &mut rows,
        &mut members,
        &mut points,
        &mut texts,
    );
    let outcome = answers::outcome_number(answer.outcome);
    let used = answer.song.used;
    let kept = answer.counts;
    // a line that cannot be written is left out
    let _ = println!(rt;
        "{outcome} {used} {} {} {} {}",
        kept.bars, kept.tracks, kept.rows, kept.members
    );
}

fn main(rt: HostRuntime) -> io::Result<()> {
    let mut input = [0; ROOM];
    let Ok(data) = show::input::read(&mut rt.reader(), &mut input) else {
        return rt.eprintln("listing: standard input could not be read");
    };
    list(&rt, data);
    Ok(())
}
