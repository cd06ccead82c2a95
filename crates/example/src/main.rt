// The example of README.md: how a page engine calls the reader. Counts the members that end a tie in the file on standard input.
#![tactic(auto)]

use entries::Entry;
use entries::bars::BAR_WORDS;
use entries::members::MEMBER_WORDS;
use entries::points::POINT_WORDS;
use entries::rows::ROW_WORDS;
use entries::texts::TEXT_WORDS;
use entries::tracks::TRACK_WORDS;
use model::{Member, Outcome, Row, Span, answers};
use std::io;

// How many members of a row end a tie.
fn tied_in(members: &[u32], span: Span) -> usize {
    let first = span.first as usize;
    (first..first + span.count as usize)
        .filter_map(|number| Member::at(members, number))
        .filter(|member| member.ties.end)
        .count()
}

// Of all rows.
fn tied_of(rows: &[u32], members: &[u32], count: u32) -> usize {
    let mut tied: usize = 0;
    for number in 0..count as usize {
        let Some(row) = Row::at(rows, number) else {
            break;
        };
        tied = tied.saturating_add(tied_in(members, row.members));
    }
    tied
}

// A page engine would lend what it has; a file that needs more is refused with the rooms that it needs.
fn example(rt: &impl Print, data: &[u8]) -> io::Result<()> {
    let mut bars = [0; 64 * BAR_WORDS];
    let mut tracks = [0; 8 * TRACK_WORDS];
    let mut rows = [0; 256 * ROW_WORDS];
    let mut members = [0; 512 * MEMBER_WORDS];
    let mut points = [0; 64 * POINT_WORDS];
    let mut texts = [0; 32 * TEXT_WORDS];
    let answer = reader::read(
        data,
        &mut bars,
        &mut tracks,
        &mut rows,
        &mut members,
        &mut points,
        &mut texts,
    );
    let Outcome::Read = answer.outcome else {
        return println!(rt;
            "refused: outcome {}",
            answers::outcome_number(answer.outcome)
        );
    };
    let count = answer.counts.rows;
    let tied = tied_of(&rows, &members, count);
    println!(rt; "{count} rows, {tied} members that end a tie")
}

fn main(rt: HostRuntime) {
    let mut input = [0; 32768];
    let Ok(data) = show::input::read(&mut rt.reader(), &mut input) else {
        return;
    };
    // a line that cannot be written is left out
    let _ = example(&rt, data);
}
