// Tracks: the entry of each, and what is remembered of it.
#![tactic(auto)]

ghost use Rattle.std.specs.Prelude.{◌≡◌, []};
ghost use Rattle.score.specs.Losses.{track_losses};
ghost use Rattle.score.specs.Page.{track_entry, add_track};
ghost use Rattle.words.specs.Words.{words};
ghost use Rattle.words.specs.Heads.{staves_of};
ghost use Rattle.words.specs.Reports.{reports};

use entries::Entry;
use model::{Loss, Tunings};
use parts::add_part;
use track::TrackHeader;
use words::report_if;

pub mod parts; // what is remembered of each track

// Field by field: the entry is the table's (docs/TABLES.md), the header what the file gives.
#[tactic(auto, unfolding(score::specs::Page::track_entry))]
pub fn track_entry(track: TrackHeader) -> model::Track
    ensures { result ≡ track_entry track }
{
    let strings = track.strings;
    let keys = strings.tunings;
    model::Track {
        name: track.name,
        tunings: Tunings {
            strings: strings.count,
            first: keys[0],
            second: keys[1],
            third: keys[2],
            fourth: keys[3],
            fifth: keys[4],
            sixth: keys[5],
            seventh: keys[6],
        },
        capo: track.capo,
        percussion: track.percussion,
        tablature: track.tablature,
        clef: track.clef,
        channel: track.channel,
        program: track.program,
    }
}

#[tactic(auto, unfolding(score::specs::Losses::track_losses))]
fn track_losses(losses: [u32; 17], track: TrackHeader) -> [u32; 17]
    ensures { result ≡ reports (track_losses track) losses }
{
    report_if(losses, track.percussion, Loss::DrumKit)
}

// Hands back the losses.
#[tactic(auto, unfolding(score::specs::Page::add_track, words::specs::Reports::reports))]
pub fn add_track(
    number: u32,
    track: TrackHeader,
    losses: [u32; 17],
    tracks: &mut [u32],
    parts: &mut [u32],
) -> [u32; 17]
    ensures { staves_of tracks.new parts.new result
        ≡ add_track (words []) number track (staves_of tracks.old parts.old losses) }
{
    track_entry(track).store(tracks, number as usize);
    add_part(parts, number as usize, track);
    track_losses(losses, track)
}
