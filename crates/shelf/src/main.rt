// Shows the file on standard input, of at most 4 MiB, as a file browser does: one line, which has the outcome, of a count that is
// refused which it is, its value and its offset, and the version, title, composer, bars and tracks, all 0 where the file is refused.
#![tactic(auto)]

use shelves::view::words_of;
use std::io;

// One byte more than is taken, to tell a longer file.
const ROOM: usize = 4194305;

// One write, of the words that the library says.
fn print_shelf(rt: &impl Print, data: &[u8]) -> io::Result<()> {
    let shelf = words_of(shelves::shelf(data));
    let [outcome, which, value, offset, version, ..] = shelf;
    let [.., title, title_end, composer, composer_end, bars, tracks] = shelf;
    let value = value.cast_signed();
    println!(rt;
        "shelf outcome={outcome} which={which} value={value} offset={offset} version={version} title={title},{title_end} composer={composer},{composer_end} bars={bars} tracks={tracks}"
    )
}

fn show_shelf(rt: &(impl io::Input + Print + Eprint), room: &mut [u8; ROOM]) -> io::Result<()> {
    let Ok(data) = show::input::read(&mut rt.reader(), room) else {
        return rt.eprintln("shelf: standard input could not be read");
    };
    if data.len() == ROOM {
        return rt.eprintln("shelf: the file has more than 4,194,304 bytes");
    }
    if print_shelf(rt, data).is_err() {
        return rt.eprintln("shelf: standard output could not be written");
    }
    Ok(())
}

fn main(rt: HostRuntime) -> io::Result<()> {
    let mut room = [0; ROOM];
    show_shelf(&rt, &mut room)
}
