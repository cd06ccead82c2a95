// An input such as standard input, as far as there is room for it.
use std::io;
use std::io::Read;

// The whole input, or as much as there is room for.
pub fn read<'a>(from: &mut impl Read, room: &'a mut [u8]) -> io::Result<&'a [u8]> {
    let mut n = 0;
    while n < room.len() {
        let more = from.read(&mut room[n..])?;
        if more == 0 {
            break;
        }
        n += more;
    }
    Ok(&room[..n])
}
