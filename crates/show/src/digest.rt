// The digest of a dump: FNV-1a of 64 bits, by a writer that keeps nothing else of what is written.
use crate::Tables;
use model::Answer;
use std::io;
use std::io::Write;

const START: u64 = 0xcbf29ce484222325;

const PRIME: u64 = 0x100000001b3;

#[derive(Clone, Copy)]
struct Digest(u64);

impl Digest {
    fn new() -> Digest {
        Digest(START)
    }
}

impl Write for Digest {
    fn write(&mut self, bytes: &[u8]) -> io::Result<usize> {
        for byte in bytes {
            self.0 = (self.0 ^ u64::from(*byte)).wrapping_mul(PRIME);
        }
        Ok(bytes.len())
    }

    fn flush(&mut self) -> io::Result<()> {
        Ok(())
    }
}

// Of the dump of an answer and its tables.
pub fn of_dump(data: &[u8], answer: Answer, tables: Tables<'_>) -> u64 {
    let mut digest = Digest::new();
    // a digest takes whatever is written
    let _ = crate::dump(&mut digest, data, answer, tables);
    digest.0
}
