// A page of text in front of a writer. What is written is handed on where a line ends and the page has room for no other, so that
// many lines are one write. It asks for no memory. A page that could not be written is told when the rest is flushed; those after it
// are written all the same.
ghost use Rattle.std.specs.Prelude.{◌≡◌};

use std::io::Write;
use std::{io, mem};

const PAGE: usize = 65536;

// A page with fewer bytes than this has room for any line.
const FULL: usize = 61440;

#[derive(Drop)]
pub struct Page<W: Write + Drop> {
    to: W,
    text: [u8; PAGE],
    at: usize,
    told: io::Result<()>,
}

impl<W: Write + Drop> Page<W> {
    pub fn new(to: W) -> Page<W>
        ensures writer { result.to ≡ to }
        ensures empty { result.at ≡ 0 }
    {
        Page {
            to,
            text: [0; PAGE],
            at: 0,
            told: Ok(()),
        }
    }

    // Hands on what the page holds.
    fn send(&mut self) {
        let n = self.at.min(PAGE);
        self.at = 0;
        if let Err(error) = self.to.write_all(&self.text[..n]) {
            self.told = Err(error);
        }
    }
}

impl<W: Write + Drop> Write for Page<W> {
    fn write(&mut self, bytes: &[u8]) -> io::Result<usize> {
        let at = self.at.min(PAGE);
        let n = bytes.len().min(PAGE - at);
        self.text[at..at + n].copy_from_slice(&bytes[..n]);
        self.at = at + n;
        if self.at == PAGE || FULL <= self.at && bytes[..n].ends_with(b"\n") {
            self.send();
        }
        Ok(n)
    }

    // Hands on the rest, and tells whether a page could not be written.
    fn flush(&mut self) -> io::Result<()> {
        self.send();
        self.to.flush()?;
        mem::replace(&mut self.told, Ok(()))
    }
}
