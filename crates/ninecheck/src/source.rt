//! Where a capture is read from.

use std::io::{self, Read};

/// A file, or standard input: one type for both, so that the program has one judging. It tells its bytes where its
/// own reader does.
#[derive(Drop)]
pub enum Source<F: Read + Drop, S: Read + Drop> {
    /// A file that was opened.
    File(F),
    /// Standard input.
    Standard(S),
}

impl<F: Read + Drop, S: Read + Drop> Read for Source<F, S> {
    ghost use Rattle.ninecheck.specs.Source.{bytes_to_come};

    ghost remaining = { bytes_to_come F.remaining S.remaining };

    fn read(&mut self, place: &mut [u8]) -> io::Result<usize> {
        match self {
            Source::File(file) => file.read(place),
            Source::Standard(input) => input.read(place),
        }
    }
}
