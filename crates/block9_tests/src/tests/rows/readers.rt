//! Readers for the tests.

use std::io;
use std::io::Read;

/// Gives its text a byte at a time, and fails once it has given so many bytes.
#[derive(Drop)]
pub(crate) struct Cut<'a> {
    text: &'a [u8],
    left: usize,
}

impl<'a> Cut<'a> {
    pub(crate) fn new(text: &'a [u8], left: usize) -> Self {
        Cut { text, left }
    }
}

impl Read for Cut<'_> {
    fn read(&mut self, buf: &mut [u8]) -> io::Result<usize> {
        if self.left == 0 {
            return Err(io::Error::from(io::ErrorKind::BrokenPipe));
        }
        match (self.text.split_first(), buf.first_mut()) {
            (Some((byte, rest)), Some(place)) => {
                *place = *byte;
                self.text = rest;
                self.left -= 1;
                Ok(1)
            }
            _ => Ok(0),
        }
    }
}

/// Gives a head, and then one line a read so many times, and counts how often it was asked.
#[derive(Drop)]
pub(crate) struct Repeated<'a> {
    rest: &'a [u8],
    line: &'a [u8],
    times: u64,
    reads: u32,
}

impl<'a> Repeated<'a> {
    pub(crate) fn new(head: &'a [u8], line: &'a [u8], times: u64) -> Self {
        Repeated {
            rest: head,
            line,
            times,
            reads: 0,
        }
    }

    /// How often it was asked.
    pub(crate) fn reads(&self) -> u32 {
        self.reads
    }
}

impl Read for Repeated<'_> {
    fn read(&mut self, buf: &mut [u8]) -> io::Result<usize> {
        self.reads = self.reads.saturating_add(1);
        if self.rest.is_empty() && self.times > 0 {
            self.times -= 1;
            self.rest = self.line;
        }
        self.rest.read(buf)
    }
}
