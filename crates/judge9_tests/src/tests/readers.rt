//! Readers for the tests.

use std::io;
use std::io::Read;

/// Gives its text a byte at a time, and fails once it has given so many bytes.
#[derive(Drop)]
pub(super) struct Cut<'a> {
    text: &'a [u8],
    left: usize,
}

impl<'a> Cut<'a> {
    pub(super) fn new(text: &'a str, left: usize) -> Self {
        Cut {
            text: text.as_bytes(),
            left,
        }
    }
}

impl Read for Cut<'_> {
    fn read(&mut self, buf: &mut [u8]) -> io::Result<usize> {
        if self.left == 0 {
            return Err(io::Error::from(io::ErrorKind::BrokenPipe));
        }
        match (self.text.split_first(), buf.first_mut()) {
            (Some((byte, rest)), Some(place)) => {
                *place = *byte;
                self.text = rest;
                self.left -= 1;
                Ok(1)
            }
            _ => Ok(0),
        }
    }
}

/// Gives a head, and then one text so many times; it counts the bytes that it gave.
#[derive(Drop)]
pub(super) struct Repeated<'a> {
    rest: &'a [u8],
    text: &'a [u8],
    times: u64,
    given: usize,
}

impl<'a> Repeated<'a> {
    pub(super) fn new(head: &'a str, text: &'a str, times: u64) -> Self {
        Repeated {
            rest: head.as_bytes(),
            text: text.as_bytes(),
            times,
            given: 0,
        }
    }

    /// How many bytes it gave.
    pub(super) fn given(&self) -> usize {
        self.given
    }
}

impl Read for Repeated<'_> {
    fn read(&mut self, buf: &mut [u8]) -> io::Result<usize> {
        if self.rest.is_empty() && self.times > 0 {
            self.times -= 1;
            self.rest = self.text;
        }
        let count = self.rest.read(buf)?;
        self.given = self.given.saturating_add(count);
        Ok(count)
    }
}
