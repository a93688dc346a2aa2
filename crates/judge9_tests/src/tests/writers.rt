//! A writer for the tests.

use std::alloc::Global;
use std::io;
use std::io::Write;

/// What a writer does when its room is taken.
#[derive(Clone, Copy, Debug)]
pub(super) enum Then {
    Fail,
    Interrupt,
    TakeNone,
}

/// Takes a byte a call, until its room is taken.
#[derive(Drop)]
pub(super) struct Narrow {
    taken: Vec<u8>,
    room: usize,
    then: Then,
}

impl Narrow {
    pub(super) fn new(alloc: Global, room: usize, then: Then) -> Self {
        Narrow {
            taken: Vec::new(alloc),
            room,
            then,
        }
    }

    /// One with room enough.
    pub(super) fn roomy(alloc: Global) -> Self {
        Narrow::new(alloc, usize::MAX, Then::Fail)
    }

    /// What it took.
    pub(super) fn into_taken(self) -> Vec<u8> {
        self.taken
    }
}

impl Write for Narrow {
    fn write(&mut self, buf: &[u8]) -> io::Result<usize> {
        if self.room == 0 {
            return match self.then {
                Then::Fail => Err(io::Error::from(io::ErrorKind::BrokenPipe)),
                Then::Interrupt => Err(io::Error::from(io::ErrorKind::Interrupted)),
                Then::TakeNone => Ok(0),
            };
        }
        match buf.first() {
            Some(byte) => {
                self.taken.push(*byte)?;
                self.room -= 1;
                Ok(1)
            }
            None => Ok(0),
        }
    }

    fn flush(&mut self) -> io::Result<()> {
        Ok(())
    }
}
