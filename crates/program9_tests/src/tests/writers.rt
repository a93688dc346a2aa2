//! A writer that takes a byte a call, and fails when it is told to.

use crate::tests::same;
use std::alloc::Global;
use std::io::{self, Write};
use std::process::Abort;

/// Takes a byte a call until its room is taken, and fails then. Its flush fails where it is told so. It counts the
/// writes, those that failed, and the flushes.
#[derive(Drop)]
pub(super) struct Narrow {
    pub taken: Vec<u8>,
    room: usize,
    can_flush: bool,
    pub writes: usize,
    pub failures: usize,
    pub flushes: usize,
}

impl Narrow {
    /// A writer with this room, whose flush does not fail.
    pub(super) fn new(alloc: Global, room: usize) -> Self {
        Narrow {
            taken: Vec::new(alloc),
            room,
            can_flush: true,
            writes: 0,
            failures: 0,
            flushes: 0,
        }
    }

    /// A writer that takes all, and whose flush fails.
    pub(super) fn that_fails_to_flush(alloc: Global) -> Self {
        Narrow {
            taken: Vec::new(alloc),
            room: usize::MAX,
            can_flush: false,
            writes: 0,
            failures: 0,
            flushes: 0,
        }
    }
}

impl Write for Narrow {
    fn write(&mut self, bytes: &[u8]) -> io::Result<usize> {
        self.writes = self.writes.saturating_add(1);
        if self.taken.len() >= self.room {
            self.failures = self.failures.saturating_add(1);
            return Err(io::Error::from(io::ErrorKind::Interrupted));
        }
        match bytes.first() {
            Some(byte) => {
                self.taken.push(*byte)?;
                Ok(1)
            }
            None => Ok(0),
        }
    }

    fn flush(&mut self) -> io::Result<()> {
        self.flushes = self.flushes.saturating_add(1);
        if self.can_flush {
            Ok(())
        } else {
            Err(io::Error::from(io::ErrorKind::Other))
        }
    }
}

/// Holds what a writer took, how many of its writes failed, and how often it was flushed.
pub(super) fn took(
    rt: &impl Abort,
    writer: &Narrow,
    taken: &[u8],
    failures: usize,
    flushes: usize,
) {
    same(rt, writer.taken.as_slice(), taken, "what was taken");
    same(
        rt,
        (writer.failures, writer.flushes),
        (failures, flushes),
        taken,
    );
}

/// Holds that a writer took something that ends so, and was flushed once.
pub(super) fn took_to_the_end(rt: &impl Abort, writer: &Narrow, end: &[u8]) {
    same(
        rt,
        writer.taken.ends_with(end),
        true,
        writer.taken.as_slice(),
    );
    same(rt, writer.flushes, 1, end);
}
