//! The lines of an export.

use crate::fault::{ConvertFault, refused, refused_words};
use crate::kept::KeepFault;
use std::alloc::Global;
use std::io::{BufRead, BufReader, Read};

/// The lines of an export, one at a time.
#[derive(Drop)]
pub(crate) struct Lines<R: Read + Drop> {
    alloc: Global,
    reader: BufReader<R>,
    line: Vec<u8>,
    number: u64,
}

/// A line of an export, without its end.
#[derive(Clone, Copy)]
pub(crate) struct Line<'a> {
    pub(crate) alloc: Global,
    /// Counted from 1; 0 before the first.
    pub(crate) number: u64,
    pub(crate) text: &'a [u8],
}

impl<R: Read + Drop> Lines<R> {
    /// Those that a reader gives, of which none was read.
    pub(crate) fn of(alloc: Global, reader: R) -> Result<Lines<R>, ConvertFault> {
        Ok(Lines {
            alloc,
            reader: BufReader::new(alloc, reader)?,
            line: Vec::new(alloc),
            number: 0,
        })
    }

    /// Reads the next line. After the last it answers false, and the number stays that of the last.
    pub(crate) fn read_next(&mut self) -> Result<bool, ConvertFault> {
        self.line.clear();
        if self.reader.read_until(b'\n', &mut self.line)? == 0 {
            return Ok(false);
        }
        self.number = self.number.saturating_add(1);
        Ok(true)
    }

    /// The line that was read.
    pub(crate) fn line(&self) -> Line<'_> {
        let line = self.line.as_slice();
        let line = line.strip_suffix(b"\n").unwrap_or(line);
        Line {
            alloc: self.alloc,
            number: self.number,
            text: line.strip_suffix(b"\r").unwrap_or(line),
        }
    }
}

impl Line<'_> {
    /// The fault that something is wrong in this line, which is shown.
    pub(crate) fn refused(&self, what: &str) -> ConvertFault {
        refused(self.alloc, self.number, what, self.text)
    }

    /// The fault that something is wrong at this line, which is not shown.
    pub(crate) fn refused_unshown(&self, what: &str) -> ConvertFault {
        refused(self.alloc, self.number, what, b"")
    }

    /// The fault of the command line's words, seen at this line.
    pub(crate) fn refused_words(&self, what: &str) -> ConvertFault {
        refused_words(self.alloc, self.number, what, b"")
    }

    /// The fault of a byte of this line that can't be kept.
    pub(crate) fn unkept(&self, fault: KeepFault) -> ConvertFault {
        match fault {
            KeepFault::TooLong => self.refused("a time of more than fifteen digits: "),
            KeepFault::Falls => self.refused("a time below the one before on this wire: "),
            KeepFault::OutOfMemory => ConvertFault::OutOfMemory,
        }
    }
}
