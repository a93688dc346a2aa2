//! Why an export was not converted, or a capture not split, to its end.

use crate::write::RowFault;
use std::alloc::{AllocError, Global};
use std::io;

/// Why an export was not converted to its end.
#[derive(Drop)]
pub enum ConvertFault {
    /// A word is wrong, or a line of the export.
    Refused(Refusal),
    /// The export can't be read to its end.
    Read,
    /// The capture can't be written.
    Write,
    /// A growth of memory was refused.
    OutOfMemory,
}

/// What is wrong, and where.
#[derive(Drop, PartialEq, Eq)]
pub struct Refusal {
    /// The number of the line, counted from 1; 0 before the first.
    pub line: u64,
    /// In what something is wrong.
    pub wrong: Wrong,
    /// What is wrong, in a line.
    pub text: String,
}

/// In what something is wrong.
#[derive(Clone, Copy, PartialEq, Eq)]
pub enum Wrong {
    /// The words of the command line.
    Words,
    /// The export, or the capture that is split.
    Export,
    /// A part of a split, which can't be made or written.
    Part,
}

/// The fault of the line with this number: what is wrong, and, as far as it helps, what stands there.
pub(crate) fn refused(alloc: Global, line: u64, what: &str, shown: &[u8]) -> ConvertFault {
    told(alloc, line, Wrong::Export, what, shown)
}

/// The fault of the command line's words, seen at the line with this number.
pub(crate) fn refused_words(alloc: Global, line: u64, what: &str, shown: &[u8]) -> ConvertFault {
    told(alloc, line, Wrong::Words, what, shown)
}

/// A refusal with these two texts, or that memory was refused for it.
fn told(alloc: Global, line: u64, wrong: Wrong, what: &str, shown: &[u8]) -> ConvertFault {
    match text_of(alloc, what, shown) {
        Ok(text) => ConvertFault::Refused(Refusal { line, wrong, text }),
        Err(_) => ConvertFault::OutOfMemory,
    }
}

/// What is wrong and what stands there, in one text. Of what is no UTF-8 each part is shown as a replacement character.
fn text_of(alloc: Global, what: &str, shown: &[u8]) -> Result<String, AllocError> {
    let mut text = String::from_str(alloc, what)?;
    let shown = String::from_utf8_lossy(alloc, shown)?;
    text.push_str(shown.as_str())?;
    Ok(text)
}

impl From<AllocError> for ConvertFault {
    fn from(_: AllocError) -> ConvertFault {
        ConvertFault::OutOfMemory
    }
}

impl From<io::Error> for ConvertFault {
    fn from(e: io::Error) -> ConvertFault {
        match e.kind() {
            io::ErrorKind::OutOfMemory => ConvertFault::OutOfMemory,
            _ => ConvertFault::Read,
        }
    }
}

impl From<RowFault> for ConvertFault {
    /// The fault of a capture that can't be written. The converters keep to what a capture can have, and refuse what it can't by the
    /// line where it stands.
    fn from(fault: RowFault) -> ConvertFault {
        match fault {
            RowFault::OutOfMemory => ConvertFault::OutOfMemory,
            RowFault::NoRecord | RowFault::Write => ConvertFault::Write,
        }
    }
}
