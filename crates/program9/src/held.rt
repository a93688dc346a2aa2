//! The bytes that a buffer holds back.
ghost use Rattle.std.specs.Prelude.{◌≡◌, ◌≢◌, ◌<◌, length, None, Some, [], IfErr, IfOk, IfSome, OnOk, true};
ghost use Rattle.std.specs.IoError.{error_kind};
ghost use Rattle.program9.specs.WholeLines.{HasNoLine, HoldsNoLine, IsLineEnd};

use memchr::memchr;
use std::alloc::{AllocError, Global};
use std::io;

/// The bytes that are held back, and until when.
#[derive(Drop)]
pub(crate) struct Held {
    pub(crate) bytes: Vec<u8>,
    /// Whether each line is handed on as soon as it is complete.
    pub(crate) line_buffered: bool,
    /// The error of the write that failed.
    pub(crate) failed: Option<io::ErrorKind>,
    ghost no_line: { HoldsNoLine line_buffered failed bytes.items },
}

impl Held {
    /// No bytes, and room for so many.
    pub(crate) fn new(
        alloc: Global,
        capacity: usize,
        line_buffered: bool,
    ) -> Result<Held, AllocError>
        ensures empty { IfOk result (λ h. h.bytes.items ≡ []) }
        ensures line_buffered { IfOk result (λ h. h.line_buffered ≡ line_buffered) }
    {
        let bytes = Vec::with_capacity(alloc, capacity)?;
        Ok(Held {
            bytes,
            line_buffered,
            failed: None,
        })
    }

    /// The error of the write that failed before, where one did.
    pub(crate) fn earlier_error(&self) -> io::Result<()>
        ensures ok { OnOk result (self.now.failed ≡ None) }
        ensures err { IfErr result (λ e. self.now.failed ≡ Some (error_kind e)) }
    {
        match self.failed {
            None => Ok(()),
            Some(kind) => Err(io::Error::from(kind)),
        }
    }

    /// Where these bytes end a line that is to be handed on.
    pub(crate) fn line_end(&self, bytes: &[u8]) -> Option<usize>
        ensures first { IfSome result (λ at. IsLineEnd bytes.now at × (self.now.line_buffered ≡ true)) }
        ensures none { result ≡ None → self.now.line_buffered ≡ true → HasNoLine bytes.now }
    {
        if !self.line_buffered {
            return None;
        }
        memchr(b'\n', bytes)
    }
}
