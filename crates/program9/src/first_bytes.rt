//! The first bytes of a capture, kept beside its reading: what a message shows where its header is none.

ghost use Rattle.std.specs.Prelude.{◌≡◌};

use arrayvec::ArrayVec;
use std::io::{self, Read};

/// How many of the first bytes are kept: enough for a line of an export, or for what shows its kind.
const MOST_KEPT: usize = 64;

/// The byte order mark of UTF-8. It is none where something stands before it.
pub(crate) const MARK: &[u8] = b"\xEF\xBB\xBF";

/// A reader that keeps the first bytes that it gives.
#[derive(Drop)]
pub(crate) struct FirstBytes<R: Read + Drop> {
    reader: R,
    head: Head,
}

/// The first bytes of a capture.
#[derive(Drop)]
struct Head {
    /// Those from the first line on that is not empty.
    bytes: ArrayVec<u8, MOST_KEPT>,
    /// Whether empty lines come before them.
    are_behind_lines: bool,
}

impl<R: Read + Drop> FirstBytes<R> {
    /// The same reader, of which nothing was read yet.
    pub(crate) fn of(reader: R) -> FirstBytes<R>
        ensures { result.reader ≡ reader }
    {
        FirstBytes {
            reader,
            head: Head {
                bytes: ArrayVec::new(),
                are_behind_lines: false,
            },
        }
    }

    /// The first bytes that it gave, up to 64, without the ends of empty lines before them, and without a byte order mark at the very
    /// beginning.
    pub(crate) fn as_slice(&self) -> &[u8] {
        let bytes = self.head.bytes.as_slice();
        match bytes.strip_prefix(MARK) {
            Some(text) if !self.head.are_behind_lines => text,
            _ => bytes,
        }
    }
}

impl<R: Read + Drop> Read for FirstBytes<R> {
    ghost remaining = { λ r. R.remaining r.reader };

    fn read(&mut self, buf: &mut [u8]) -> io::Result<usize> {
        let taken = self.reader.read(buf)?;
        if !self.head.bytes.is_full() {
            self.head.keep(&buf[..taken]);
        }
        Ok(taken)
    }
}

impl Head {
    /// Keeps what there is room for, from the first line on that is not empty.
    fn keep(&mut self, bytes: &[u8]) {
        for byte in bytes {
            let ends_empty_line = self.bytes.is_empty() && matches!(*byte, b'\n' | b'\r');
            if ends_empty_line {
                self.are_behind_lines = true;
            } else {
                let _has_room = self.bytes.try_push(*byte);
            }
        }
    }
}
