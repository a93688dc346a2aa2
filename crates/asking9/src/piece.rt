//! A stretch of a capture that is judged by itself.

use memchr::{memchr, memchr_iter};
use program9::{Again, Cut};
use report9::Beginning;
use std::io::Read;

/// So many bytes are a block.
const BLOCK: usize = 0x1000;

/// Some lines of a capture, which are judged as a capture of their own.
#[derive(Clone, Copy)]
pub(crate) struct Piece<'t> {
    /// The capture's header; empty where the lines begin with it.
    header: &'t [u8],
    lines: &'t [u8],
    /// How many records of the capture stand before them.
    pub(crate) before: u32,
    /// With which of their records the judging begins.
    pub(crate) beginning: Beginning,
}

impl<'t> Piece<'t> {
    /// A whole capture, whose judging begins so.
    pub(crate) fn whole(text: &'t [u8], beginning: Beginning) -> Piece<'t> {
        Piece {
            header: b"",
            lines: text,
            before: 0,
            beginning,
        }
    }

    /// The records of a capture from one to another, or to the end where it has fewer; none where the first is not there. They are
    /// counted by line feeds, so of a capture with empty lines or with line feeds inside a field these are others.
    pub(crate) fn between(
        text: &'t [u8],
        first: u32,
        last: u32,
        beginning: Beginning,
    ) -> Option<Piece<'t>> {
        let before = first.checked_sub(1)?;
        let (header, rows) = text.split_at_checked(after_lines(text, 1)?)?;
        let rows = rows.get(after_lines(rows, before)?..)?;
        let lines = match after_lines(rows, last.saturating_sub(before)) {
            Some(end) => rows.get(..end)?,
            None => rows,
        };
        Some(Piece {
            header,
            lines,
            before,
            beginning,
        })
    }

    /// The records behind so many of the first; none where there are not so many, or where all would be left. A whole capture has its header
    /// among its lines, and is not cut.
    pub(crate) fn without(self, count: u32) -> Option<Piece<'t>> {
        if count == 0 || self.header.is_empty() {
            return None;
        }
        Some(Piece {
            lines: self.lines.get(after_lines(self.lines, count)?..)?,
            before: self.before.saturating_add(count),
            beginning: Beginning::FirstCommand,
            ..self
        })
    }

    /// How many bytes are read to judge it.
    pub(crate) fn len(self) -> usize {
        self.header.len().saturating_add(self.lines.len())
    }

    /// What reads it, where a reader of this type would be.
    pub(crate) fn reader<R: Read + Drop>(self) -> Again<'t, R> {
        Again::Cut(Cut::new(self.header, self.lines))
    }
}

/// Where the line stands before which there are so many; none where there are fewer.
fn after_lines(text: &[u8], count: u32) -> Option<usize> {
    let (mut at, left) = block_of(text, count);
    for _ in 0..left {
        let line = memchr(b'\n', text.get(at..)?)?;
        at = at.saturating_add(line).saturating_add(1);
    }
    Some(at)
}

/// Where the block of a text begins in which so many lines have ended, and how many of them end in it. Line feeds are counted a block at a
/// time, which takes a tenth of looking for each.
fn block_of(text: &[u8], count: u32) -> (usize, u32) {
    let (mut at, mut left) = (0usize, count);
    for block in text.chunks(BLOCK) {
        let ended = memchr_iter(b'\n', block).count() as u32;
        if ended >= left {
            break;
        }
        left = left.saturating_sub(ended);
        at = at.saturating_add(block.len());
    }
    (at, left)
}
