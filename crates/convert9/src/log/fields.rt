//! The fields of a log's line.

use super::calendar::is_date;
use super::stamps::Stamp;

/// The fields of a line.
#[derive(Clone, Copy)]
pub(super) struct Fields<'a> {
    pub(super) stamp: Stamp<'a>,
    pub(super) port: &'a [u8],
    /// The bytes, parted by blanks.
    pub(super) bytes: &'a [u8],
}

/// The fields that a line has; none where it has no byte. A date that a blank parts from its clock is a field of its own.
pub(super) fn fields_of(line: &[u8]) -> Option<Fields<'_>> {
    let (first, rest) = split_field(line);
    let (stamp, rest) = if is_date(first.strip_prefix(b"[").unwrap_or(first)) {
        let (clock, rest) = split_field(rest);
        (Stamp::of_two(first, clock), rest)
    } else {
        (Stamp::of_one(first), rest)
    };
    let (port, bytes) = split_field(rest);
    let has_byte = bytes.iter().any(|byte| !is_blank(*byte));
    has_byte.then_some(Fields { stamp, port, bytes })
}

/// The first field of a text, and what comes after it; an empty one where there is none.
fn split_field(text: &[u8]) -> (&[u8], &[u8]) {
    let blanks = text.iter().take_while(|byte| is_blank(**byte)).count();
    let (_, text) = text.split_at(blanks.min(text.len()));
    let len = text.iter().take_while(|byte| !is_blank(**byte)).count();
    text.split_at(len.min(text.len()))
}

/// Whether this parts fields.
pub(super) fn is_blank(byte: u8) -> bool {
    matches!(byte, b' ' | b'\t')
}
