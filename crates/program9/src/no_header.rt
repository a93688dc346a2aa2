//! What is said of a file that can't be read; and of a capture without its header what stands in the place of it, and what that looks like.

ghost use Rattle.std.specs.Prelude.{◌≡◌, ◌<◌, length};
ghost use Rattle.program9.specs.Header.{fault_told, hint_of, told_in, with_file};

use crate::ending::{BadRow, FileRow, Message, Outcome};
use crate::first_bytes::MARK;
use capture9::{CaptureError, CaptureKind, ShownField};
use std::fmt;

/// A capture whose header is none.
#[derive(Drop, PartialEq, Eq)]
pub struct NoHeader {
    /// The file, by the name that the words give; standard input where there is none.
    pub file: Option<String>,
    /// What stands in the place of the header.
    pub found: FoundHeader,
}

/// What stands in the place of a capture's header. Its `Display` writes that line in quotes, and what to do about it.
#[derive(Clone, Copy, PartialEq, Eq)]
pub struct FoundHeader {
    /// The capture's first line that is not empty, as far as it is shown.
    pub line: ShownField,
    /// What the capture looks like.
    pub looks: LooksLike,
}

/// What a capture without a header looks like, by its first line: a guess, to send its reader on.
#[derive(Clone, Copy, PartialEq, Eq)]
pub enum LooksLike {
    /// There is no text in it.
    Empty,
    /// Rows of a capture, of which the header is missing.
    Rows,
    /// A header with the three columns, in another order, in capital letters, or with something else.
    Columns,
    /// A capture whose fields are parted by semicolons.
    Semicolons,
    /// The same by tabs.
    Tabs,
    /// Text in UTF-16, as an editor or a spreadsheet saves it.
    Utf16,
    /// A file that is packed by gzip.
    Gzip,
    /// One that is packed by zip, as the workbook of a spreadsheet and the recording of an analyser are.
    Zip,
    /// Text in JSON.
    Json,
    /// A page, or other text in HTML or XML.
    Markup,
    /// An export of a Saleae analyser.
    Saleae,
    /// What `sigrok-cli` prints.
    Sigrok,
    /// A log of a serial port.
    SerialLog,
    /// A line that begins with a byte order mark, which is one at the beginning of the file alone.
    LateMark,
    /// Nothing that is known.
    Other,
}

impl fmt::Display for FoundHeader {
    ghost use Rattle.std.specs.Prelude.{Some};
    ghost use Rattle.program9.specs.Header.{header_found};

    ghost output = { λ found. Some (header_found found) };

    fn fmt<W: fmt::Write>(&self, f: &mut fmt::Formatter<W>) -> fmt::Result {
        self.line.fmt(f)?;
        f.write_str(hint_of(self.looks))
    }
}

/// The end of a judging of this file, which is named where it can't be read; where the header is at fault, it is shown what stands in
/// its place.
pub(crate) fn with_file(end: Outcome, file: Option<String>, found: FoundHeader) -> Outcome
    ensures { result ≡ with_file file found end }
{
    let Outcome { status, message } = end;
    Outcome::new(status, told_in(message, file, found))
}

/// What is said of a file, with its name where it can't be read.
fn told_in(said: Message, file: Option<String>, found: FoundHeader) -> Message
    ensures { result ≡ told_in file found said }
{
    match (said, file) {
        (Message::Unreadable(e), file) => fault_told(e, file, found),
        (Message::ReadFault(row), Some(file)) => Message::CannotRead(FileRow { file, row }),
        (said, _) => said,
    }
}

/// The same of a bad row.
fn fault_told(e: CaptureError, file: Option<String>, found: FoundHeader) -> Message
    ensures { result ≡ fault_told file found e }
{
    match (e.kind, file) {
        (CaptureKind::Header, file) => Message::NoHeader(NoHeader { file, found }),
        (_, Some(file)) => Message::BadRow(BadRow { file, fault: e }),
        (_, None) => Message::Unreadable(e),
    }
}

/// What stands in the place of the header of a capture whose text begins with these bytes: those behind the byte order mark, if it has one.
pub(crate) fn found_in(first: &[u8]) -> FoundHeader {
    let line = first_line(first);
    FoundHeader {
        line: ShownField::of(line),
        looks: looks_of(first, line),
    }
}

/// The first line that is not empty; an empty one where there is none.
fn first_line(first: &[u8]) -> &[u8] {
    first
        .split(|byte| matches!(*byte, b'\n' | b'\r'))
        .find(|line| !line.is_empty())
        .unwrap_or(b"")
}

/// What a capture looks like that begins with these bytes, the first line of which is this one.
fn looks_of(first: &[u8], line: &[u8]) -> LooksLike {
    match first {
        [0x1F, 0x8B, ..] => LooksLike::Gzip,
        [b'P', b'K', 3, 4, ..] => LooksLike::Zip,
        _ if is_utf16(first) => LooksLike::Utf16,
        _ => line_looks(line),
    }
}

/// Whether a text is in UTF-16: with its mark, or by every other byte, which is 0 where a letter stands.
fn is_utf16(first: &[u8]) -> bool {
    match first {
        [0xFF, 0xFE, ..] | [0xFE, 0xFF, ..] => true,
        [one, 0, other, 0, ..] | [0, one, 0, other, ..] => *one != 0 && *other != 0,
        _ => false,
    }
}

/// What a capture looks like whose first line is this one.
fn line_looks(line: &[u8]) -> LooksLike {
    match line {
        [] => LooksLike::Empty,
        [b'<', ..] => LooksLike::Markup,
        [b'{', ..] | [b'['] | [b'[', b'{' | b'[' | b'"', ..] => LooksLike::Json,
        _ if line.contains(&b';') => LooksLike::Semicolons,
        _ if has(line, b"start_time") || has(line, b"Time [s]") => LooksLike::Saleae,
        _ if has(line, b"uart-") => LooksLike::Sigrok,
        _ if has(line, b",C,") || has(line, b",D,") => LooksLike::Rows,
        _ if line.starts_with(MARK) => LooksLike::LateMark,
        _ if is_log(line) => LooksLike::SerialLog,
        _ if line.contains(&b'\t') => LooksLike::Tabs,
        _ if has_columns(line) => LooksLike::Columns,
        _ => LooksLike::Other,
    }
}

/// Whether a line begins as one of a serial log does: with a digit, which a bracket may stand before, and with a blank behind it.
fn is_log(line: &[u8]) -> bool {
    let begins = matches!(line, [b'0'..=b'9', ..] | [b'[', b'0'..=b'9', ..]);
    begins && line.iter().any(|byte| matches!(*byte, b' ' | b'\t'))
}

/// Whether a line has the titles of a capture's columns.
fn has_columns(line: &[u8]) -> bool {
    has_title(line, b"time_us") && has_title(line, b"wire") && has_title(line, b"byte")
}

/// Whether these bytes stand somewhere in the line.
fn has(line: &[u8], mark: &[u8]) -> bool
    requires { 0 < length mark.now }
{
    line.windows(mark.len()).any(|part| part == mark)
}

/// Whether this title stands somewhere in the line, in small letters or capital ones.
fn has_title(line: &[u8], title: &[u8]) -> bool
    requires { 0 < length title.now }
{
    line.windows(title.len())
        .any(|part| part.eq_ignore_ascii_case(title))
}

/// What to do about it.
fn hint_of<'a>(looks: LooksLike) -> &'a str
    ensures { result.now ≡ hint_of looks }
{
    match looks {
        LooksLike::Empty => "; there is no text in it",
        LooksLike::Rows => ", which is a row: put the header before it",
        LooksLike::Columns => {
            "; write these three columns alone, in this order, in small letters and without blanks"
        }
        LooksLike::Semicolons =>
            ", with semicolons where a capture has commas: save it with commas",
        LooksLike::Tabs => ", with tabs where a capture has commas: save it with commas",
        LooksLike::Utf16 => ", in UTF-16: save it as UTF-8",
        LooksLike::Gzip => ", packed by gzip: unpack it, with gunzip",
        LooksLike::Zip => {
            ", packed by zip: unpack it, save a workbook (.xlsx) as CSV, or export a recording (.sr, .sal), see docs/CAPTURE.md"
        }
        LooksLike::Json => ", as JSON has: save it as CSV",
        LooksLike::Markup => ", as HTML or XML has: save it as CSV",
        LooksLike::Saleae => {
            ", as a Saleae export has: ninecheck convert saleae makes a capture of it"
        }
        LooksLike::Sigrok => {
            ", as sigrok-cli prints: ninecheck convert sigrok makes a capture of it"
        }
        LooksLike::SerialLog => {
            ", as a serial log has: ninecheck convert log makes a capture of it"
        }
        LooksLike::LateMark => {
            ", with a byte order mark that is not at the beginning of the file: take it out"
        }
        LooksLike::Other => "; ninecheck convert makes captures of exports, see docs/CAPTURE.md",
    }
}
