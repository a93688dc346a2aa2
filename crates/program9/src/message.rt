//! The text of what is said on standard error.
ghost use Rattle.std.specs.Prelude.{◌≡◌};
ghost use Rattle.program9.specs.Word.{dash_hint, expected_of, file_name_of, first_line_of, notice_text, reason_of, refuser_word, word_of};

use crate::ending::{ClashingSheets, Message, Notice, RefusedExport, Refuser, WhyUnopened};
use crate::want::advice_of;
use capture9::{CaptureKind, MOST_ROWS};
use seen9::WhyNothing;
use std::fmt;
use words9::Export;

impl fmt::Display for ClashingSheets {
    ghost use Rattle.std.specs.Prelude.{Some};
    ghost use Rattle.program9.specs.Text.{clash_text};

    ghost output = { λ told. Some (clash_text told) };

    fn fmt<W: fmt::Write>(&self, f: &mut fmt::Formatter<W>) -> fmt::Result {
        let (file, key) = (self.file.as_str(), self.key.as_str());
        let earlier = self.earlier.as_str();
        write!(f, "{file}: {key}: said otherwise in {earlier}")
    }
}

impl fmt::Display for RefusedExport {
    ghost use Rattle.std.specs.Prelude.{Some};
    ghost use Rattle.program9.specs.Text.{refused_text};

    ghost output = { λ refused. Some (refused_text refused) };

    fn fmt<W: fmt::Write>(&self, f: &mut fmt::Formatter<W>) -> fmt::Result {
        let (word, line, text) = (refuser_word(self.by), self.line, self.text.as_str());
        match &self.file {
            Some(file) => {
                let file = file.as_str();
                if line == 0 {
                    return write!(f, "ninecheck {word}: {file}: {text}");
                }
                write!(f, "ninecheck {word}: {file}: line {line}: {text}")
            }
            None if line == 0 => write!(f, "ninecheck {word}: {text}"),
            None => write!(f, "ninecheck {word}: line {line}: {text}"),
        }
    }
}

impl fmt::Display for Message {
    ghost use Rattle.std.specs.Prelude.{Some};
    ghost use Rattle.program9.specs.Text.{text_of};

    ghost output = { λ message. Some (text_of message) };

    fn fmt<W: fmt::Write>(&self, f: &mut fmt::Formatter<W>) -> fmt::Result {
        match self {
            Message::Nothing => Ok(()),
            Message::Unreadable(e) => {
                let (row, word, expected) = (e.row, word_of(e.kind), expected_of(e.kind, e.row));
                write!(f, "unreadable at row {row}: {word}\n{expected}")?;
                match &e.field {
                    Some(field) => write!(f, "; the row has {field}"),
                    None => Ok(()),
                }
            }
            Message::BadRow(bad) => {
                let (row, kind, file) = (bad.fault.row, bad.fault.kind, bad.file.as_str());
                let (word, expected) = (word_of(kind), expected_of(kind, row));
                write!(f, "unreadable at row {row}: {word}\n{file}: {expected}")?;
                match &bad.fault.field {
                    Some(field) => write!(f, "; the row has {field}"),
                    None => Ok(()),
                }
            }
            Message::NoHeader(no) => {
                let (file, found) = (file_name_of(&no.file), &no.found);
                write!(
                    f,
                    "unreadable at row 0: header\n{file}: expected the header time_us,wire,byte; the first line is {found}"
                )
            }
            Message::Refused(refused) => refused.fmt(f),
            Message::Notice(notice) => {
                let notice = notice_text(*notice);
                write!(f, "ninecheck convert log: {notice}")
            }
            Message::Lines(lines) => f.write_str(lines.as_str()),
            Message::NothingToDraw(why) => match why {
                WhyNothing::Yes => f.write_str("nothing to draw: the verdict is a yes"),
                WhyNothing::NoPartBreaks => f.write_str("nothing to draw: no part breaks"),
                WhyNothing::NoBreakAt(at) => {
                    let at = *at;
                    write!(f, "nothing to draw: there is no break at record {at}")
                }
            },
            Message::ReadFault(row) => {
                let row = *row;
                write!(
                    f,
                    "read fault at row {row}\nexpected a capture that can be read to its end, not a directory"
                )
            }
            Message::CannotRead(failed) => {
                let (row, file) = (failed.row, failed.file.as_str());
                write!(
                    f,
                    "read fault at row {row}\n{file}: expected a capture that can be read to its end, not a directory"
                )
            }
            Message::CannotOpen(unopened) => {
                let (first, reason) = (first_line_of(unopened.why), reason_of(unopened.why));
                let (file, hint) = (file_name_of(&unopened.file), dash_hint(&unopened.file));
                write!(f, "{first}\n{file}: {reason}{hint}")
            }
            Message::UnreadableSheet(unread) => {
                let (file, refusal) = (unread.file.as_str(), &unread.refusal);
                write!(f, "unreadable deck sheet\n{file}: {refusal}")
            }
            Message::ClashingSheets(clashing) => write!(f, "unreadable deck sheet\n{clashing}"),
            Message::CannotOpenSheet(unopened) => {
                let (file, reason) = (file_name_of(&unopened.file), reason_of(unopened.why));
                write!(f, "cannot open\n{file}: {reason}")
            }
            Message::TextFault => write!(f, "read fault\nthe text can't be read to its end"),
            Message::WriteFault => write!(
                f,
                "write fault\nstandard output is full or closed; it has only the first part of the report"
            ),
            Message::NoMemory => write!(
                f,
                "out of memory\na row may never end, or memory is short: see ulimit -v"
            ),
            Message::TooLarge(kept) => {
                let advice = advice_of(*kept);
                write!(f, "out of memory\n{advice}")
            }
        }
    }
}

/// What is wrong at a row, in a word or two.
pub fn word_of<'a>(kind: CaptureKind) -> &'a str
    ensures { result.now ≡ word_of kind }
{
    match kind {
        CaptureKind::Header => "header",
        CaptureKind::Fields => "fields",
        CaptureKind::Time => "time",
        CaptureKind::Wire => "wire",
        CaptureKind::Byte => "byte",
        CaptureKind::Backwards => "backwards",
        CaptureKind::TooMany => "too many rows",
        CaptureKind::Read => "read fault",
        CaptureKind::OutOfMemory => "out of memory",
    }
}

/// What was expected at a row where this is wrong.
fn expected_of<'a>(kind: CaptureKind, row: u32) -> &'a str
    ensures { result.now ≡ expected_of kind row }
{
    match kind {
        CaptureKind::Header => "expected the header time_us,wire,byte",
        CaptureKind::Fields => "expected three fields: time_us,wire,byte",
        CaptureKind::Time => "expected 1 to 15 decimal digits, the time in microseconds",
        CaptureKind::Wire => "expected C for the controller's wire, or D for the deck's",
        CaptureKind::Byte => "expected two hexadecimal digits",
        CaptureKind::Backwards => "expected a time no earlier than that of the row before",
        CaptureKind::TooMany if row == MOST_ROWS + 1 => {
            "expected at most 4000000 rows; --all judges a longer capture"
        }
        CaptureKind::TooMany => "expected at most 4294967294 rows",
        CaptureKind::Read => "expected a capture that can be read to its end",
        CaptureKind::OutOfMemory => "expected a row that ends",
    }
}

/// The first line where a capture was not opened.
fn first_line_of<'a>(why: WhyUnopened) -> &'a str
    ensures { result.now ≡ first_line_of why }
{
    match why {
        WhyUnopened::IsADirectory => "read fault at row 0",
        _ => "cannot open",
    }
}

/// A word that refuses something.
fn refuser_word<'a>(by: Refuser) -> &'a str
    ensures { result.now ≡ refuser_word by }
{
    match by {
        Refuser::Convert(Export::Sigrok) => "convert sigrok",
        Refuser::Convert(Export::Saleae) => "convert saleae",
        Refuser::Convert(Export::Log) => "convert log",
        Refuser::Split => "split",
    }
}

/// What there is to say of the times of a log.
fn notice_text<'a>(notice: Notice) -> &'a str
    ensures { result.now ≡ notice_text notice }
{
    match notice {
        Notice::WholeNumbers => {
            "all times are whole numbers, and were read as seconds; --unit ms or --unit us reads a counter"
        }
        Notice::Coarse =>
            "timestamps are coarser than 100 microseconds, so L1, L2 and B3 mean little",
    }
}

/// What a file is called.
fn file_name_of(file: &Option<String>) -> &str
    ensures { result.now ≡ file_name_of file.now }
{
    match file {
        Some(name) => name.as_str(),
        None => "standard input",
    }
}

/// What to do where a capture that was not opened is called `-`, which other programs read standard input for.
fn dash_hint<'a>(file: &Option<String>) -> &'a str
    ensures { result.now ≡ dash_hint file.now }
{
    match file {
        Some(name) => match name.as_bytes() {
            [b'-'] => "; leave it out to read standard input",
            _ => "",
        },
        None => "",
    }
}

/// Why a capture was not opened, as the system's own tools say it.
fn reason_of<'a>(why: WhyUnopened) -> &'a str
    ensures { result.now ≡ reason_of why }
{
    match why {
        WhyUnopened::NotFound => "No such file or directory",
        WhyUnopened::PermissionDenied => "Permission denied",
        WhyUnopened::IsADirectory => "Is a directory",
        WhyUnopened::NotADirectory => "Not a directory",
        WhyUnopened::FilesystemLoop => "Too many levels of symbolic links",
        WhyUnopened::Other => "The system cannot open it",
    }
}
