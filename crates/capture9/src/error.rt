//! Why a capture can be read no further, and at which row.

ghost use Rattle.std.specs.Prelude.{◌≡◌, None, Some};
ghost use Rattle.capture9.specs.Shown.{shown_of};

use crate::shown_field::ShownField;
use std::error::Error;
use std::fmt;

/// What is wrong with a capture, or with its reading.
///
/// What a text must be is a choice of these rules. Where a row has several of these faults, the first of
/// this order is told: `Read` or `OutOfMemory`, whichever happened, and then `TooMany`, `Fields`, `Time`,
/// `Wire`, `Byte`, `Backwards`.
#[derive(Clone, Copy, Debug, PartialEq, Eq)]
pub enum CaptureKind {
    /// The first CSV record is not the three fields `time_us`, `wire` and `byte`, or there is none.
    Header,
    /// The row has another number of fields than three.
    Fields,
    /// The time is not 1 to 15 decimal digits.
    Time,
    /// The wire is not `C` (controller) or `D` (deck).
    Wire,
    /// The byte is not two hexadecimal digits, of either case.
    Byte,
    /// The time is below the time of the row before.
    Backwards,
    /// It is the data row after the last that there may be.
    TooMany,
    /// The reader failed.
    Read,
    /// A growth of memory was refused.
    OutOfMemory,
}

/// What is wrong with a capture, and where.
#[derive(Clone, Copy, Debug, PartialEq, Eq)]
pub struct CaptureError {
    /// What is wrong.
    pub kind: CaptureKind,
    /// The data row in question, counted from 1, and 0 while the header is being read.
    pub row: u32,
    /// The field that is wrong, where it is one: of `Time` and `Backwards` the time, of `Wire` the wire, of `Byte` the byte.
    pub field: Option<ShownField>,
}

impl CaptureError {
    /// A fault that is not that of one field.
    pub(crate) fn of_row(kind: CaptureKind, row: u32) -> CaptureError
        ensures { result ≡ record { kind = kind; row = row; field = None } }
    {
        CaptureError {
            kind,
            row,
            field: None,
        }
    }

    /// The fault of this field.
    pub(crate) fn of_field(kind: CaptureKind, row: u32, field: &[u8]) -> CaptureError
        ensures { result ≡ record { kind = kind; row = row; field = Some (shown_of field.now) } }
    {
        CaptureError {
            kind,
            row,
            field: Some(ShownField::of(field)),
        }
    }
}

impl fmt::Display for CaptureError {
    ghost use Rattle.std.specs.Prelude.{Some};
    ghost use Rattle.capture9.specs.ErrorText.{text_of};

    ghost output = { λ e. Some (text_of e) };

    fn fmt<W: fmt::Write>(&self, f: &mut fmt::Formatter<W>) -> fmt::Result {
        let row = self.row;
        match self.kind {
            CaptureKind::Header => write!(f, "the header is not time_us,wire,byte"),
            CaptureKind::Fields => write!(f, "row {row} has another number of fields than three"),
            CaptureKind::Time => write!(f, "the time of row {row} is not 1 to 15 decimal digits"),
            CaptureKind::Wire => write!(f, "the wire of row {row} is neither C nor D"),
            CaptureKind::Byte => write!(f, "the byte of row {row} is not two hexadecimal digits"),
            CaptureKind::Backwards => write!(
                f,
                "the time of row {row} is below that of the row before"
            ),
            CaptureKind::TooMany => write!(f, "row {row} is more than a capture may have"),
            CaptureKind::Read => write!(f, "the reader failed at row {row}"),
            CaptureKind::OutOfMemory => write!(f, "out of memory at row {row}"),
        }
    }
}

impl Error for CaptureError {}
