//! The records of a capture, read from CSV text: one captured byte a row, with its time and wire.
//!
//! The form of the text is a choice of these rules. Its first CSV record is the header
//! `time_us,wire,byte`, and each further one is a data row of three fields: the time in microseconds as
//! 1 to 15 decimal digits, the wire as `C` (controller) or `D` (deck), and the byte as two hexadecimal
//! digits of either case. Times never fall, and there are at most as many data rows as the limit given to
//! `Records::new`. What a CSV record is, with its quotes, line ends and skipped empty lines, is as `csv` says.
#![tactic(auto)]

mod capture;
mod error;
mod fields;
pub mod laws;
mod line_byte;
mod records;
mod shown_field;

pub use crate::capture::{Capture, read_capture};
pub use crate::error::{CaptureError, CaptureKind};
pub use crate::line_byte::{LineByte, Wire};
pub use crate::records::{GREATEST_LIMIT, MOST_ROWS, Records, read_fields};
pub use crate::shown_field::ShownField;
