//! A whole capture in memory.

ghost use Rattle.std.specs.Prelude.{[], ◌+◌, ◌≡◌, ◌≤◌, length, IfErr, IfSome, None};
ghost use Rattle.std.specs.Result.{result_err};
ghost use Rattle.capture9.specs.Capture.{WasRead};
ghost use Rattle.capture9.specs.Error.{IsAfter};
ghost use Rattle.capture9.specs.Fields.{most_rows};
ghost use Rattle.capture9.specs.Rows.{rows_of};

use crate::error::{CaptureError, CaptureKind};
use crate::line_byte::LineByte;
use crate::records::{MOST_ROWS, Records, Standing};
use std::alloc::Global;
use std::io::Read;

/// The records of a capture, up to its first fault.
#[derive(Drop)]
pub struct Capture {
    /// The records before the fault, in the order of the text.
    pub rows: Vec<LineByte>,
    /// Why no more was read, where it was not the end of the text.
    pub fault: Option<CaptureError>,
}

/// Reads the records of a text, up to its end or its first fault. The text may have `MOST_ROWS` data rows.
///
/// A fault is what `Records::next` refuses with, at its row. Where this list can grow no further it is
/// `OutOfMemory`, at the row of the record that found no room.
pub fn read_capture<R: Read + Drop>(alloc: Global, reader: R) -> Capture
    ensures rows { IfSome (R.remaining reader)
        (λ text. WasRead (rows_of text) result.rows.items result.fault) }
    ensures place { IfSome result.fault (λ e. IsAfter most_rows result.rows.items e) }
    ensures limit { length result.rows.items ≤ most_rows }
{
    let mut records = Records::new(alloc, reader, MOST_ROWS);
    let mut rows = Vec::new(alloc);
    let fault = read_into(&mut rows, &mut records).err();
    Capture { rows, fault }
}

/// Reads records into a list, up to the end of the text or the first refusal.
fn read_into<R: Read + Drop>(
    rows: &mut Vec<LineByte>,
    records: &mut Records<R>,
) -> Result<(), CaptureError>
    requires empty { rows.old.items ≡ [] }
    requires reading { records.old.standing ≡ Standing.Reading }
    requires none_given { records.old.given ≡ 0 }
    requires limit { records.old.most_rows ≡ most_rows }
    ensures rows { IfSome records.old.rows (λ all. WasRead all rows.new.items (result_err result)) }
    ensures place { IfErr result (λ e. IsAfter most_rows rows.new.items e) }
    ensures limit { length rows.new.items ≤ most_rows }
{
    while let Some(record) = records.next()? {
        if rows.push(record).is_err() {
            return Err(no_room(rows.len()));
        }
    }
    Ok(())
}

/// Out of memory at the row after so many.
fn no_room(held: usize) -> CaptureError
    requires { held ≤ most_rows }
    ensures { result ≡ record { kind = CaptureKind.OutOfMemory; row = held + 1; field = None } }
{
    CaptureError::of_row(CaptureKind::OutOfMemory, held as u32 + 1)
}
