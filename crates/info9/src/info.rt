//! What a capture says of itself, as it is read.
ghost use Rattle.std.specs.Prelude.{◌≡◌, IfErr, IfOk, IfSome, IsTrue, None, Some};
ghost use Rattle.capture9.specs.Error.{is_of_text};
ghost use Rattle.capture9.specs.Fields.{greatest_limit};
ghost use Rattle.capture9.specs.declared.records.Standing.TheVariants.{Reading};
ghost use Rattle.info9.specs.Reading.{ReadsAll};

use crate::facts::put_facts;
use crate::signs::Signs;
use capture9::{CaptureError, GREATEST_LIMIT, Records};
use report9::{Beginning, JudgeError, write_all};
use std::alloc::{AllocError, Global};
use std::io::{Read, Write};
use tc25::Rate;

/// Writes what the capture that the reader gives says of itself: its facts, a line each, and then its signs. Nothing of the deck is
/// judged. The capture is read once, and no record is kept; it may have as many rows as one that is judged part by part. Times are read
/// at the rate, and where judging begins with the first command nothing is said of how the capture begins. All is written at the end,
/// and the writer is not flushed.
///
/// It is `Ok` only where each row can be read. A bad row and a reader that fails are `Capture`, a writer that fails `Write`, and want of
/// memory `OutOfMemory`, as for the reports. Nothing was written where it is not `Write`.
pub fn write_info<R: Read + Drop, W: Write>(
    alloc: Global,
    reader: R,
    writer: &mut W,
    rate: Rate,
    beginning: Beginning,
) -> Result<(), JudgeError>
    ensures { ReadsAll (R.remaining reader) result }
{
    let mut signs = Signs::new(rate, beginning);
    let mut records = Records::new(alloc, reader, GREATEST_LIMIT);
    take_all(&mut signs, &mut records)?;
    let mut text = Vec::new(alloc);
    put_info(&mut text, &signs)?;
    Ok(write_all(writer, text.as_slice())?)
}

/// Takes all records of a capture.
fn take_all<R: Read + Drop>(signs: &mut Signs, records: &mut Records<R>) -> Result<(), CaptureError>
    requires reading { records.old.standing ≡ Reading }
    requires limit { records.old.most_rows ≡ greatest_limit }
    requires none_given { records.old.given ≡ 0 }
    ensures all { IfOk result (λ _. IfSome records.old.rows (λ rows. rows.fault ≡ None)) }
    ensures refused { IfErr result (λ e. IfSome records.old.rows (λ rows. IsTrue (is_of_text e.kind) → rows.fault ≡ Some e)) }
{
    while let Some(record) = records.next()? {
        signs.take(&record);
    }
    Ok(())
}

/// Puts the facts, and then the signs.
fn put_info(text: &mut Vec<u8>, signs: &Signs) -> Result<(), AllocError> {
    put_facts(text, signs)?;
    for found in signs.signs() {
        if let Some(sign) = found {
            sign.put(text)?;
        }
    }
    Ok(())
}
