//! Writes a capture: what is written can be read, and holds exactly the records that were given.
ghost use Rattle.std.specs.Prelude.{◌≡◌, ◌≢◌, IfOk, OnOk, Err, None, false};
ghost use Rattle.std.specs.Io.KnownBytes.{Appends, Keeps};
ghost use Rattle.csv.specs.Writing as Csv;
ghost use Rattle.capture9.specs.Fields.{greatest_limit};
ghost use Rattle.capture9.specs.Rows.{rows_within};
ghost use Rattle.capture9.specs.SomeText.{CanBeRows};
ghost use Rattle.convert9.specs.Spelled.{CanTake, IsBegun, IsSame, IsTaken, IsWritten, letter, spelled};

use crate::digits::hex_digit;
use capture9::{GREATEST_LIMIT, LineByte, Wire};
use csv::{Error, ErrorKind, Writer};
use itoa::Buffer;
use std::io::Write;
use std::marker::Model;

/// Why a record, or a capture, was not written.
#[derive(Clone, Copy, PartialEq, Eq)]
pub enum RowFault {
    /// A capture can't have this record: its time is below that of the record before, or has more than fifteen digits, or there are
    /// 4,294,967,294 already.
    NoRecord,
    /// The writer failed.
    Write,
    /// A growth of memory was refused.
    OutOfMemory,
}

/// The least time that a capture can't have, in microseconds: it has sixteen digits.
pub(crate) const TOO_LATE_US: u64 = 1_000_000_000_000_000;

/// A capture that is written record by record.
///
/// A contract sees it as what was written, how many records that are, and the time of the last.
#[derive(Drop)]
pub struct CaptureWriter<W: Write + Drop> {
    rows: Writer<W>,
    count: u32,
    last_us: u64,
    /// Whether a write failed: then a first part of a row may stand there, and no other follows.
    has_failed: bool,
}

impl<W: Write + Drop> Model for CaptureWriter<W> {
    ghost use Rattle.std.specs.Prelude.{◌≡◌, ◌≤◌, false};
    ghost use Rattle.csv.specs.Writing as Csv;
    ghost use Rattle.capture9.specs.Fields.{greatest_limit};
    ghost use Rattle.convert9.specs.Spelled.{Written};

    ghost Value = { Written };

    ghost view = { λ c. record {
      text = Csv.text_written W.contents c.rows;
      count = c.count;
      last_us = c.last_us;
    } };

    ghost invariant = { λ c. (c.count ≤ greatest_limit) × (c.has_failed ≡ false
        → (Csv.writer_setup c.rows ≡ Csv.default_writer) × (Csv.fields_written c.rows ≡ 0) × (Csv.has_written c.rows ≡ false)) };
}

impl<W: Write + Drop> CaptureWriter<W> {
    /// A capture without a record: writes the header.
    pub fn begin(writer: W) -> Result<CaptureWriter<W>, RowFault>
        ensures begun { IfOk result (IsBegun (W.contents writer)) }
        ensures none { result ≢ Err RowFault.NoRecord }
    {
        let mut rows = Writer::from_writer(writer);
        let fields = [
            b"time_us".as_slice(),
            b"wire".as_slice(),
            b"byte".as_slice(),
        ];
        match rows.write_fields(&fields) {
            Ok(()) => Ok(CaptureWriter {
                rows,
                count: 0,
                last_us: 0,
                has_failed: false,
            }),
            Err(e) => Err(fault_of(&e)),
        }
    }

    /// Writes a record.
    ///
    /// * `Err(NoRecord)` exactly where a capture can't have it: nothing is written.
    /// * `Err(Write)` and `Err(OutOfMemory)` where its row can't be written, or one before could not: a first part of it may be.
    pub fn put(&mut self, record: LineByte) -> Result<(), RowFault>
        ensures taken { OnOk result (CanTake self.old «record» × IsTaken self.old «record» self.new) }
        ensures none { result ≡ Err RowFault.NoRecord → (¬ (CanTake self.old «record»)) × (self.new ≡ self.old) }
    {
        if self.count >= GREATEST_LIMIT
            || record.time_us < self.last_us
            || record.time_us >= TOO_LATE_US
        {
            return Err(RowFault::NoRecord);
        }
        if self.has_failed {
            return Err(RowFault::Write);
        }
        match write_row(&mut self.rows, record) {
            Ok(()) => {
                self.count += 1;
                self.last_us = record.time_us;
                Ok(())
            }
            Err(e) => {
                self.has_failed = true;
                Err(fault_of(&e))
            }
        }
    }

    /// Hands on what the writer may still hold.
    pub fn flush(&mut self) -> Result<(), RowFault>
        ensures { IsSame self.old self.new }
    {
        match self.rows.flush() {
            Ok(()) => Ok(()),
            Err(e) => Err(fault_of(&e)),
        }
    }

    /// The writer, which has the whole capture.
    pub fn end(self) -> Result<W, RowFault>
        ensures text { IfOk result (λ writer. Keeps self.text (W.contents writer)) }
        ensures none { result ≢ Err RowFault.NoRecord }
    {
        match self.rows.into_inner() {
            Ok(writer) => Ok(writer),
            Err(_) => Err(RowFault::Write),
        }
    }
}

/// Writes the capture of these records, and answers the writer, which has it whole: a text without a fault, whose records are these.
///
/// `Err(NoRecord)` only where a capture can't have them.
pub fn write_capture<W: Write + Drop>(writer: W, records: &[LineByte]) -> Result<W, RowFault>
    ensures read { IfOk result (λ w. IsWritten records.now (W.contents writer) (W.contents w)) }
    ensures none { result ≡ Err RowFault.NoRecord → ¬ (CanBeRows greatest_limit (record { records = records.now; fault = None })) }
{
    let mut capture = CaptureWriter::begin(writer)?;
    for record in records {
        capture.put(*record)?;
    }
    capture.end()
}

/// Writes the row of a record.
fn write_row<W: Write + Drop>(rows: &mut Writer<W>, record: LineByte) -> Result<(), Error>
    requires plain { Csv.writer_setup rows.old ≡ Csv.default_writer }
    requires begun { (Csv.fields_written rows.old ≡ 0) × (Csv.has_written rows.old ≡ false) }
    ensures text { OnOk result (Appends (Csv.text_written W.contents rows.old) (Csv.text_written W.contents rows.new) (Csv.row_text Csv.default_writer (spelled «record»))) }
    ensures plain { OnOk result (Csv.writer_setup rows.new ≡ Csv.default_writer) }
    ensures begun { OnOk result ((Csv.fields_written rows.new ≡ 0) × (Csv.has_written rows.new ≡ false)) }
{
    let mut time = Buffer::new();
    let byte = [hex_digit(record.byte / 16), hex_digit(record.byte % 16)];
    let wire = letter(record.wire);
    rows.write_fields(&[time.format(record.time_us).as_bytes(), &wire, &byte])
}

/// The letter of a wire.
fn letter(wire: Wire) -> [u8; 1]
    ensures { result ≡ letter wire }
{
    match wire {
        Wire::Controller => *b"C",
        Wire::Deck => *b"D",
    }
}

/// What an error of writing rows comes to.
fn fault_of(e: &Error) -> RowFault
    ensures { result ≢ RowFault.NoRecord }
{
    match e.kind() {
        ErrorKind::OutOfMemory => RowFault::OutOfMemory,
        _ => RowFault::Write,
    }
}
