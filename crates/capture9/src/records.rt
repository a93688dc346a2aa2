//! The records of a text, one at a time.

ghost use Rattle.std.specs.Prelude.{◌≡◌, ◌≢◌, ◌⊎◌, ℕ, Err, ◌+◌, ◌≤◌, ◌↔◌, true, false, IfErr, IfNone, IfOk, IfSome, IsTrue, MatchBool, OnErr, OnOk, option_map};
ghost use Rattle.csv.specs.Reading.{ReadRecord, Ready, error_kind, is_flexible, reader_trim, took_first};
ghost use Rattle.csv.specs.declared.reader.Trim.TheVariants as untrimmed;
ghost use Rattle.csv.specs.Records.{fields_of};
ghost use Rattle.csv.specs.declared.error.ErrorKind.TheVariants.{OutOfMemory};
ghost use Rattle.capture9.specs.Error.{is_of_text};
ghost use Rattle.capture9.specs.Fields.{greatest_limit};
ghost use Rattle.capture9.specs.Working.{IsPlain, PassesHeader, TakesFields, unread_records};
ghost use Rattle.capture9.specs.Records.{GivesEnd, GivesRecord, GivesRefusal};
ghost use Rattle.capture9.specs.Rows.{row_fault, row_of, rows_within};

use crate::error::{CaptureError, CaptureKind};
use crate::fields;
use crate::line_byte::LineByte;
use csv::{ByteRecord, ErrorKind, Reader, ReaderBuilder};
use std::alloc::Global;
use std::io::Read;
use std::marker::Model;

/// Whether a `Records` reads on, as a contract sees it.
#[derive(Clone, Copy, PartialEq, Eq)]
pub enum Standing {
    /// It reads on.
    Reading,
    /// The text has ended.
    Ended,
    /// Reading was refused.
    Refused(CaptureError),
}

/// The most data rows of a capture where no other limit is given.
pub const MOST_ROWS: u32 = 4_000_000;

/// The greatest limit that can be given: the row after it still has a number.
pub const GREATEST_LIMIT: u32 = u32::MAX - 1;

/// How far in the text a `Records` has come.
#[derive(Clone, Copy)]
enum Stage {
    /// The header is the next CSV record.
    BeforeHeader,
    /// The header was read, and a data row is next.
    InRows,
    /// The text has ended.
    Ended,
    /// Reading was refused.
    Refused(CaptureError),
}

/// The records of a capture's text, read one at a time.
///
/// A contract sees it as what is still to come of the text's rows, how many there may be, the number of records given, whether
/// the header was read, the time of the last record, whether it reads on, and the reader as it stands.
#[derive(Drop)]
pub struct Records<R: Read + Drop> {
    reader: Reader<R>,
    row: ByteRecord,
    most_rows: u32,
    given: u32,
    last_time: u64,
    stage: Stage,
}

impl<R: Read + Drop> Model for Records<R> {
    ghost use Rattle.capture9.specs.Records.{Progress};

    ghost Value = { Progress R };

    ghost use Rattle.csv.specs.Reading.{reader_source};
    ghost use Rattle.capture9.specs.Working.{HoldsInRecords, is_past_header, rows_to_come, standing_at, unread_records};

    ghost view = { λ r. record {
      rows = rows_to_come r.most_rows r.stage r.given r.last_time (unread_records R.remaining r.reader);
      most_rows = r.most_rows;
      given = r.given;
      is_headed = is_past_header r.stage;
      last_time = r.last_time;
      standing = standing_at r.stage;
      source = reader_source r.reader;
    } };

    ghost invariant = { λ r. HoldsInRecords r.most_rows r.stage r.given r.last_time r.reader };
}

impl<R: Read + Drop> Records<R> {
    /// The records of the text that a reader gives, of which there may be `most_rows`, at most `GREATEST_LIMIT`.
    /// It reads nothing yet, and takes no memory.
    pub fn new(alloc: Global, reader: R, most_rows: u32) -> Records<R>
        requires { most_rows ≤ greatest_limit }
        ensures { result ≡ record {
          rows = option_map (rows_within most_rows) (R.remaining reader);
          most_rows = most_rows;
          given = 0;
          is_headed = false;
          last_time = 0;
          standing = Standing.Reading;
          source = reader;
        } }
    {
        Records {
            // A row may have any number of fields here, since a rule of the rows limits it. `csv` itself takes
            // a byte order mark before the header away, so it is no part of the text.
            reader: ReaderBuilder::new()
                .has_headers(false)
                .flexible(true)
                .from_reader(alloc, reader),
            row: ByteRecord::new(alloc),
            most_rows,
            given: 0,
            last_time: 0,
            stage: Stage::BeforeHeader,
        }
    }

    /// Gives the next record of the text, or None after the last.
    ///
    /// A refusal is `Read` where the reader fails, `OutOfMemory` where there is no room for the row, and
    /// else the first rule that the row breaks. Its row is the data row in question, counted from 1, and
    /// 0 while the header is being read, which the first call does.
    ///
    /// After the end it gives None each time, and after a refusal the same refusal each time, and reads
    /// no more. A call asks `csv` for one record, and the first call for the header too. So `csv` is asked
    /// for at most two records more than there may be rows: the header, and one row too many.
    #[inline(always)] // each loop over records calls it, and else it would be inlined in none
    pub fn next(&mut self) -> Result<Option<LineByte>, CaptureError>
        ensures given { IfOk result (λ o. IfSome o (λ r. GivesRecord self.old r self.new)) }
        ensures ended { IfOk result (λ o. IfNone o (GivesEnd self.old self.new)) }
        ensures refused { IfErr result (λ e. GivesRefusal self.old e self.new) }
        ensures after_end { self.old.standing ≡ Standing.Ended
            → (result ≡ Ok None) × (self.new ≡ self.old) }
        ensures after_refusal { (e : CaptureError) → self.old.standing ≡ Standing.Refused e
            → (result ≡ Err e) × (self.new ≡ self.old) }
        ensures within { self.new.given ≤ self.new.most_rows }
    {
        if !matches!(self.stage, Stage::InRows) && !self.enter_rows()? {
            return Ok(None);
        }
        self.read_row()
    }

    /// How many records were given.
    pub fn given(&self) -> u32
        ensures { result ≡ self.now.given }
    {
        self.given
    }

    /// Comes to the data rows, by reading the header where that was not yet done, and answers true. After the end it
    /// answers false, and after a refusal it gives the same refusal again.
    #[inline(always)] // else the room for its result is cleared before each record
    fn enter_rows(&mut self) -> Result<bool, CaptureError>
        ensures entered { IfOk result
            (λ b. MatchBool b (PassesHeader self.old self.new) (GivesEnd self.old self.new)) }
        ensures refused { IfErr result (λ e. GivesRefusal self.old e self.new) }
        ensures after_end { self.old.standing ≡ Standing.Ended
            → (result ≡ Ok false) × (self.new ≡ self.old) }
        ensures after_refusal { (e : CaptureError) → self.old.standing ≡ Standing.Refused e
            → (result ≡ Err e) × (self.new ≡ self.old) }
    {
        if is_before_header(&self.stage) {
            self.read_header()?;
            return Ok(true);
        }
        match self.stage {
            Stage::BeforeHeader | Stage::InRows => Ok(true),
            Stage::Ended => Ok(false),
            Stage::Refused(error) => return Err(error),
        }
    }

    /// Reads the first CSV record, which has to be the header.
    #[inline(always)] // else the room for its result is cleared before each record
    fn read_header(&mut self) -> Result<(), CaptureError>
        requires reading { self.old.standing ≡ Standing.Reading }
        requires first { self.old.is_headed ≡ false }
        ensures ok { OnOk result (PassesHeader self.old self.new) }
        ensures err { IfErr result (λ e. GivesRefusal self.old e self.new) }
        ensures unread { OnErr result (self.new.is_headed ≡ false) }
    {
        let kind = match read_record(&mut self.reader, &mut self.row) {
            Ok(found) => {
                if found && fields::is_header(&self.row) {
                    self.stage = Stage::InRows;
                    return Ok(());
                }
                CaptureKind::Header
            }
            Err(kind) => kind,
        };
        Err(refuse(&mut self.stage, CaptureError::of_row(kind, 0)))
    }

    /// Reads the next CSV record, which is a data row.
    #[inline(always)] // else each record is handed on through memory
    fn read_row(&mut self) -> Result<Option<LineByte>, CaptureError>
        requires reading { self.old.standing ≡ Standing.Reading }
        requires headed { self.old.is_headed ≡ true }
        ensures given { IfOk result (λ o. IfSome o (λ r. GivesRecord self.old r self.new)) }
        ensures ended { IfOk result (λ o. IfNone o (GivesEnd self.old self.new)) }
        ensures refused { IfErr result (λ e. GivesRefusal self.old e self.new) }
        ensures stays_headed { self.new.is_headed ≡ true }
        ensures within { self.new.given ≤ self.new.most_rows }
    {
        let number = self.given + 1;
        match read_record(&mut self.reader, &mut self.row) {
            Ok(true) => match fields::read_row(number, self.most_rows, self.last_time, &self.row) {
                Some(record) => {
                    self.given = number;
                    self.last_time = record.time_us;
                    Ok(Some(record))
                }
                None => {
                    refuse_row(&mut self.stage, number, self.most_rows, &self.row);
                    refusal(&self.stage)
                }
            },
            Ok(false) => {
                self.stage = Stage::Ended;
                Ok(None)
            }
            Err(kind) => Err(refuse(&mut self.stage, CaptureError::of_row(kind, number))),
        }
    }
}

/// Whether the header is the next CSV record.
#[cold]
#[inline(never)] // else each record goes by a table of the stages, which takes longer than one test
fn is_before_header(stage: &Stage) -> bool
    ensures { IsTrue result ↔ stage.now ≡ Stage.BeforeHeader }
{
    matches!(stage, Stage::BeforeHeader)
}

/// Reads the next CSV record into `row`, and answers whether there was one.
#[inline(always)] // it does no more than `read_fields`
fn read_record<R: Read + Drop>(
    reader: &mut Reader<R>,
    row: &mut ByteRecord,
) -> Result<bool, CaptureKind>
    requires { IsPlain reader.old }
    ensures plain { OnOk result (IsPlain reader.new) }
    ensures next { IfOk result (λ found. IfSome (unread_records R.remaining reader.old)
        (λ unread. TakesFields unread found (fields_of row.new) (unread_records R.remaining reader.new))) }
    ensures refused { IfErr result (λ k. is_of_text k ≡ false) }
{
    read_fields(reader, row)
}

/// Reads the next CSV record of any table into `row`, as `csv` does, and answers whether there was one. An error is `OutOfMemory` where
/// memory is refused, and else `Read`.
///
/// A program that reads other tables beside captures reads their rows by this too, with a reader of the same type. Then `csv` has one
/// caller, in which it is inlined. That it asks for no `Drop` keeps it one: each crate would bring a `Drop` of its own.
#[inline(never)] // so that it stands once, and not in each loop over records
pub fn read_fields<R: Read>(
    reader: &mut Reader<R>,
    row: &mut ByteRecord,
) -> Result<bool, CaptureKind>
    ensures reads { IfOk result (λ found. (reader_trim reader.old ≡ untrimmed.None) → Ready reader.old
        → ReadRecord R.remaining reader.old reader.new found (fields_of row.new)) }
    ensures ready { (reader_trim reader.old ≡ untrimmed.None) → OnOk result (took_first reader.new ≡ true) }
    ensures flexible { OnOk result (is_flexible reader.new ≡ is_flexible reader.old) }
    ensures refused { IfErr result (λ k. (k ≡ CaptureKind.OutOfMemory) ⊎ (k ≡ CaptureKind.Read)) }
{
    match reader.read_byte_record(row) {
        Ok(found) => Ok(found),
        Err(error) => Err(kind_of(&error)),
    }
}

/// What a failed read of `csv` is told as.
fn kind_of(error: &csv::Error) -> CaptureKind
    ensures memory { (result ≡ CaptureKind.OutOfMemory) ↔ (error_kind error.now ≡ OutOfMemory) }
    ensures read { (result ≡ CaptureKind.Read) ↔ (error_kind error.now ≢ OutOfMemory) }
{
    match error.kind() {
        ErrorKind::OutOfMemory => CaptureKind::OutOfMemory,
        _ => CaptureKind::Read,
    }
}

/// Marks that the data row with this number is refused, and for what. There may be `most_rows` rows.
#[cold]
#[inline(never)] // it answers nothing, so that no room for a fault is cleared before each record
fn refuse_row(stage: &mut Stage, number: u32, most_rows: u32, row: &ByteRecord)
    ensures { (before : ℕ) → IfErr (row_of most_rows number before (fields_of row.now))
        (λ k. stage.new ≡ Stage.Refused (row_fault number (fields_of row.now) k)) }
{
    *stage = Stage::Refused(fields::fault_in(number, most_rows, row));
}

/// The refusal that was marked.
#[inline(always)] // so that it is read where it stands
fn refusal(stage: &Stage) -> Result<Option<LineByte>, CaptureError>
    ensures { (e : CaptureError) → stage.now ≡ Stage.Refused e → result ≡ Err e }
{
    match stage {
        Stage::Refused(error) => Err(*error),
        _ => Ok(None),
    }
}

/// Marks a refusal, and answers it.
fn refuse(stage: &mut Stage, error: CaptureError) -> CaptureError
    ensures error { result ≡ error }
    ensures marked { stage.new ≡ Stage.Refused result }
{
    *stage = Stage::Refused(error);
    error
}
