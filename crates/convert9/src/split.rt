//! Cuts a capture into parts that begin between exchanges: NAME-001.csv, NAME-002.csv and so on.
//!
//! A part begins with a byte of the controller that follows one of the deck. Each part is a capture.

use crate::digits::number_up_to;
use crate::fault::{Refusal, Wrong};
use crate::write::{CaptureWriter, RowFault};
use capture9::{CaptureError, GREATEST_LIMIT, LineByte, MOST_ROWS, Records, Wire};
use itoa::Buffer;
use std::alloc::{AllocError, Global};
use std::io::{self, Read, Write};

/// The most rows of a part where the words say no other number, and the most that they can say: as many as a capture may have that is
/// judged to its first break.
const MOST_PART_ROWS: u64 = MOST_ROWS as u64;

/// What the words say of a split, as they stand.
#[derive(Clone, Copy)]
pub struct SplitWords<'a> {
    /// What the parts are called.
    pub name: Option<&'a str>,
    /// The most rows of a part, from 1 to 4,000,000.
    pub rows: Option<&'a str>,
}

/// What became of a split.
#[derive(Drop)]
pub struct Split {
    /// How many parts there are now. Where it ended early, all but the last are whole, and each is a capture.
    pub parts: u32,
    /// Why it ended early, where it did.
    pub fault: Option<SplitFault>,
}

/// Why a split ended early.
#[derive(Drop)]
pub enum SplitFault {
    /// A word is wrong, the capture has no place to cut, or a part can't be made or written.
    Refused(Refusal),
    /// The capture can't be read on.
    Capture(CaptureError),
    /// A growth of memory was refused.
    OutOfMemory,
}

/// A capture that is cut.
#[derive(Drop)]
struct Splitter<'a, P: Write + Drop> {
    alloc: Global,
    name: &'a str,
    most_rows: u64,
    /// The rows since the last place to cut.
    waiting: Vec<LineByte>,
    before: Option<Wire>,
    /// How many rows were read.
    row: u32,
    part: Option<Part<P>>,
    parts: u32,
}

/// The part that is written.
#[derive(Drop)]
struct Part<P: Write + Drop> {
    capture: CaptureWriter<P>,
    rows: u64,
}

/// Cuts the capture that the reader gives. Each part is made by `make`, which is asked with its name and must not give a file that was
/// there before.
pub fn split_capture<R: Read + Drop, P: Write + Drop, F: Fn(&str) -> io::Result<P>>(
    alloc: Global,
    reader: R,
    words: SplitWords<'_>,
    make: &F,
) -> Split
    requires { F.IsAlwaysCallable make.now }
{
    let (name, most_rows) = match check_words(alloc, words) {
        Ok(both) => both,
        Err(fault) => {
            return Split {
                parts: 0,
                fault: Some(fault),
            };
        }
    };
    let mut splitter = Splitter {
        alloc,
        name,
        most_rows,
        waiting: Vec::new(alloc),
        before: None,
        row: 0,
        part: None,
        parts: 0,
    };
    let fault = splitter.take_all(reader, make).err();
    Split {
        parts: splitter.parts,
        fault,
    }
}

/// The name of the parts, and their most rows.
fn check_words<'a>(alloc: Global, words: SplitWords<'a>) -> Result<(&'a str, u64), SplitFault> {
    let name = words.name.unwrap_or("");
    if name.is_empty() {
        return Err(refused(alloc, 0, Wrong::Words, &["--to NAME is missing"]));
    }
    match rows_named(words.rows) {
        Some(most_rows) => Ok((name, most_rows)),
        None => {
            let pieces = [
                "--rows is no number from 1 to 4000000: ",
                words.rows.unwrap_or(""),
            ];
            Err(refused(alloc, 0, Wrong::Words, &pieces))
        }
    }
}

/// The fault that something is wrong at the line with this number, told in these pieces.
fn refused(alloc: Global, line: u64, wrong: Wrong, pieces: &[&str]) -> SplitFault {
    match put_together(alloc, pieces) {
        Ok(text) => SplitFault::Refused(Refusal { line, wrong, text }),
        Err(_) => SplitFault::OutOfMemory,
    }
}

/// The pieces in one text.
fn put_together(alloc: Global, pieces: &[&str]) -> Result<String, AllocError> {
    let mut text = String::new(alloc);
    for piece in pieces {
        text.push_str(piece)?;
    }
    Ok(text)
}

/// The most rows of a part that a word names.
fn rows_named(word: Option<&str>) -> Option<u64> {
    let word = word.unwrap_or("");
    if word.is_empty() {
        return Some(MOST_PART_ROWS);
    }
    number_up_to(word.as_bytes(), MOST_PART_ROWS)
}

/// The name of the part with this number, counted from 1.
pub fn part_name(alloc: Global, name: &str, number: u32) -> Result<String, AllocError> {
    let mut text = String::from_str(alloc, name)?;
    text.push_str(match number {
        0..=9 => "-00",
        10..=99 => "-0",
        _ => "-",
    })?;
    text.push_str(Buffer::new().format(number))?;
    text.push_str(".csv")?;
    Ok(text)
}

impl<P: Write + Drop> Splitter<'_, P> {
    /// Takes all records of the capture, and ends the last part.
    fn take_all<R: Read + Drop, F: Fn(&str) -> io::Result<P>>(
        &mut self,
        reader: R,
        make: &F,
    ) -> Result<(), SplitFault>
        requires { F.IsAlwaysCallable make.now }
    {
        let mut records = Records::new(self.alloc, reader, GREATEST_LIMIT);
        for _ in 0..u64::MAX {
            match records.next() {
                Ok(Some(record)) => self.take(record, make)?,
                Ok(None) => break,
                Err(e) => return Err(SplitFault::Capture(e)),
            }
        }
        self.hand_on(make)?;
        self.end_part()
    }

    /// Takes the next record.
    fn take<F: Fn(&str) -> io::Result<P>>(
        &mut self,
        record: LineByte,
        make: &F,
    ) -> Result<(), SplitFault>
        requires { F.IsAlwaysCallable make.now }
    {
        self.row = self.row.saturating_add(1);
        if record.wire == Wire::Controller && self.before == Some(Wire::Deck) {
            self.hand_on(make)?;
        }
        self.before = Some(record.wire);
        if self.waiting.len() as u64 >= self.most_rows {
            return Err(self.without_place());
        }
        match self.waiting.push(record) {
            Ok(()) => Ok(()),
            Err(_) => Err(SplitFault::OutOfMemory),
        }
    }

    /// Puts the rows that wait into the part, or into the next one where they find no room there.
    fn hand_on<F: Fn(&str) -> io::Result<P>>(&mut self, make: &F) -> Result<(), SplitFault>
        requires { F.IsAlwaysCallable make.now }
    {
        let more = self.waiting.len() as u64;
        let has_room = match &self.part {
            Some(part) => part.rows.saturating_add(more) <= self.most_rows,
            None => false,
        };
        if !has_room {
            self.end_part()?;
            self.begin_part(make)?;
        }
        let put = match &mut self.part {
            Some(part) => part.put_all(self.waiting.as_slice()),
            None => Ok(()),
        };
        self.waiting.clear();
        put.map_err(|fault| self.not_written(fault))
    }

    /// Begins the next part.
    fn begin_part<F: Fn(&str) -> io::Result<P>>(&mut self, make: &F) -> Result<(), SplitFault>
        requires { F.IsAlwaysCallable make.now }
    {
        let number = self.parts.saturating_add(1);
        let name = part_name(self.alloc, self.name, number)?;
        let file = match make(name.as_str()) {
            Ok(file) => file,
            Err(e) => return Err(self.not_made(name.as_str(), e.kind())),
        };
        self.parts = number;
        match CaptureWriter::begin(file) {
            Ok(capture) => self.part = Some(Part { capture, rows: 0 }),
            Err(fault) => return Err(self.not_written(fault)),
        }
        Ok(())
    }

    /// Ends the part that is written, where there is one.
    fn end_part(&mut self) -> Result<(), SplitFault> {
        match self.part.take() {
            Some(part) => match part.capture.end() {
                Ok(_) => Ok(()),
                Err(fault) => Err(self.not_written(fault)),
            },
            None => Ok(()),
        }
    }

    /// The fault that there are more rows between two places to cut than a part may have; the last row is one too many.
    fn without_place(&self) -> SplitFault {
        let mut digits = Buffer::new();
        let rows = digits.format(self.most_rows);
        self.refused(
            Wrong::Export,
            &["no place between exchanges in ", rows, " rows"],
        )
    }

    /// The fault that a part can't be made, for a reason of this kind.
    fn not_made(&self, name: &str, kind: io::ErrorKind) -> SplitFault {
        let why = match kind {
            io::ErrorKind::AlreadyExists => " is there already, and is left as it is",
            _ => " can't be written",
        };
        self.refused(Wrong::Part, &["the part ", name, why])
    }

    /// The fault that the last part can't be written, for this reason. The records of a capture are in order, so each part can have them.
    fn not_written(&self, fault: RowFault) -> SplitFault {
        if fault == RowFault::OutOfMemory {
            return SplitFault::OutOfMemory;
        }
        match part_name(self.alloc, self.name, self.parts) {
            Ok(name) => self.not_made(name.as_str(), io::ErrorKind::Other),
            Err(_) => SplitFault::OutOfMemory,
        }
    }

    /// The fault that something is wrong at the last row, told in these pieces.
    fn refused(&self, wrong: Wrong, pieces: &[&str]) -> SplitFault {
        refused(
            self.alloc,
            u64::from(self.row).saturating_add(1),
            wrong,
            pieces,
        )
    }
}

impl<P: Write + Drop> Part<P> {
    /// Writes these rows.
    fn put_all(&mut self, records: &[LineByte]) -> Result<(), RowFault> {
        for record in records {
            self.capture.put(*record)?;
        }
        self.rows = self.rows.saturating_add(records.len() as u64);
        Ok(())
    }
}

impl From<AllocError> for SplitFault {
    fn from(_: AllocError) -> SplitFault {
        SplitFault::OutOfMemory
    }
}
