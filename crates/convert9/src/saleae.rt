//! A capture of the table that Saleae's Logic exports of two Async Serial analyzers, as CSV.
//!
//! Columns are found by their titles, and others are passed over: `name`, `type`, `start_time`, `data` and `error` in the newer form,
//! `Time [s]`, `Value`, `Parity Error` and `Framing Error` in the older one, with `Analyzer Name` where one file has both analyzers. An
//! older export without that column is one file for each analyzer: both are read in one, the controller's first. Times are cut to
//! whole microseconds; where one is below 0 all are moved by the same whole seconds.

use crate::digits::byte_of;
use crate::fault::{ConvertFault, refused_words};
use crate::kept::{KeepFault, Kept, Ties};
use crate::lines::Line;
use crate::range::TimeRange;
use crate::seconds::read_seconds_with_power;
use capture9::{CaptureKind, Wire, read_fields};
use csv::{ByteRecord, Reader, ReaderBuilder, Terminator};
use std::alloc::{AllocError, Global};
use std::io::{Read, Write};

/// What the words say of an export of Saleae's Logic, as they stand.
#[derive(Clone, Copy)]
pub struct SaleaeWords<'a> {
    /// The name of the controller's analyzer.
    pub controller: Option<&'a [u8]>,
    /// The name of the deck's.
    pub deck: Option<&'a [u8]>,
    /// The first time that is converted, in seconds as they stand in the export.
    pub from: Option<&'a [u8]>,
    /// The time from which on nothing is converted.
    pub to: Option<&'a [u8]>,
}

/// Where the columns stand.
#[derive(Clone, Copy)]
struct Columns {
    /// How many there are.
    count: usize,
    time: usize,
    byte: usize,
    /// The two columns that mark damage; in the newer form both are its only one.
    mark: usize,
    other_mark: usize,
    /// What a row is; the older form does not say.
    kind: Option<usize>,
    /// The analyzer; none where each has its own file.
    name: Option<usize>,
}

/// What is read of an export.
#[derive(Drop)]
struct Export<'a> {
    alloc: Global,
    words: SaleaeWords<'a>,
    range: TimeRange,
    columns: Columns,
    /// The wire of the file that is read, where each analyzer has its own.
    wire: Wire,
}

/// A row of the table, with what its refusal tells.
#[derive(Clone, Copy)]
struct Row<'a> {
    alloc: Global,
    number: u64,
    fields: &'a ByteRecord,
}

/// Reads an export of Saleae's Logic, and writes the capture. Where it is refused nothing is written.
pub fn convert_saleae<R: Read + Drop, W: Write + Drop>(
    alloc: Global,
    reader: R,
    writer: W,
    words: SaleaeWords<'_>,
) -> Result<(), ConvertFault> {
    let range = match TimeRange::named(words.from, words.to) {
        Ok(range) => range,
        Err(wrong) => return Err(refused_words(alloc, 0, wrong, b"")),
    };
    let mut kept = Kept::new(alloc);
    let mut rows = ReaderBuilder::new()
        .has_headers(false)
        .flexible(true)
        .terminator(Terminator::Any(b'\n')) // with a CR before it lines would be counted wrong
        .from_reader(alloc, reader);
    let last = read_table(alloc, &mut rows, words, range, &mut kept)?;
    let last = Line {
        alloc,
        number: last,
        text: b"",
    };
    kept.write(writer, last, range, Ties::ControllerFirst)
}

/// Reads the table, keeps its bytes, and answers the number of its last line.
fn read_table<R: Read + Drop>(
    alloc: Global,
    rows: &mut Reader<R>,
    words: SaleaeWords<'_>,
    range: TimeRange,
    kept: &mut Kept,
) -> Result<u64, ConvertFault> {
    let mut header = ByteRecord::new(alloc);
    if !read_row(rows, &mut header)? {
        return Ok(0);
    }
    let head = Row::of(alloc, &header);
    let columns = columns_of(&head)?;
    if columns.name.is_some() {
        check_names(&head, words)?;
    }
    let mut export = Export {
        alloc,
        words,
        range,
        columns,
        wire: Wire::Controller,
    };
    let last = export.take_all(rows, &head, kept)?;
    export.check_end(last)?;
    Ok(last)
}

/// Reads the next row that is no empty line: false after the last.
fn read_row<R: Read + Drop>(
    rows: &mut Reader<R>,
    row: &mut ByteRecord,
) -> Result<bool, ConvertFault> {
    for _ in 0..u64::MAX {
        match read_fields(rows, row) {
            Ok(false) => return Ok(false),
            Ok(true) if is_empty_line(row) => {}
            Ok(true) => return Ok(true),
            Err(kind) => return Err(fault_of(kind)),
        }
    }
    Ok(false)
}

/// What an error of reading rows comes to.
fn fault_of(kind: CaptureKind) -> ConvertFault {
    match kind {
        CaptureKind::OutOfMemory => ConvertFault::OutOfMemory,
        _ => ConvertFault::Read,
    }
}

/// Whether a row is a line of which only its CR is left.
fn is_empty_line(row: &ByteRecord) -> bool {
    row.len() == 1 && matches!(row.get(0), Some(b"\r"))
}

/// The number of the line that a row begins in.
fn number_of(row: &ByteRecord) -> u64 {
    match row.position() {
        Some(position) => position.line(),
        None => 0,
    }
}

/// Whether two rows have the same fields.
fn has_same_fields(row: &ByteRecord, other: &ByteRecord) -> bool {
    row.len() == other.len() && row.iter().eq(other.iter())
}

/// Where the columns of a table stand whose header this is.
fn columns_of(head: &Row<'_>) -> Result<Columns, ConvertFault> {
    let count = head.fields.len();
    if head.find(b"start_time").is_some() {
        let mark = head.column(b"error")?;
        return Ok(Columns {
            count,
            time: head.column(b"start_time")?,
            name: Some(head.column(b"name")?),
            kind: Some(head.column(b"type")?),
            byte: head.column(b"data")?,
            mark,
            other_mark: mark,
        });
    }
    Ok(Columns {
        count,
        time: head.column(b"Time [s]")?,
        name: head.find(b"Analyzer Name"),
        kind: None,
        byte: head.column(b"Value")?,
        mark: head.column(b"Parity Error")?,
        other_mark: head.column(b"Framing Error")?,
    })
}

/// Refuses words that don't name two analyzers, as a table with a column of names needs.
fn check_names(head: &Row<'_>, words: SaleaeWords<'_>) -> Result<(), ConvertFault> {
    let line = Line {
        alloc: head.alloc,
        number: head.number,
        text: b"",
    };
    let controller = words.controller.unwrap_or(b"");
    let deck = words.deck.unwrap_or(b"");
    if controller.is_empty() || deck.is_empty() {
        return Err(line.refused_words("--controller ANALYZER or --deck ANALYZER is missing"));
    }
    if controller == deck {
        return Err(line.refused_words("--controller and --deck are the same analyzer"));
    }
    Ok(())
}

impl Export<'_> {
    /// Takes the rows after the header, and answers the number of the last line.
    fn take_all<R: Read + Drop>(
        &mut self,
        rows: &mut Reader<R>,
        head: &Row<'_>,
        kept: &mut Kept,
    ) -> Result<u64, ConvertFault> {
        let mut last = head.number;
        let mut fields = ByteRecord::new(self.alloc);
        for _ in 0..u64::MAX {
            if !read_row(rows, &mut fields)? {
                break;
            }
            let row = Row::of(self.alloc, &fields);
            last = row.number;
            if has_same_fields(&fields, head.fields) {
                self.begin_file(&row)?;
            } else {
                self.take(&row, kept)?;
            }
        }
        Ok(last)
    }

    /// Goes on to the deck's file, whose header this row is.
    fn begin_file(&mut self, row: &Row<'_>) -> Result<(), ConvertFault> {
        if self.columns.name.is_some() {
            return Err(row.refused(
                "a second header; a table that names its analyzers has both wires, so give one file: ",
            ));
        }
        if self.wire == Wire::Deck {
            return Err(row.refused("a third file begins: "));
        }
        self.wire = Wire::Deck;
        Ok(())
    }

    /// Takes a row that is no header.
    fn take(&self, row: &Row<'_>, kept: &mut Kept) -> Result<(), ConvertFault> {
        let columns = self.columns;
        if row.fields.len() != columns.count {
            return Err(row.refused("not as many fields as the header: "));
        }
        let time_us = read_seconds_with_power(row.field(columns.time));
        if time_us.is_some_and(|time_us| !self.range.holds(time_us)) {
            return Ok(());
        }
        let byte = self.byte_of(row)?;
        let Some(time_us) = time_us else {
            return Err(row.refused(if has_clock(row.field(columns.time)) {
                "a time of day: export again with times in seconds, not as ISO 8601: "
            } else {
                "no time in seconds: "
            }));
        };
        let Some(wire) = self.wire_of(row) else {
            return Err(row.refused("neither the controller's analyzer nor the deck's: "));
        };
        kept.keep(time_us, wire, byte)
            .map_err(|fault| row.unkept(fault))
    }

    /// The byte of a row. Refused is one with a mark of damage, and what is no byte.
    fn byte_of(&self, row: &Row<'_>) -> Result<u8, ConvertFault> {
        let columns = self.columns;
        if !row.field(columns.mark).is_empty() || !row.field(columns.other_mark).is_empty() {
            return Err(row.refused("a damaged byte: "));
        }
        if columns
            .kind
            .is_some_and(|kind| row.field(kind) != b"data".as_slice())
        {
            return Err(row.refused("a row that is no byte: "));
        }
        match row
            .field(columns.byte)
            .strip_prefix(b"0x")
            .and_then(byte_of)
        {
            Some(byte) => Ok(byte),
            None => Err(row.refused("no byte of the form 0x20: ")),
        }
    }

    /// The wire of a row.
    fn wire_of(&self, row: &Row<'_>) -> Option<Wire> {
        let Some(name) = self.columns.name else {
            return Some(self.wire);
        };
        let name = Some(row.field(name));
        if name == self.words.controller {
            Some(Wire::Controller)
        } else if name == self.words.deck {
            Some(Wire::Deck)
        } else {
            None
        }
    }

    /// Refuses an export of one file, where there are to be two; this is the number of its last line.
    fn check_end(&self, number: u64) -> Result<(), ConvertFault> {
        if self.columns.name.is_some() || self.wire == Wire::Deck {
            return Ok(());
        }
        let last = Line {
            alloc: self.alloc,
            number,
            text: b"",
        };
        Err(last.refused_unshown("the deck's file is missing"))
    }
}

/// Whether a text has a clock somewhere: a digit, a colon, and two digits.
fn has_clock(text: &[u8]) -> bool {
    text.windows(4).any(|part| match part {
        [hour, b':', ten, unit] => [hour, ten, unit].iter().all(|byte| byte.is_ascii_digit()),
        _ => false,
    })
}

impl<'a> Row<'a> {
    /// The row that has these fields.
    fn of(alloc: Global, fields: &'a ByteRecord) -> Row<'a> {
        Row {
            alloc,
            number: number_of(fields),
            fields,
        }
    }
}

impl Row<'_> {
    /// A field; an empty one where the row has none there. A CR at the end of the row is none of it.
    fn field(&self, place: usize) -> &[u8] {
        let field = match self.fields.get(place) {
            Some(field) => field,
            None => b"",
        };
        if place.saturating_add(1) == self.fields.len() {
            field.strip_suffix(b"\r").unwrap_or(field)
        } else {
            field
        }
    }

    /// Where the last field with this title stands.
    fn find(&self, title: &[u8]) -> Option<usize> {
        (0..self.fields.len())
            .rev()
            .find(|place| self.field(*place) == title)
    }

    /// The same for a column that there has to be.
    fn column(&self, title: &[u8]) -> Result<usize, ConvertFault> {
        match self.find(title) {
            Some(place) => Ok(place),
            None => Err(self.without(title)),
        }
    }

    /// The fault that the header has no column with this title.
    fn without(&self, title: &[u8]) -> ConvertFault {
        match self.without_text(title) {
            Ok(what) => self.refused(what.as_str()),
            Err(_) => ConvertFault::OutOfMemory,
        }
    }

    /// What is said of that.
    fn without_text(&self, title: &[u8]) -> Result<String, AllocError> {
        let mut what = String::from_str(self.alloc, "the header has no column '")?;
        what.push_str(String::from_utf8_lossy(self.alloc, title)?.as_str())?;
        what.push_str("': ")?;
        Ok(what)
    }

    /// The fault that something is wrong in this row, whose fields are shown.
    fn refused(&self, what: &str) -> ConvertFault {
        match self.text() {
            Ok(text) => self.line(text.as_slice()).refused(what),
            Err(_) => ConvertFault::OutOfMemory,
        }
    }

    /// The fault of a row whose byte can't be kept.
    fn unkept(&self, fault: KeepFault) -> ConvertFault {
        match self.text() {
            Ok(text) => self.line(text.as_slice()).unkept(fault),
            Err(_) => ConvertFault::OutOfMemory,
        }
    }

    /// The row as a line of this text.
    fn line<'t>(&self, text: &'t [u8]) -> Line<'t> {
        Line {
            alloc: self.alloc,
            number: self.number,
            text,
        }
    }

    /// The fields, with commas between.
    fn text(&self) -> Result<Vec<u8>, AllocError> {
        let mut text = Vec::new(self.alloc);
        for place in 0..self.fields.len() {
            if place > 0 {
                text.push(b',')?;
            }
            text.extend_from_slice(self.field(place))?;
        }
        Ok(text)
    }
}
