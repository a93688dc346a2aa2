//! The second reading of a capture: the records around one of them.

use crate::blocks::{Blocks, Seen};
use crate::choice::PartEnd;
use block9::{begins_next_part, may_begin};
use capture9::{GREATEST_LIMIT, LineByte, Records};
use report9::{Beginning, JudgeError};
use std::alloc::{AllocError, Global};
use std::io::Read;
use text9::Done;

/// How many records before the one that breaks may be drawn.
pub(crate) const RECORDS_BEFORE: u32 = 240;

/// How many records after it may be drawn.
pub(crate) const RECORDS_AFTER: u32 = 80;

/// Which records are read a second time.
#[derive(Clone, Copy)]
pub(crate) struct Asked {
    /// The number of the record that breaks.
    pub(crate) at: u32,
    /// The last record that was judged.
    pub(crate) judged_to: u32,
    /// The break that ended the part before.
    pub(crate) before: Option<PartEnd>,
    pub(crate) beginning: Beginning,
}

/// The reading, up to the record that breaks.
#[derive(Drop)]
pub(crate) struct Reading {
    asked: Asked,
    last: Option<LineByte>,
    /// Whether the part was begun.
    is_begun: bool,
    blocks: Blocks,
    pub(crate) seen: Vec<Seen>,
}

/// Reads the records around the one that breaks, from a reader that gives the whole capture. After that one a bad row is no error, and ends
/// them, since nothing was judged there.
pub(crate) fn read_around<R: Read + Drop>(
    alloc: Global,
    reader: R,
    asked: &Asked,
) -> Result<Vec<Seen>, JudgeError> {
    let mut records = Records::new(alloc, reader, GREATEST_LIMIT);
    let mut reading = Reading::new(alloc, asked);
    for number in 1..=asked.at {
        let Some(record) = records.next()? else {
            break;
        };
        reading.take(number, record)?;
    }
    let after = read_after(alloc, &mut records)?;
    reading.take_after(after.as_slice())?;
    Ok(reading.seen)
}

/// Reads some records more, as far as they can be read.
fn read_after<R: Read + Drop>(
    alloc: Global,
    records: &mut Records<R>,
) -> Result<Vec<LineByte>, AllocError> {
    let mut after = Vec::new(alloc);
    for _ in 0..RECORDS_AFTER {
        match records.next() {
            Ok(Some(record)) => after.push(record)?,
            _ => break,
        }
    }
    Ok(after)
}

impl Reading {
    /// Before the first record.
    pub(crate) fn new(alloc: Global, asked: &Asked) -> Reading {
        Reading {
            asked: *asked,
            last: None,
            is_begun: false,
            blocks: Blocks::NONE,
            seen: Vec::new(alloc),
        }
    }

    /// Takes a record up to the one that breaks, where the reading began inside the capture: blocks are read from the first record on that
    /// may begin a command, as in a part that was judged each such record does.
    pub(crate) fn take_inside(&mut self, number: u32, record: LineByte) -> Done {
        self.is_begun = self.is_begun || self.asked.begins_inside(number, record, self.last);
        self.see(number, record)
    }

    /// Takes a record up to the one that breaks.
    fn take(&mut self, number: u32, record: LineByte) -> Done {
        self.is_begun = self.is_begun || self.asked.begins_part(number, record, self.last);
        self.see(number, record)
    }

    /// Reads the block of a record, where the part was begun.
    fn see(&mut self, number: u32, record: LineByte) -> Done {
        self.last = Some(record);
        if !self.is_begun {
            return Ok(());
        }
        let seen = self.blocks.take(number, record);
        if number.saturating_add(RECORDS_BEFORE) >= self.asked.at {
            self.seen.push(seen)?;
        }
        Ok(())
    }

    /// Takes the records after the one that breaks.
    pub(crate) fn take_after(&mut self, after: &[LineByte]) -> Done {
        let mut number = self.asked.at;
        for (place, record) in after.iter().enumerate() {
            number = number.saturating_add(1);
            let last = self.last.map_or(record.wire, |last| last.wire);
            if number > self.asked.judged_to {
                let rest = after.get(place..).unwrap_or(&[]);
                self.blocks.end_unless_goes_on(last, *record, rest);
            }
            self.last = Some(*record);
            self.seen.push(self.blocks.take(number, *record))?;
        }
        Ok(())
    }
}

impl Asked {
    /// Whether blocks are read from this record on, which comes after `last`, where the reading began inside the capture.
    fn begins_inside(&self, number: u32, record: LineByte, last: Option<LineByte>) -> bool {
        match self.before {
            _ if number == self.at => true,
            None if number > 1 => may_begin(last, record),
            _ => self.begins_part(number, record, last),
        }
    }

    /// Whether the part begins with this record, which comes after `last`.
    fn begins_part(&self, number: u32, record: LineByte, last: Option<LineByte>) -> bool {
        match self.before {
            Some(end) if number < end.at => false,
            Some(end) if number == end.at => begins_next_part(end.reason, record),
            None if self.beginning == Beginning::FirstRecord => true,
            _ => may_begin(last, record),
        }
    }
}
