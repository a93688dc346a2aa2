//! A capture of a two-port serial log, each line of which has a stamp, a port and bytes, parted by blanks:
//!
//! ```text
//! 0.000426 COM3 20 01 21
//! 2024-03-01 12:34:56.789012 COM3 20 01 21
//! ```
//!
//! The line's time is that of its first byte. Each next byte of the line is taken to come 287 microseconds later, one byte's time on the
//! wire, but not later than the next line. Bytes of the same time stay in the order of the log.
//!
//! A log that is converted live is one that grows: the bytes of a line are written once the next line was read, and memory does not grow
//! with the log. What is written can't be taken back, so no line may have an earlier time than the line before.

mod calendar;
mod fields;
mod sink;
mod stamps;
mod times;

use crate::digits::byte_of;
use crate::fault::{ConvertFault, refused_words};
use crate::kept::Kept;
use crate::lines::{Line, Lines};
use crate::range::TimeRange;
use capture9::Wire;
use fields::{Fields, fields_of, is_blank};
use sink::{AtOnce, AtTheEnd, TakesBytes};
use stamps::{LineFault, Stamps, Unit};
use std::alloc::Global;
use std::io::{Read, Write};
pub use times::Notice;
use times::Times;

/// How long a byte takes on the wire, in microseconds: eleven bits at 38,400 baud.
const BYTE_US: i64 = 287;

/// What the words say of a serial log, as they stand. An empty word says nothing.
#[derive(Clone, Copy)]
pub struct LogWords<'a> {
    /// The controller's port, as the log names it.
    pub controller: Option<&'a [u8]>,
    /// The deck's port, which is another.
    pub deck: Option<&'a [u8]>,
    /// What a stamp counts that is a counter: `ms` or `us`. None where stamps are seconds, clocks, or dates and clocks.
    pub unit: Option<&'a [u8]>,
    /// Whether to write the bytes of a line as soon as the next line was read.
    pub live: bool,
    /// The first time that is converted, in seconds on the log's own clock.
    pub from: Option<&'a [u8]>,
    /// The time from which on nothing is converted.
    pub to: Option<&'a [u8]>,
}

/// What the words ask for, where nothing is wrong with them.
#[derive(Clone, Copy)]
struct Asked<'a> {
    controller: &'a [u8],
    deck: &'a [u8],
    unit: Option<Unit>,
    is_live: bool,
    range: TimeRange,
}

/// The line whose bytes may not pass the time of the next one. Its number is 0 where no line was read.
#[derive(Drop)]
struct Waiting {
    alloc: Global,
    number: u64,
    text: Vec<u8>,
    time_us: i64,
}

/// What was read of a log.
#[derive(Drop)]
struct Log {
    stamps: Stamps,
    times: Times,
    waiting: Waiting,
}

/// Reads a serial log, and writes the capture. Answers what there is to say of the log's times.
///
/// Where the log is refused nothing is written. Converted live, the rows before what is refused stay written.
pub fn convert_log<R: Read + Drop, W: Write + Drop>(
    alloc: Global,
    reader: R,
    writer: W,
    words: LogWords<'_>,
) -> Result<Option<Notice>, ConvertFault> {
    let asked = asked_by(alloc, words)?;
    if asked.is_live {
        convert_into(alloc, reader, asked, AtOnce::of(writer))
    } else {
        convert_into(alloc, reader, asked, AtTheEnd::of(alloc, writer))
    }
}

/// What the words ask for.
fn asked_by<'a>(alloc: Global, words: LogWords<'a>) -> Result<Asked<'a>, ConvertFault> {
    let controller = words.controller.unwrap_or(b"");
    let deck = words.deck.unwrap_or(b"");
    if controller.is_empty() || deck.is_empty() {
        return Err(refused_words(alloc, 0, "--controller PORT or --deck PORT is missing", b""));
    }
    if controller == deck {
        return Err(refused_words(alloc, 0, "--controller and --deck are the same port", b""));
    }
    let unit = match words.unit {
        None | Some(b"") => None,
        Some(b"ms") => Some(Unit::Milliseconds),
        Some(b"us") => Some(Unit::Microseconds),
        Some(unit) => return Err(refused_words(alloc, 0, "--unit has to be ms or us: ", unit)),
    };
    let range = match TimeRange::named(words.from, words.to) {
        Ok(range) => range,
        Err(wrong) => return Err(refused_words(alloc, 0, wrong, b"")),
    };
    Ok(Asked {
        controller,
        deck,
        unit,
        is_live: words.live,
        range,
    })
}

/// Reads a log, whose bytes go to this sink.
fn convert_into<R: Read + Drop, S: TakesBytes>(
    alloc: Global,
    reader: R,
    asked: Asked<'_>,
    mut sink: S,
) -> Result<Option<Notice>, ConvertFault> {
    let mut log = Log::new(alloc);
    let mut lines = Lines::of(alloc, reader)?;
    for _ in 0..u64::MAX {
        if !lines.read_next()? {
            break;
        }
        log.take(lines.line(), asked, &mut sink)?;
    }
    log.waiting.put(asked, None, &mut sink)?;
    sink.end(lines.line(), asked.range)?;
    Ok(log.times.notice(asked.unit.is_some()))
}

impl Log {
    /// Before the first line.
    fn new(alloc: Global) -> Log {
        Log {
            stamps: Stamps::new(),
            times: Times::new(),
            waiting: Waiting {
                alloc,
                number: 0,
                text: Vec::new(alloc),
                time_us: 0,
            },
        }
    }

    /// Takes the next line: it waits, and the line that waited is put. Where the next line is refused, that one is put only live, as the
    /// last one of a log is.
    fn take<S: TakesBytes>(
        &mut self,
        line: Line<'_>,
        asked: Asked<'_>,
        sink: &mut S,
    ) -> Result<(), ConvertFault> {
        match self.time_of(line, asked) {
            Ok(time_us) => {
                self.waiting.put(asked, Some(time_us), sink)?;
                self.waiting.become_line(line, time_us)
            }
            Err(fault) => {
                if asked.is_live {
                    self.waiting.put(asked, None, sink)?;
                }
                Err(line.refused(fault.text()))
            }
        }
    }

    /// The time of the next line.
    fn time_of(&mut self, line: Line<'_>, asked: Asked<'_>) -> Result<i64, LineFault> {
        let Some(fields) = fields_of(line.text) else {
            return Err(LineFault::Unknown);
        };
        let time_us = self.stamps.read(fields.stamp, asked.unit)?;
        let before_us = self.waiting.time();
        self.times
            .count(time_us, before_us, fields.stamp.has_point());
        if asked.is_live && before_us.is_some_and(|before_us| time_us < before_us) {
            return Err(LineFault::Earlier);
        }
        Ok(time_us)
    }
}

impl Waiting {
    /// The time of the line that waits.
    fn time(&self) -> Option<i64> {
        (self.number > 0).then_some(self.time_us)
    }

    /// Lets another line wait in place of the one before.
    fn become_line(&mut self, line: Line<'_>, time_us: i64) -> Result<(), ConvertFault> {
        self.text.clear();
        self.text.extend_from_slice(line.text)?;
        self.number = line.number;
        self.time_us = time_us;
        Ok(())
    }

    /// Puts the bytes of the line that waits, if one does. What was put before a refusal stays.
    fn put<S: TakesBytes>(
        &self,
        asked: Asked<'_>,
        next_us: Option<i64>,
        sink: &mut S,
    ) -> Result<(), ConvertFault> {
        let line = Line {
            alloc: self.alloc,
            number: self.number,
            text: self.text.as_slice(),
        };
        let Some(fields) = fields_of(line.text) else {
            return Ok(());
        };
        // In a log of one port after the other there is a next line of an earlier time, which has no say.
        let last_us = match next_us {
            Some(next_us) if next_us >= self.time_us => next_us,
            _ => i64::MAX,
        };
        let put = put_bytes(line, fields, asked, self.time_us, last_us, sink);
        let ended = sink.end_line();
        put?;
        ended
    }
}

/// Puts the bytes of a line that lie in the range, the first one at the line's time, and none after the last one.
fn put_bytes<S: TakesBytes>(
    line: Line<'_>,
    fields: Fields<'_>,
    asked: Asked<'_>,
    first_us: i64,
    last_us: i64,
    sink: &mut S,
) -> Result<(), ConvertFault> {
    let mut time_us = first_us;
    for field in fields
        .bytes
        .split(|byte| is_blank(*byte))
        .filter(|field| !field.is_empty())
    {
        let byte_us = time_us.min(last_us);
        if asked.range.holds(byte_us) {
            let wire = wire_of(line, fields.port, asked)?;
            let Some(byte) = byte_of(field) else {
                return Err(line.refused("no byte of two hexadecimal digits: "));
            };
            sink.take(line, byte_us, wire, byte)?;
        }
        time_us = time_us.saturating_add(BYTE_US);
    }
    Ok(())
}

/// The wire that a port is at.
fn wire_of(line: Line<'_>, port: &[u8], asked: Asked<'_>) -> Result<Wire, ConvertFault> {
    if port == asked.controller {
        Ok(Wire::Controller)
    } else if port == asked.deck {
        Ok(Wire::Deck)
    } else {
        Err(line.refused("neither the controller's port nor the deck's: "))
    }
}
