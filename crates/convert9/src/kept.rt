//! The bytes of an export, kept until it was read whole.

use crate::fault::ConvertFault;
use crate::lines::Line;
use crate::range::TimeRange;
use crate::write::{TOO_LATE_US, write_capture};
use capture9::{LineByte, Wire};
use std::alloc::Global;
use std::io::Write;

/// The greatest time of a capture: fifteen digits, in microseconds.
const MOST_US: i64 = TOO_LATE_US as i64 - 1;

/// Why a byte can't be kept.
#[derive(Clone, Copy, PartialEq, Eq)]
pub(crate) enum KeepFault {
    /// On the capture's clock its time has more than fifteen digits.
    TooLong,
    /// Its time is below that of the byte before on this wire.
    Falls,
    /// A growth of memory was refused.
    OutOfMemory,
}

/// The bytes that are converted, in the order of the export, with their times on the capture's clock.
#[derive(Drop)]
pub(crate) struct Kept {
    alloc: Global,
    records: Vec<LineByte>,
    /// The time of the last byte on each wire, on the export's clock.
    controller_us: Option<i64>,
    deck_us: Option<i64>,
    /// How much the capture's clock is ahead of the export's: whole seconds, so that no time is below 0.
    later_us: i64,
}

/// Which of two bytes comes first in the capture where both have one time.
#[derive(Clone, Copy, PartialEq, Eq)]
pub(crate) enum Ties {
    /// That on the controller's wire.
    ControllerFirst,
    /// That which the export has first.
    AsExported,
}

impl Kept {
    /// No bytes.
    pub(crate) fn new(alloc: Global) -> Kept {
        Kept {
            alloc,
            records: Vec::new(alloc),
            controller_us: None,
            deck_us: None,
            later_us: 0,
        }
    }

    /// Keeps a byte of this time on the export's clock.
    pub(crate) fn keep(&mut self, time_us: i64, wire: Wire, byte: u8) -> Result<(), KeepFault> {
        if time_us > MOST_US {
            return Err(KeepFault::TooLong);
        }
        if self.last_on(wire).is_some_and(|last_us| time_us < last_us) {
            return Err(KeepFault::Falls);
        }
        if time_us.saturating_add(self.later_us) < 0 {
            self.move_later(time_us)?;
        }
        let record = LineByte {
            time_us: moved(time_us, self.later_us)?,
            wire,
            byte,
        };
        if self.records.push(record).is_err() {
            return Err(KeepFault::OutOfMemory);
        }
        match wire {
            Wire::Controller => self.controller_us = Some(time_us),
            Wire::Deck => self.deck_us = Some(time_us),
        }
        Ok(())
    }

    /// The time of the last byte on a wire, on the export's clock.
    fn last_on(&self, wire: Wire) -> Option<i64> {
        match wire {
            Wire::Controller => self.controller_us,
            Wire::Deck => self.deck_us,
        }
    }

    /// Moves all bytes later, so that a byte of this time, which is below 0, comes in the capture's first second. On each wire the first
    /// time is the lowest, so this comes twice at most.
    fn move_later(&mut self, time_us: i64) -> Result<(), KeepFault> {
        let seconds = 999_999i64.saturating_sub(time_us) / 1_000_000;
        let later_us = seconds.saturating_mul(1_000_000);
        let more_us = later_us.saturating_sub(self.later_us);
        let greatest_us = self.controller_us.max(self.deck_us).unwrap_or(0);
        if greatest_us.saturating_add(later_us) > MOST_US {
            return Err(KeepFault::TooLong);
        }
        let more_us = more_us.unsigned_abs();
        for record in self.records.iter_mut() {
            record.time_us = record.time_us.saturating_add(more_us);
        }
        self.later_us = later_us;
        Ok(())
    }

    /// Writes the capture of what is kept of this range, in the order of the times, after the last line, which is this one. Refused is
    /// an export without a byte in the range.
    pub(crate) fn write<W: Write + Drop>(
        self,
        writer: W,
        last: Line<'_>,
        range: TimeRange,
        ties: Ties,
    ) -> Result<(), ConvertFault> {
        let mut records = self.records;
        if records.is_empty() {
            return Err(last.refused_unshown(range.without_byte()));
        }
        match ties {
            Ties::ControllerFirst => records.sort_by_key(|record| (
                record.time_us,
                record.wire == Wire::Deck,
            ))?,
            Ties::AsExported => records.sort_by_key(|record| record.time_us)?,
        }
        write_capture(writer, records.as_slice())?;
        Ok(())
    }
}

/// A time on the export's clock as one on the capture's, which is `later_us` later.
pub(crate) fn moved(time_us: i64, later_us: i64) -> Result<u64, KeepFault> {
    match u64::try_from(time_us.saturating_add(later_us)) {
        Ok(us) if us <= MOST_US.unsigned_abs() => Ok(us),
        _ => Err(KeepFault::TooLong),
    }
}
