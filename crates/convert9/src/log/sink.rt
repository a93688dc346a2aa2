//! Where the bytes of a log go: to be kept until it was read whole, or at once into the capture.

use crate::fault::ConvertFault;
use crate::kept::{KeepFault, Kept, Ties, moved};
use crate::lines::Line;
use crate::range::TimeRange;
use crate::write::CaptureWriter;
use capture9::{LineByte, Wire};
use std::alloc::Global;
use std::io::Write;

/// What takes the bytes of a log.
pub(super) trait TakesBytes: Drop + Sized {
    /// Takes a byte of this line.
    fn take(
        &mut self,
        line: Line<'_>,
        time_us: i64,
        wire: Wire,
        byte: u8,
    ) -> Result<(), ConvertFault>;

    /// There is no more of the line.
    fn end_line(&mut self) -> Result<(), ConvertFault>;

    /// There are no more lines after this one. Refused is a log without a byte in the range.
    fn end(self, last: Line<'_>, range: TimeRange) -> Result<(), ConvertFault>;
}

/// Bytes that are kept, and written at the end.
#[derive(Drop)]
pub(super) struct AtTheEnd<W: Write + Drop> {
    kept: Kept,
    writer: W,
}

/// Bytes that are written at once. The capture is begun when the first one is.
#[derive(Drop)]
pub(super) struct AtOnce<W: Write + Drop> {
    writer: Option<W>,
    capture: Option<CaptureWriter<W>>,
}

impl<W: Write + Drop> AtTheEnd<W> {
    /// Before the first byte.
    pub(super) fn of(alloc: Global, writer: W) -> AtTheEnd<W> {
        AtTheEnd {
            kept: Kept::new(alloc),
            writer,
        }
    }
}

impl<W: Write + Drop> TakesBytes for AtTheEnd<W> {
    fn take(
        &mut self,
        line: Line<'_>,
        time_us: i64,
        wire: Wire,
        byte: u8,
    ) -> Result<(), ConvertFault> {
        self.kept
            .keep(time_us, wire, byte)
            .map_err(|fault| line.unkept(fault))
    }

    fn end_line(&mut self) -> Result<(), ConvertFault> {
        Ok(())
    }

    fn end(self, last: Line<'_>, range: TimeRange) -> Result<(), ConvertFault> {
        self.kept.write(self.writer, last, range, Ties::AsExported)
    }
}

impl<W: Write + Drop> AtOnce<W> {
    /// Before the first byte.
    pub(super) fn of(writer: W) -> AtOnce<W> {
        AtOnce {
            writer: Some(writer),
            capture: None,
        }
    }
}

impl<W: Write + Drop> TakesBytes for AtOnce<W> {
    fn take(
        &mut self,
        line: Line<'_>,
        time_us: i64,
        wire: Wire,
        byte: u8,
    ) -> Result<(), ConvertFault> {
        let time_us = match moved(time_us, 0) {
            Ok(time_us) => time_us,
            Err(fault) => return Err(line.unkept(fault)),
        };
        if let Some(writer) = self.writer.take() {
            self.capture = Some(CaptureWriter::begin(writer)?);
        }
        let Some(capture) = &mut self.capture else {
            return Err(ConvertFault::Write);
        };
        capture.put(LineByte {
            time_us,
            wire,
            byte,
        })?;
        Ok(())
    }

    fn end_line(&mut self) -> Result<(), ConvertFault> {
        if let Some(capture) = &mut self.capture {
            capture.flush()?;
        }
        Ok(())
    }

    fn end(self, last: Line<'_>, range: TimeRange) -> Result<(), ConvertFault> {
        let AtOnce { capture, .. } = self;
        match capture {
            Some(capture) => {
                capture.end()?;
                Ok(())
            }
            None => Err(last.refused_unshown(range.without_byte())),
        }
    }
}
