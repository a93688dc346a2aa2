//! The range of an export that is converted.

use crate::seconds::read_seconds;

/// The range of an export that is converted, in microseconds on the export's own clock.
#[derive(Clone, Copy)]
pub(crate) struct TimeRange {
    /// The first time that is converted; none where the export's beginning is.
    pub(crate) from_us: Option<i64>,
    /// The time from which on nothing is converted; none where all to the end is.
    pub(crate) to_us: Option<i64>,
}

/// What is wrong where a word is no number of seconds.
const NO_SECONDS: &str = "--from SECONDS or --to SECONDS is wrong";

/// What is wrong where a range ends before it begins, or at once.
const NOT_LATER: &str = "--to SECONDS has to be later than --from SECONDS";

impl TimeRange {
    /// The range that these words name, in seconds; an empty word names no end. An error is what is wrong: one is no number of seconds, or
    /// the range ends no later than it begins.
    pub(crate) fn named(from: Option<&[u8]>, to: Option<&[u8]>) -> Result<TimeRange, &'static str> {
        let (Some(from_us), Some(to_us)) = (end_named(from), end_named(to)) else {
            return Err(NO_SECONDS);
        };
        match (from_us, to_us) {
            (Some(from_us), Some(to_us)) if from_us >= to_us => Err(NOT_LATER),
            _ => Ok(TimeRange { from_us, to_us }),
        }
    }

    /// Whether a byte of this time is converted. What lies outside is passed over, and damage there is no refusal.
    pub(crate) fn holds(&self, time_us: i64) -> bool {
        self.from_us.is_none_or(|from_us| time_us >= from_us)
            && self.to_us.is_none_or(|to_us| time_us < to_us)
    }

    /// Whether the words name neither end.
    pub(crate) fn is_whole(&self) -> bool {
        self.from_us.is_none() && self.to_us.is_none()
    }

    /// What is said of an export that has no byte in the range.
    pub(crate) fn without_byte(&self) -> &'static str {
        if self.is_whole() {
            "no byte in the export"
        } else {
            "no byte in this stretch of the export"
        }
    }
}

/// The end of a range that a word names, in microseconds: `Some(None)` where it names none, and `None` where it is no number of seconds.
fn end_named(word: Option<&[u8]>) -> Option<Option<i64>> {
    match word {
        None | Some([]) => Some(None),
        Some(word) => Some(Some(read_seconds(word)?)),
    }
}
