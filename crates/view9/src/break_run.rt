//! Equal breaks in a row, which are told in one line.

use report9::put_no_line;
use seen9::SeenBreak;
use text9::Text;

/// Breaks in a row of one rule, with the same command open, where an exchange or a late reply comes between no two of them.
#[derive(Clone, Copy)]
pub struct BreakRun {
    /// The first of them.
    pub first: SeenBreak,
    /// The number of the last one's record.
    pub last_at: u32,
    /// Its time, in microseconds.
    pub last_us: u64,
    /// How many there are: one at least. The number stays at its greatest once that is reached.
    pub breaks: u32,
}

impl BreakRun {
    /// Of one break.
    pub fn new(first: &SeenBreak) -> BreakRun {
        BreakRun {
            first: *first,
            last_at: first.at,
            last_us: first.time_us,
            breaks: 1,
        }
    }

    /// Takes the break that comes next, where it is equal: whether it is.
    pub fn take(&mut self, next: &SeenBreak) -> bool {
        let is_equal = next.reason == self.first.reason && next.open == self.first.open;
        if is_equal {
            self.last_at = next.at;
            self.last_us = next.time_us;
            self.breaks = self.breaks.saturating_add(1);
        }
        is_equal
    }

    /// Puts their line.
    pub(crate) fn put(&self, line: &mut Text) {
        let first = &self.first;
        if self.breaks == 1 {
            line.put_with(|text| put_no_line(text, first.at, first.reason));
            return;
        }
        line.put_count("no at records ", u64::from(first.at))
            .put_count(" to ", u64::from(self.last_at))
            .put_seconds(", ", first.time_us)
            .put_seconds(" s to ", self.last_us)
            .put(" s: ")
            .put(first.reason.name())
            .put(" ")
            .put(first.reason.text())
            .put_count(", ", u64::from(self.breaks))
            .put(" times\n");
    }
}
