//! The seconds in which the time runs: how many frames are told in them, and how long they take.
//!
//! A second runs where its label begins about one second after the one before began. Frames are counted inside of it alone, from one
//! change of the frame to another: so the count depends on no rate.

use crate::label::Label;
use crate::place::Place;

/// A second that runs takes this long at least, in microseconds.
const LEAST_US: u64 = 900_000;

/// A second that runs takes this long at most.
const MOST_US: u64 = 1_100_000;

/// How far a frame rate that is measured may lie from one that is meant, in thousandths of a frame a second.
const STRAY: u64 = 400;

/// 24 and 25 frames a second can be told apart where the square of the times told is at least this many times the seconds that
/// run.
const TIMES_SQUARED: u64 = 6_250;

/// The second that is open.
#[derive(Clone, Copy)]
struct Second {
    /// When its label came, where the second before it was followed up to its end.
    began_us: Option<u64>,
    /// The first time in it.
    first: Label,
    /// The last change of the frame in it.
    changed: Label,
    /// The last time in it.
    last: Label,
    times: u64,
}

/// The seconds so far.
#[derive(Clone, Copy)]
pub(crate) struct Running {
    open: Option<Second>,
    /// How many seconds run.
    pub(crate) seconds: u64,
    /// How many frames are told in them, and in how many microseconds.
    pub(crate) frames: u64,
    pub(crate) us: u64,
    /// How many times are told in them.
    times: u64,
    /// The first time in the first of them.
    pub(crate) first: Option<Place>,
}

impl Running {
    /// Of no time.
    pub(crate) const NONE: Running = Running {
        open: None,
        seconds: 0,
        frames: 0,
        us: 0,
        times: 0,
        first: None,
    };

    /// Takes the next time that the deck tells of itself.
    pub(crate) fn take(&mut self, label: Label) {
        let open = self.open;
        self.open = Some(match open {
            Some(open) if open.goes_on_with(label) => open.with(label),
            Some(open) if label.seconds == open.last.seconds.saturating_add(1) => {
                self.end(&open, label);
                Second::new(Some(label.place.time_us), label)
            }
            _ => Second::new(None, label),
        });
    }

    /// Counts a second that ends before this label, if it runs.
    fn end(&mut self, second: &Second, next: Label) {
        let Some(began_us) = second.began_us else {
            return;
        };
        let us = next.place.time_us.saturating_sub(began_us);
        if !(LEAST_US..=MOST_US).contains(&us) {
            return;
        }
        let frames = second.changed.frame.saturating_sub(second.first.frame);
        self.seconds = self.seconds.saturating_add(1);
        self.frames = self.frames.saturating_add(u64::from(frames));
        self.us = self.us.saturating_add(since(second.first, second.changed));
        self.times = self.times.saturating_add(second.times);
        self.first = self.first.or(Some(second.first.place));
    }

    /// How many frames are told in a second, in thousandths; 0 where none runs.
    pub(crate) fn per_second(&self) -> u64 {
        self.frames
            .saturating_mul(1_000_000_000)
            .checked_div(self.us)
            .unwrap_or(0)
    }

    /// How many labels a second has, by the frames that elapse: 24, 25 or 30, where that can be told.
    pub(crate) fn in_second(&self) -> Option<u32> {
        let squared = self.times.saturating_mul(self.times);
        if self.seconds < 3 || squared < TIMES_SQUARED.saturating_mul(self.seconds) {
            return None;
        }
        let found = self.per_second();
        [24u32, 25, 30].into_iter().find(|labels| found.abs_diff(u64::from(*labels).saturating_mul(
            1_000,
        )) < STRAY)
    }
}

impl Second {
    /// One that begins with this time.
    fn new(began_us: Option<u64>, first: Label) -> Second {
        Second {
            began_us,
            first,
            changed: first,
            last: first,
            times: 1,
        }
    }

    /// Whether a time belongs to it and runs on.
    fn goes_on_with(&self, label: Label) -> bool {
        label.seconds == self.last.seconds && label.frame >= self.last.frame
    }

    /// With the next time.
    fn with(self, label: Label) -> Second {
        Second {
            changed: if label.frame > self.last.frame {
                label
            } else {
                self.changed
            },
            last: label,
            times: self.times.saturating_add(1),
            ..self
        }
    }
}

/// The time from one label to a later one, in microseconds.
fn since(earlier: Label, later: Label) -> u64 {
    later.place.time_us.saturating_sub(earlier.place.time_us)
}
