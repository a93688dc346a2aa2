//! Bytes closer than one lasts, and those of them that the logger wrote twice.
ghost use Rattle.std.specs.Prelude.{◌≡◌, ◌<◌, IfSome};

use crate::place::{Place, Seen};
use crate::sign::{Seeming, Sign};
use block9::BYTE_TIME_US;

/// The time, in microseconds, that no line can come below between two bytes: half of what a byte lasts, so that neither a fast line nor a
/// tap's jitter does.
pub(crate) const CLOSE_US: u64 = BYTE_TIME_US / 2;

/// A byte that is the one before it again, and closer to it than a byte lasts.
#[derive(Clone, Copy, PartialEq, Eq)]
pub(crate) struct Again {
    pub(crate) place: Place,
    pub(crate) byte: u8,
    /// How long after the one before it it comes, in microseconds.
    pub(crate) us: u64,
}

/// The bytes that were written twice.
#[derive(Clone, Copy)]
pub(crate) struct WrittenTwice {
    first: Option<Again>,
    bytes: u64,
}

impl WrittenTwice {
    /// None of them.
    pub(crate) const NONE: WrittenTwice = WrittenTwice {
        first: None,
        bytes: 0,
    };

    /// Takes the next.
    pub(crate) fn take(&mut self, again: Again) {
        self.bytes = self.bytes.saturating_add(1);
        self.first = match self.first {
            Some(first) if first.place.record < again.place.record => Some(first),
            _ => Some(again),
        };
    }

    /// The sign that bytes were written twice.
    pub(crate) fn sign(&self) -> Option<Sign> {
        let first = self.first?;
        Some(Sign {
            at: first.place,
            what: Seeming::WrittenTwice {
                byte: first.byte,
                us: first.us,
                bytes: self.bytes,
            },
        })
    }
}

/// Bytes of one wire that are closer than a byte lasts.
#[derive(Clone, Copy)]
pub(crate) struct CloseBytes {
    /// The first that is so close to the one before it.
    pub(crate) first: Option<Place>,
    pub(crate) bytes: u64,
    /// The least time between two, in microseconds.
    pub(crate) least_us: u64,
}

impl CloseBytes {
    /// None of them.
    pub(crate) const NONE: CloseBytes = CloseBytes {
        first: None,
        bytes: 0,
        least_us: u64::MAX,
    };

    /// Takes a byte that comes so long after the one before it, in microseconds.
    pub(crate) fn take(&mut self, us: u64, at: Place) {
        if us < CLOSE_US {
            self.bytes = self.bytes.saturating_add(1);
            self.first = self.first.or(Some(at));
            self.least_us = self.least_us.min(us);
        }
    }
}

/// The byte, if it is the one before it again.
pub(crate) fn is_again(before: Seen, seen: Seen) -> Option<Again>
    ensures { IfSome result (λ again. (again.byte ≡ before.byte) × (again.us < 143)) }
{
    let us = seen.since(before);
    (seen.byte == before.byte && us < CLOSE_US).then_some(Again {
        place: seen.place,
        byte: seen.byte,
        us,
    })
}

/// The first of these bytes that is the one before it again.
pub(crate) fn again_in(bytes: &[Seen]) -> Option<Again> {
    for pair in bytes.windows(2) {
        if let [before, seen] = pair {
            let again = is_again(*before, *seen);
            if again.is_some() {
                return again;
            }
        }
    }
    None
}
