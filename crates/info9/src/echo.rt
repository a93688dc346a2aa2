//! An echo: what one wire carries comes again on the other, byte by byte.
ghost use Rattle.std.specs.Prelude.{◌≤◌, ◌+◌, ◌/◌, IsTrue};

use crate::place::{Place, Seen};
use crate::sign::{EchoSeen, Seeming, Sign};
use block9::BYTE_TIME_US;
use capture9::Wire;

/// How many bytes must come again for an echo: those of two blocks.
const FEWEST: u64 = 6;

/// Of so many bytes of a wire all but one must come again.
const OF_BYTES: u64 = 10;

/// The bytes that come on both wires.
#[derive(Clone, Copy)]
pub(crate) struct Echo {
    /// The last record and its wire, and whether it is no echo.
    wire: Wire,
    last: Seen,
    is_open: bool,
    bytes: u64,
    /// The first echo.
    first: Option<Place>,
    /// The most time to an echo, in microseconds.
    most_us: u64,
}

impl Echo {
    /// None of them.
    pub(crate) const NONE: Echo = Echo {
        wire: Wire::Controller,
        last: Seen {
            place: Place::NONE,
            byte: 0,
        },
        is_open: false,
        bytes: 0,
        first: None,
        most_us: 0,
    };

    /// Takes the next record.
    pub(crate) fn take(&mut self, wire: Wire, seen: Seen) {
        let us = seen.since(self.last);
        let is_same = self.is_open && seen.byte == self.last.byte && wire != self.wire;
        self.is_open = !(is_same && us < BYTE_TIME_US);
        self.wire = wire;
        self.last = seen;
        if !self.is_open {
            self.bytes = self.bytes.saturating_add(1);
            self.first = self.first.or(Some(seen.place));
            self.most_us = self.most_us.max(us);
        }
    }

    /// The sign that the bytes of a wire come again on the other, of so many on each.
    pub(crate) fn sign(&self, controller: u64, deck: u64) -> Option<Sign> {
        let (wire, of) = if self.is_most_of(controller) {
            (Wire::Controller, controller)
        } else {
            (Wire::Deck, deck)
        };
        let what = Seeming::Echo(EchoSeen {
            wire,
            bytes: self.bytes,
            of,
            most_us: self.most_us,
        });
        let at = self.first?;
        (self.bytes >= FEWEST && self.is_most_of(of)).then_some(Sign { at, what })
    }

    /// Whether nearly all of so many bytes come again.
    fn is_most_of(&self, of: u64) -> bool
        ensures { IsTrue result → of ≤ self.now.bytes + of / 10 }
    {
        of.saturating_sub(self.bytes) <= of / OF_BYTES
    }
}
