//! Where in a capture something was seen.

use capture9::Wire;

/// A record of the capture.
#[derive(Clone, Copy, Default, PartialEq, Eq)]
pub struct Place {
    /// Its number, counted from 1.
    pub record: u32,
    /// Its time, in microseconds.
    pub time_us: u64,
}

/// A byte on its wire.
#[derive(Clone, Copy, Default, PartialEq, Eq)]
pub(crate) struct Seen {
    pub(crate) place: Place,
    pub(crate) byte: u8,
}

impl Place {
    /// That of no record.
    pub(crate) const NONE: Place = Place {
        record: 0,
        time_us: 0,
    };
}

impl Seen {
    /// The time from an earlier byte to this one, in microseconds.
    pub(crate) fn since(self, earlier: Seen) -> u64 {
        self.place.time_us.saturating_sub(earlier.place.time_us)
    }
}

/// The other of the two wires.
pub(crate) fn other(wire: Wire) -> Wire {
    match wire {
        Wire::Controller => Wire::Deck,
        Wire::Deck => Wire::Controller,
    }
}

/// Whether blocks of a group are the sender's of this wire alone. The protocol has 0, 2, 4 and 6 for the controller, and 1 and 7 for
/// the deck.
pub(crate) fn is_sent_by(wire: Wire, group: u8) -> bool {
    match wire {
        Wire::Controller => matches!(group, 0 | 2 | 4 | 6),
        Wire::Deck => matches!(group, 1 | 7),
    }
}
