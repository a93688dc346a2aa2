//! What is counted of one wire: its records, its blocks, and its silences.

use crate::cutter::{Cutter, WholeBlock};
use crate::damage::Damage;
use crate::place::{Place, Seen, is_sent_by, other};
use crate::silence::Silences;
use crate::twice::{CLOSE_US, CloseBytes};
use capture9::Wire;

/// What is counted of one wire.
#[derive(Drop)]
pub(crate) struct WireCounts {
    wire: Wire,
    pub(crate) cutter: Cutter,
    pub(crate) silences: Silences,
    pub(crate) records: u64,
    /// Whole blocks with right sums.
    pub(crate) blocks: u64,
    /// Those of a group that only the other wire carries.
    pub(crate) strangers: u64,
    pub(crate) first_stranger: Option<Place>,
    /// Those whose bytes are closer than a byte lasts.
    pub(crate) close: u64,
    pub(crate) first_close: Option<Place>,
    /// The least time between two bytes of a block, in microseconds.
    pub(crate) least_us: u64,
    /// Those of all bytes that are so close, in blocks or not.
    pub(crate) close_bytes: CloseBytes,
}

impl WireCounts {
    /// Of a wire that carried nothing yet.
    pub(crate) fn new(wire: Wire) -> WireCounts {
        WireCounts {
            wire,
            cutter: Cutter::new(wire),
            silences: Silences::default(),
            records: 0,
            blocks: 0,
            strangers: 0,
            first_stranger: None,
            close: 0,
            first_close: None,
            least_us: u64::MAX,
            close_bytes: CloseBytes::NONE,
        }
    }

    /// Takes the wire's next byte, and answers the block that it completes, if it does. What is damaged goes to what is of both wires.
    pub(crate) fn take(&mut self, seen: Seen, damage: &mut Damage) -> Option<WholeBlock> {
        self.records = self.records.saturating_add(1);
        let since_us = self.silences.take(seen.place).unwrap_or(u64::MAX);
        self.close_bytes.take(since_us, seen.place);
        let whole = self.cutter.take(seen, since_us, damage)?;
        damage.take_whole(self.wire, &whole);
        self.count(&whole);
        Some(whole)
    }

    /// Whole blocks of groups that this wire may carry.
    pub(crate) fn own(&self) -> u64 {
        self.blocks.saturating_sub(self.strangers)
    }

    /// Counts a whole block.
    fn count(&mut self, whole: &WholeBlock) {
        self.blocks = self.blocks.saturating_add(1);
        self.least_us = self.least_us.min(whole.least_us);
        if is_sent_by(other(self.wire), whole.block.group) {
            self.strangers = self.strangers.saturating_add(1);
            self.first_stranger = self.first_stranger.or(Some(whole.first));
        }
        if whole.least_us < CLOSE_US {
            self.close = self.close.saturating_add(1);
            self.first_close = self.first_close.or(Some(whole.first));
        }
    }
}
