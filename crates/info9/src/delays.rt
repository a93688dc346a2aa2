//! The least delays of the replies over a session: those of its tenths, which join in pairs as it grows.

use crate::place::Place;
use crate::sign::{Seeming, Sign};
use arrayvec::ArrayVec;

/// The most parts: once there are so many they join in pairs.
const PARTS: usize = 20;

/// How many parts there must be before a movement is told.
const FEWEST_PARTS: usize = PARTS / 2;

/// How many replies each of them must have.
const FEWEST_REPLIES: u32 = 8;

/// A movement of the least delay is told where it is more than this, in microseconds.
const MOVES_US: u64 = 1_000;

/// A part may lie as far from the straight line between the first and the last as the movement divided by this.
const STRAY: u64 = 4;

/// The least delays so far.
#[derive(Drop)]
pub(crate) struct Delays {
    /// The least delay of each whole part, in microseconds.
    least: ArrayVec<u64, PARTS>,
    /// How many replies a whole part has.
    replies_each: u32,
    /// How many replies the part has that is not whole yet.
    replies: u32,
    /// The least delay of these, in microseconds.
    least_us: u64,
    /// The first record of the first reply.
    first: Option<Place>,
}

impl Delays {
    /// Of no reply.
    pub(crate) fn new() -> Delays {
        Delays {
            least: ArrayVec::new(),
            replies_each: 1,
            replies: 0,
            least_us: u64::MAX,
            first: None,
        }
    }

    /// Takes the first record of the next reply, and the time of its command's last.
    pub(crate) fn take(&mut self, reply: Place, asked_us: u64) {
        let delay_us = reply.time_us.saturating_sub(asked_us);
        self.first = self.first.or(Some(reply));
        self.replies = self.replies.saturating_add(1);
        self.least_us = self.least_us.min(delay_us);
        if self.replies < self.replies_each {
            return;
        }
        let _ = self.least.try_push(self.least_us);
        self.replies = 0;
        self.least_us = u64::MAX;
        if self.least.is_full() {
            self.join();
        }
    }

    /// Joins the parts in pairs.
    fn join(&mut self) {
        let mut joined = ArrayVec::new();
        for pair in self.least.as_slice().chunks(2) {
            let _ = joined.try_push(pair.iter().copied().min().unwrap_or(0));
        }
        self.least = joined;
        self.replies_each = self.replies_each.saturating_mul(2);
    }

    /// The sign that the least delay moves steadily, and far enough.
    pub(crate) fn sign(&self) -> Option<Sign> {
        let parts = self.least.as_slice();
        let (from_us, to_us) = (*parts.first()?, *parts.last()?);
        let by_us = from_us.abs_diff(to_us);
        let is_long = parts.len() >= FEWEST_PARTS && self.replies_each >= FEWEST_REPLIES;
        if !is_long || by_us <= MOVES_US || !is_straight(parts, from_us, to_us) {
            return None;
        }
        Some(Sign {
            at: self.first?,
            what: Seeming::TwoClocks { from_us, to_us },
        })
    }
}

/// Whether all parts lie near the straight line from the first to the last.
fn is_straight(parts: &[u64], from_us: u64, to_us: u64) -> bool {
    let by_us = from_us.abs_diff(to_us);
    let steps = (parts.len() as u64).saturating_sub(1).max(1);
    let mut step = 0u64;
    for part in parts {
        let passed_us = by_us.saturating_mul(step) / steps;
        let line_us = if to_us >= from_us {
            from_us.saturating_add(passed_us)
        } else {
            from_us.saturating_sub(passed_us)
        };
        if line_us.abs_diff(*part) > by_us / STRAY {
            return false;
        }
        step = step.saturating_add(1);
    }
    true
}
