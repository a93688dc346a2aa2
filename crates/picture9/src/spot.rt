//! The place of each record from the left.

use crate::blocks::Seen;
use crate::measure::{PIXEL, width_of};
use crate::shapes::BOX_WIDE;
use capture9::Wire;
use std::alloc::{AllocError, Global};

/// How much of a silence is drawn, in microseconds.
pub(crate) const DRAWN_US: u64 = 2_000;

/// A record, and where its box begins.
#[derive(Clone, Copy)]
pub(crate) struct Spot {
    pub(crate) seen: Seen,
    pub(crate) x: u64,
    /// Whether the silence before it is cut.
    pub(crate) is_cut: bool,
}

impl Spot {
    /// Where its box ends.
    pub(crate) fn end(&self) -> u64 {
        self.x.saturating_add(BOX_WIDE)
    }

    /// Where the middle of its box is.
    pub(crate) fn middle(&self) -> u64 {
        self.x.saturating_add(BOX_WIDE / 2)
    }

    /// The time from another record to this one, in microseconds.
    pub(crate) fn since(&self, before: &Spot) -> u64 {
        self.seen
            .record
            .time_us
            .saturating_sub(before.seen.record.time_us)
    }
}

/// Places records, the first of them at 0. A silence longer than is drawn is cut; before the record of the number `at` the limit is drawn
/// besides, where there is one.
pub(crate) fn place_records(
    alloc: Global,
    seen: &[Seen],
    at: u32,
    limit_us: Option<u64>,
) -> Result<Vec<Spot>, AllocError> {
    let mut spots = Vec::new(alloc);
    let mut last: Option<Spot> = None;
    for next in seen {
        let limit_us = limit_us.filter(|_| next.number == at);
        let mut spot = spot_after(last, *next, limit_us.unwrap_or(0));
        spot.x = spot.x.max(free_on(spots.as_slice(), next.record.wire));
        last = Some(spot);
        spots.push(spot)?;
    }
    Ok(spots)
}

/// The place of a record after the one before, by the time between them, of which `more_us` more than usual may be drawn.
fn spot_after(last: Option<Spot>, seen: Seen, more_us: u64) -> Spot {
    let Some(last) = last else {
        return Spot {
            seen,
            x: 0,
            is_cut: false,
        };
    };
    let most_us = DRAWN_US.saturating_add(more_us);
    let rest_us = seen.record.time_us.saturating_sub(last.seen.record.time_us);
    Spot {
        seen,
        x: last.x.saturating_add(width_of(rest_us.min(most_us))),
        is_cut: rest_us > most_us,
    }
}

/// From where on a wire is free, behind the boxes of these records.
fn free_on(spots: &[Spot], wire: Wire) -> u64 {
    spots
        .iter()
        .rev()
        .find(|spot| spot.seen.record.wire == wire)
        .map_or(0, |last| last.end().saturating_add(2 * PIXEL))
}
