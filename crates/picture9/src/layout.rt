//! Which of the records around a break are drawn, and where.

use crate::blocks::Seen;
use crate::measure::{PIXEL, width_of};
use crate::reading::Asked;
use crate::shapes::MARGIN;
use crate::spot::{Spot, place_records};
use crate::text_rows::WIRES_LEFT;
use std::alloc::{AllocError, Global};

/// Where the first box stands.
const FIRST_LEFT: u64 = WIRES_LEFT + 6 * PIXEL;

/// How wide a picture is at least.
pub(crate) const LEAST_WIDE: u64 = 700 * PIXEL;

/// What is drawn of the records around a break.
#[derive(Drop)]
pub(crate) struct Layout {
    /// The records, in their places.
    pub(crate) drawn: Vec<Spot>,
    /// The one that breaks.
    pub(crate) breaking: Spot,
    /// The one before it, where the time between them is measured, and the limit of that.
    pub(crate) measured: Option<(Spot, u64)>,
    /// The last record that was judged.
    judged_to: u32,
    /// How wide the picture is.
    pub(crate) wide: u64,
}

impl Layout {
    /// Whether a record is the one that breaks.
    pub(crate) fn is_breaking(&self, spot: &Spot) -> bool {
        spot.seen.number == self.breaking.seen.number
    }

    /// Whether a record was not judged.
    pub(crate) fn is_pale(&self, spot: &Spot) -> bool {
        spot.seen.number > self.judged_to
    }
}

/// The stretch of records that is drawn.
#[derive(Clone, Copy)]
struct Stretch {
    /// The record that breaks.
    breaking: Spot,
    /// The first one that is open at it.
    open: Spot,
    /// How much room is needed from that one on.
    need: u64,
    /// How much there is.
    room: u64,
}

/// Chooses what is drawn around the record that breaks, by a rule with this limit, if it has one. None where that record was not seen.
/// The picture is so many pixels wide at most, unless what breaks the rule would not fit.
pub(crate) fn lay_out(
    alloc: Global,
    seen: &[Seen],
    asked: &Asked,
    limit_us: Option<u64>,
    width: u32,
) -> Result<Option<Layout>, AllocError> {
    let at = asked.at;
    let placed = place_records(alloc, seen, at, limit_us)?;
    let spots = placed.as_slice();
    let (Some(breaking), Some(open)) = (spot_of(spots, at), open_at(spots, at)) else {
        return Ok(None);
    };
    let before = spot_of(spots, at.saturating_sub(1));
    let measured = before.and_then(|before| Some((before, limit_us?)));
    let last = last_judged(spots, &breaking, asked.judged_to);
    let end = last.end().max(measured.map_or(0, limit_end));
    let need = end.saturating_sub(open.x);
    let most = u64::from(width).saturating_mul(PIXEL);
    let room = most.saturating_sub(2 * MARGIN + 90 * PIXEL);
    let mut stretch = Stretch {
        breaking,
        open,
        need,
        room: room.max(need.saturating_add(100 * PIXEL)),
    };
    let last = stretch.last(spots, last);
    stretch.need = end.max(last.end()).saturating_sub(open.x);
    let first = stretch.first(spots);
    let wide = moved(open, &first).x.saturating_add(stretch.need);
    Ok(Some(Layout {
        drawn: drawn_of(alloc, spots, &first, &last)?,
        breaking: moved(breaking, &first),
        measured: measured.map(|(before, limit_us)| (moved(before, &first), limit_us)),
        judged_to: asked.judged_to,
        wide: wide.saturating_add(MARGIN + 30 * PIXEL).max(LEAST_WIDE),
    }))
}

/// Where the limit behind a record ends.
fn limit_end((before, limit_us): (Spot, u64)) -> u64 {
    before.x.saturating_add(width_of(limit_us))
}

/// The record with this number.
fn spot_of(spots: &[Spot], number: u32) -> Option<Spot> {
    let found = spots.iter().find(|spot| spot.seen.number == number);
    found.copied()
}

/// The first record of what is open at the one with this number: the command, with what there is of the reply.
fn open_at(spots: &[Spot], at: u32) -> Option<Spot> {
    let before = spot_of(spots, at.saturating_sub(1));
    let Some(first) = before.and_then(|before| before.seen.open_command) else {
        return spot_of(spots, at);
    };
    let found = spots.iter().find(|spot| spot.seen.number >= first);
    found.copied()
}

/// The last record of the block of the one that breaks, so far as it was judged.
fn last_judged(spots: &[Spot], breaking: &Spot, judged_to: u32) -> Spot {
    let mut last = *breaking;
    for spot in spots {
        if spot.seen.number <= breaking.seen.number {
            continue;
        }
        if spot.seen.number > judged_to || spot.seen.block != breaking.seen.block {
            break;
        }
        last = *spot;
    }
    last
}

impl Stretch {
    /// The last record that is drawn: whole blocks after what is needed, on a third of the room at most.
    fn last(&self, spots: &[Spot], needed: Spot) -> Spot {
        let mut last = needed;
        let mut whole = needed;
        for spot in spots {
            if spot.seen.number <= needed.seen.number {
                continue;
            }
            if !self.has_room(spot) {
                break;
            }
            if spot.seen.is_last {
                last = *spot;
            }
            if spot.seen.none_open {
                whole = *spot;
            }
        }
        if whole.seen.number > self.breaking.seen.number && whole.seen.none_open {
            whole
        } else {
            last
        }
    }

    /// Whether there is room for a record after the one that breaks.
    fn has_room(&self, spot: &Spot) -> bool {
        let since_breaking = spot.x.saturating_sub(self.breaking.x);
        spot.end().saturating_sub(self.open.x) <= self.room
            && since_breaking.saturating_mul(3) <= self.room
    }

    /// The first record that is drawn: as many whole blocks before what is open as fit.
    fn first(&self, spots: &[Spot]) -> Spot {
        for spot in spots {
            let before = self.open.x.saturating_sub(spot.x);
            let fits = self.need.saturating_add(before) <= self.room;
            if fits && spot.seen.is_first() && spot.seen.number < self.open.seen.number {
                return *spot;
            }
        }
        self.open
    }
}

/// A record in its place, where the first that is drawn stands at its own.
fn moved(spot: Spot, first: &Spot) -> Spot {
    let x = spot.x.saturating_add(FIRST_LEFT);
    Spot {
        x: x.saturating_sub(first.x),
        ..spot
    }
}

/// The records from the first to the last, in their places.
fn drawn_of(
    alloc: Global,
    spots: &[Spot],
    first: &Spot,
    last: &Spot,
) -> Result<Vec<Spot>, AllocError> {
    let mut drawn = Vec::new(alloc);
    for spot in spots {
        let number = spot.seen.number;
        if number >= first.seen.number && number <= last.seen.number {
            drawn.push(moved(*spot, first))?;
        }
    }
    Ok(drawn)
}
