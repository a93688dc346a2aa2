//! Traffic and the delays of replies over time, in bins that grow with the session.

use crate::html::BreakId;
use crate::span::Window;
use seen9::SeenExchange;
use std::alloc::Global;
use text9::Growing;

/// The top of the delays that are drawn, in microseconds.
pub(crate) const MOST_DRAWN_US: u64 = 14_000;

/// How many microseconds a class of delays has. The middle of a bin is that of its class.
const CLASS_US: u64 = 100;

/// How many classes there are: the last one has all delays from the top on.
const CLASSES: usize = (MOST_DRAWN_US / CLASS_US) as usize + 1;

/// How many bins there may be before they are made wider.
const MOST_FINE: u64 = 6_000;

/// The least width of a bin, in microseconds.
const LEAST_US: u64 = 1_000;

/// A late reply that has a dot.
#[derive(Clone, Copy)]
pub(crate) struct LateDot {
    /// How long it came after the command, in microseconds.
    pub(crate) delay_us: u64,
    /// Its time on the capture's clock, in microseconds.
    pub(crate) time_us: u64,
    /// The number of its first record.
    pub(crate) at: u32,
    /// Where it is listed.
    pub(crate) id: Option<BreakId>,
}

/// The exchanges and late replies of one bin.
#[derive(Clone, Copy)]
pub(crate) struct Bin {
    /// How many exchanges end in it.
    pub(crate) exchanges: u32,
    /// The greatest delay of their replies, in microseconds.
    pub(crate) greatest_us: u64,
    /// How many of the delays are of each class.
    classes: [u32; CLASSES],
    /// How many late replies begin in it.
    pub(crate) late_replies: u32,
    /// The slowest of them.
    pub(crate) slowest: Option<LateDot>,
}

impl Bin {
    /// A bin of nothing.
    pub(crate) const EMPTY: Bin = Bin {
        exchanges: 0,
        greatest_us: 0,
        classes: [0; CLASSES],
        late_replies: 0,
        slowest: None,
    };

    /// The middle of the delays, in microseconds: of an even number the lower one of two, to its class.
    pub(crate) fn middle_us(&self) -> u64 {
        let middle = self.exchanges.div_ceil(2);
        let mut seen = 0u32;
        let mut from_us = 0u64;
        for delays in self.classes {
            seen = seen.saturating_add(delays);
            if seen >= middle {
                break;
            }
            from_us = from_us.saturating_add(CLASS_US);
        }
        from_us.saturating_add(CLASS_US / 2)
    }

    /// Counts an exchange with this delay.
    fn count(&mut self, delay_us: u64) {
        self.exchanges = self.exchanges.saturating_add(1);
        self.greatest_us = self.greatest_us.max(delay_us);
        let class = (delay_us.min(MOST_DRAWN_US) / CLASS_US) as usize;
        if let Some(delays) = self.classes.get_mut(class) {
            *delays = delays.saturating_add(1);
        }
    }

    /// Takes a late reply.
    fn take_late(&mut self, late: LateDot) {
        self.late_replies = self.late_replies.saturating_add(1);
        self.take_slowest(late);
    }

    /// Takes a late reply that may be the slowest.
    fn take_slowest(&mut self, late: LateDot) {
        let slowest_us = self.slowest.map_or(0, |slowest| slowest.delay_us);
        if late.delay_us > slowest_us {
            self.slowest = Some(late);
        }
    }

    /// Takes what a later bin has.
    fn join(&mut self, later: &Bin) {
        self.exchanges = self.exchanges.saturating_add(later.exchanges);
        self.greatest_us = self.greatest_us.max(later.greatest_us);
        self.late_replies = self.late_replies.saturating_add(later.late_replies);
        for (delays, more) in self.classes.iter_mut().zip(later.classes.iter()) {
            *delays = delays.saturating_add(*more);
        }
        if let Some(late) = later.slowest {
            self.take_slowest(late);
        }
    }
}

/// The bins of a session, so far.
#[derive(Drop)]
pub(crate) struct Bins {
    alloc: Global,
    window: Window,
    /// How long each one is, in microseconds: a power of ten.
    width_us: u64,
    bins: Growing<Bin>,
    /// How many exchanges they have.
    exchanges: u64,
}

/// The bins as they are drawn.
#[derive(Drop)]
pub(crate) struct DrawnBins {
    /// How long each one is, in microseconds, but for the last one, which ends with the session.
    pub(crate) width_us: u64,
    pub(crate) bins: Growing<Bin>,
}

impl Bins {
    /// Of nothing yet.
    pub(crate) fn new(alloc: Global, window: Window) -> Bins {
        Bins {
            alloc,
            window,
            width_us: LEAST_US,
            bins: Growing::new(alloc),
            exchanges: 0,
        }
    }

    /// How many exchanges they have.
    pub(crate) fn exchanges(&self) -> u64 {
        self.exchanges
    }

    /// Counts an exchange in the bin in which it ends.
    pub(crate) fn exchange(&mut self, seen: &SeenExchange<'_>) {
        self.exchanges = self.exchanges.saturating_add(1);
        if let Some(bin) = self.bin_of(seen.end_us) {
            bin.count(seen.exchange.delay_us);
        }
    }

    /// Takes a late reply.
    pub(crate) fn late(&mut self, late: LateDot) {
        if let Some(bin) = self.bin_of(late.time_us) {
            bin.take_late(late);
        }
    }

    /// Whether memory was refused for a bin.
    pub(crate) fn is_short(&self) -> bool {
        self.bins.is_short()
    }

    /// The bin of a time, unless memory is refused for it.
    fn bin_of(&mut self, us: u64) -> Option<&mut Bin> {
        let since_us = self.window.since(us);
        self.widen_for(since_us);
        let place = since_us.checked_div(self.width_us).unwrap_or(0);
        self.fill_to(place);
        self.bins.as_mut_slice().get_mut(place as usize)
    }

    /// Makes the bins so wide that this time has one of the most that there may be.
    fn widen_for(&mut self, since_us: u64) {
        for _ in 0..20 {
            if since_us.checked_div(self.width_us).unwrap_or(0) < MOST_FINE {
                break;
            }
            let narrow = self.bins.take_all();
            push_joined(&mut self.bins, narrow.as_slice(), 10);
            self.width_us = self.width_us.saturating_mul(10);
        }
    }

    /// Adds empty bins up to this place.
    fn fill_to(&mut self, place: u64) {
        for _ in self.bins.len() as u64..=place.min(MOST_FINE) {
            self.bins.push(Bin::EMPTY);
        }
    }

    /// The bins as they are drawn of a session that lasts so many microseconds. They have the smallest width of 1, 2 or 5 times a power
    /// of ten, from a millisecond on, that keeps the charts legible: at most 600 bins, and on average six exchanges in each, unless they
    /// are a hundred or fewer. What is left over under half a bin joins the one before.
    pub(crate) fn drawn(&self, lasts_us: u64) -> DrawnBins {
        let width_us = self.drawn_width_us(lasts_us);
        let by = width_us.checked_div(self.width_us).unwrap_or(1).max(1);
        let mut bins = Growing::new(self.alloc);
        push_joined(&mut bins, self.bins.as_slice(), by as usize);
        let wanted = bins_in(lasts_us, width_us);
        let full_us = wanted.saturating_sub(1).saturating_mul(width_us);
        let is_short = wanted > 1 && lasts_us.saturating_sub(full_us) < width_us / 2;
        let wanted = if is_short { wanted - 1 } else { wanted };
        fit(&mut bins, wanted);
        DrawnBins { width_us, bins }
    }

    /// How wide the bins are that are drawn, in microseconds.
    fn drawn_width_us(&self, lasts_us: u64) -> u64 {
        let mut width_us = LEAST_US;
        for step in 0..60u32 {
            let bins = bins_in(lasts_us, width_us);
            let is_full = bins <= 100 || self.exchanges >= bins.saturating_mul(6);
            if bins <= 600 && is_full && width_us >= self.width_us {
                break;
            }
            width_us = match step % 3 {
                1 => width_us.saturating_mul(5) / 2,
                _ => width_us.saturating_mul(2),
            };
        }
        width_us
    }
}

impl DrawnBins {
    /// How long the bin at a place is, in microseconds: the last one ends with the session.
    pub(crate) fn covered_us(&self, place: usize, lasts_us: u64) -> u64 {
        let is_last = place.saturating_add(1) >= self.bins.len();
        if !is_last || lasts_us == 0 {
            return self.width_us;
        }
        let from_us = (place as u64).saturating_mul(self.width_us);
        lasts_us.saturating_sub(from_us)
    }
}

/// How many bins so wide a session needs.
fn bins_in(lasts_us: u64, width_us: u64) -> u64 {
    lasts_us
        .checked_div(width_us)
        .unwrap_or(0)
        .saturating_add(1)
}

/// Pushes the bins joined by so many.
fn push_joined(joined: &mut Growing<Bin>, bins: &[Bin], by: usize) {
    let mut place = 0usize;
    for bin in bins {
        if place == 0 {
            joined.push(*bin);
        } else if let Some(last) = joined.last_mut() {
            last.join(bin);
        }
        place = if place.saturating_add(1) >= by {
            0
        } else {
            place.saturating_add(1)
        };
    }
}

/// Makes so many bins of these: those behind the last one join it.
fn fit(bins: &mut Growing<Bin>, wanted: u64) {
    for _ in bins.len() as u64..wanted.min(MOST_FINE) {
        bins.push(Bin::EMPTY);
    }
    for _ in wanted.max(1)..bins.len() as u64 {
        if let Some(last) = bins.pop() {
            if let Some(before) = bins.last_mut() {
                before.join(&last);
            }
        }
    }
}
