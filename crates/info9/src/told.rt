//! The times that are told: in replies to CURRENT TIME SENSE and to register senses, and in the commands that carry one.

use crate::label::Label;
use crate::place::Place;

/// What is counted of the times told.
#[derive(Clone, Copy)]
pub(crate) struct Told {
    pub(crate) times: u64,
    /// The greatest frame of a second.
    pub(crate) greatest: u32,
    /// How many have the flag of drop frame.
    pub(crate) flagged: u64,
    /// How many have a label that drop frame leaves out: frame 00 or 01 of some minutes.
    pub(crate) undropped: u64,
    /// How many are of the deck's clock.
    pub(crate) by_clock: u64,
    /// How many of those that drop frame leaves out are of the deck's clock, and nothing that a controller may have set.
    pub(crate) undropped_by_clock: u64,
    /// The first.
    pub(crate) first: Option<Place>,
    /// The first that the rate asked with does not have, and its frame.
    pub(crate) lacking: Option<(Place, u32)>,
}

impl Told {
    /// Whether most times have the flag of drop frame.
    pub(crate) fn is_flagged(&self) -> bool {
        self.times >= 3 && self.flagged > self.times / 2
    }

    /// Whether a time speaks against drop frame. Where most have its flag only the deck's clock does: a register may have been set to a
    /// time that drop frame has not.
    pub(crate) fn is_undropped(&self) -> bool {
        if self.is_flagged() {
            self.undropped_by_clock > 0
        } else {
            self.undropped > 0
        }
    }

    /// Of no time.
    pub(crate) const NONE: Told = Told {
        times: 0,
        greatest: 0,
        flagged: 0,
        undropped: 0,
        by_clock: 0,
        undropped_by_clock: 0,
        first: None,
        lacking: None,
    };

    /// With times in commands besides. Of what drop frame has not these say nothing.
    pub(crate) fn and(&self, set: &Told) -> Told {
        let lacking = match (self.lacking, set.lacking) {
            (Some((at, _)), Some((before, frame))) if before.record < at.record => Some((
                before, frame,
            )),
            (one, another) => one.or(another),
        };
        Told {
            times: self.times.saturating_add(set.times),
            greatest: self.greatest.max(set.greatest),
            flagged: self.flagged.saturating_add(set.flagged),
            lacking,
            ..*self
        }
    }

    /// Takes a time: of the deck's clock, or another.
    pub(crate) fn take(&mut self, label: &Label, is_clock: bool) {
        self.times = self.times.saturating_add(1);
        self.greatest = self.greatest.max(label.frame);
        self.flagged = self.flagged.saturating_add(u64::from(label.is_flagged));
        self.undropped = self.undropped.saturating_add(u64::from(!label.is_drop));
        self.by_clock = self.by_clock.saturating_add(u64::from(is_clock));
        let is_clock_undropped = is_clock && !label.is_drop;
        self.undropped_by_clock = self
            .undropped_by_clock
            .saturating_add(u64::from(is_clock_undropped));
        self.first = self.first.or(Some(label.place));
        if !label.is_asked {
            self.lacking = self.lacking.or(Some((label.place, label.frame)));
        }
    }
}
