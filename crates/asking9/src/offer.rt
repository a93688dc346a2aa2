//! What explains a break, and how that is told.

use crate::assumed::{Assumed, Sheet};
use crate::came::{End, Place};
use crate::invalid_time::put_rates;
use crate::question::{Asked, Question, Unasked};
use deck9::{Hands, Profile};
use report9::{Extent, put_count, put_head, put_text, put_word};
use std::alloc::{AllocError, Global};
use tc25::Rate;

/// What explains a break.
#[derive(Clone, Copy)]
pub(crate) struct Offer {
    pub(crate) assumed: Assumed,
    /// The command that needs the sheet, where one is assumed.
    pub(crate) place: Option<Place>,
    /// How the judging ends with it.
    pub(crate) end: End,
    /// The rates, in the order in which they are told, at which it explains as much.
    pub(crate) rates: [bool; 4],
}

/// This rate alone.
pub(crate) fn only_rate(rate: Rate) -> [bool; 4] {
    Rate::ALL.map(|other| other == rate)
}

/// How much an explanation supposes of what the capture does not show.
#[derive(Clone, Copy, PartialEq, Eq)]
pub(crate) enum Supposes {
    /// Another rate, or a sheet that speaks of a command of the capture.
    Little,
    /// A hand on the panel, which nobody sees.
    AHand,
    /// A sheet that speaks of none of its commands.
    AHabit,
}

impl Offer {
    /// How much it supposes.
    pub(crate) fn supposes(&self) -> Supposes {
        match self.assumed.sheet {
            Sheet::Beside(..) => match self.place {
                Some(place) if place.is_said => Supposes::Little,
                _ => Supposes::AHabit,
            },
            Sheet::Own if self.assumed.hands == Hands::Allowed => Supposes::AHand,
            Sheet::Own | Sheet::Without => Supposes::Little,
        }
    }

    /// The same, also at the rates of another.
    pub(crate) fn with_rates_of(&self, also: &Offer) -> Offer {
        let mut both = *self;
        for (has, more) in both.rates.iter_mut().zip(also.rates) {
            *has |= more;
        }
        both
    }

    /// Puts what is assumed, of several rates each.
    fn put_assumed(&self, line: &mut Vec<u8>, question: &Question<'_>) -> Result<(), AllocError> {
        if self.rates == only_rate(self.assumed.rate) {
            return self.assumed.put(line, question);
        }
        put_text(line, " with ")?;
        put_rates(line, self.rates)
    }

    /// Puts it as what to ask with, without the end of a line.
    pub(crate) fn put(
        &self,
        alloc: Global,
        line: &mut Vec<u8>,
        question: &Question<'_>,
        asked: &Asked,
    ) -> Result<(), Unasked> {
        let is_yes = question.scope.extent == Extent::FirstBreak && self.end == End::Yes;
        if is_yes {
            put_text(line, "yes")?;
        } else {
            put_count(line, "record ", u64::from(asked.broken.at))?;
            put_text(line, " keeps the rules")?;
        }
        self.put_assumed(line, question)?;
        if let (Sheet::Beside(..), Some(place)) = (self.assumed.sheet, self.place) {
            if !question.sheets.is_empty() {
                put_text(line, " beside your own")?;
            }
            let profile = self.assumed.profile(alloc, question)?;
            put_place(line, profile, place)?;
        }
        Ok(put_end(line, self.end)?)
    }
}

/// Puts a command and its record.
fn put_place(line: &mut Vec<u8>, profile: Option<Profile>, place: Place) -> Result<(), AllocError> {
    put_text(line, " (")?;
    match profile
        .as_ref()
        .and_then(|profile| profile.name_of(&place.command))
    {
        Some(name) => line.extend_from_slice(name)?,
        None => put_head(line, place.head)?,
    }
    put_count(line, " at record ", u64::from(place.record))?;
    put_text(line, ")")
}

/// Puts where the judging ends, where it does not come to the end of the capture.
fn put_end(line: &mut Vec<u8>, end: End) -> Result<(), AllocError> {
    match end {
        End::Yes => Ok(()),
        End::Broken(broken) => {
            put_count(line, "; then record ", u64::from(broken.at))?;
            put_word(line, " breaks ", broken.reason.name())
        }
        End::BadRow(row) => {
            put_count(line, "; then row ", u64::from(row))?;
            put_text(line, " can't be read")
        }
    }
}
