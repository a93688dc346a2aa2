//! What is judged again in the search: near a break first, and then all of the capture.

use crate::assumed::Assumed;
use crate::came::{Came, End, end_of_piece, judge_piece};
use crate::offer::{Offer, Supposes, only_rate};
use crate::piece::Piece;
use crate::question::{Question, Unasked};
use crate::search::{Basis, Search};
use crate::seen_rate::fitting_instead;
use deck9::{Deck, Profile};
use program9::Broken;
use report9::{Beginning, Extent};
use std::io::Read;
use tc25::Rate;

/// So many records before a break are looked at first, and so many where the cause lies further back.
pub(crate) const NEAR: [u32; 2] = [65_536, 524_288];

/// So many rule out most of what is assumed.
const CLOSE: u32 = 4_096;

/// The records up to a break from which on it comes as it does in the capture.
#[derive(Clone, Copy)]
pub(crate) struct Near<'q> {
    pub(crate) records: Piece<'q>,
    /// The last of them, where it comes so from those on too.
    close: Option<Piece<'q>>,
}

/// What is assumed, as a deck.
#[derive(Drop)]
struct Supposed {
    profile: Profile,
    /// The sheet of the program alone that was added last, if there is one.
    sheet: Option<Deck>,
}

impl<'q> Search<'q> {
    /// The records up to a break from which on it comes as it does in the capture.
    pub(crate) fn near<R: Read + Drop>(
        &mut self,
        assumed: Assumed,
        broken: Broken,
    ) -> Result<Near<'q>, Unasked> {
        let records = self.near_records::<R>(assumed, broken)?;
        let before = broken.at.saturating_sub(records.before);
        let last = records.without(before.saturating_sub(CLOSE));
        let close = match last {
            Some(close) => self
                .breaks_so::<R>(close, assumed, broken)?
                .then_some(close),
            None => None,
        };
        Ok(Near { records, close })
    }

    /// The same, as many of them as are looked at.
    fn near_records<R: Read + Drop>(
        &mut self,
        assumed: Assumed,
        broken: Broken,
    ) -> Result<Piece<'q>, Unasked> {
        let whole = self.whole;
        for count in NEAR {
            let first = broken.at.saturating_sub(count);
            let (first, beginning) = if first <= whole.before {
                (whole.before.saturating_add(1), whole.beginning)
            } else {
                (first, Beginning::FirstCommand)
            };
            let near = Piece::between(self.question.text, first, broken.at, beginning);
            if let Some(near) = near {
                if self.breaks_so::<R>(near, assumed, broken)? {
                    return Ok(near);
                }
            }
        }
        let is_known = self.question.scope.extent == Extent::FirstBreak;
        if is_known || self.breaks_so::<R>(whole, assumed, broken)? {
            Ok(whole)
        } else {
            Err(Unasked)
        }
    }

    /// Whether a piece breaks so.
    pub(crate) fn breaks_so<R: Read + Drop>(
        &mut self,
        piece: Piece<'_>,
        assumed: Assumed,
        broken: Broken,
    ) -> Result<bool, Unasked> {
        match self.suppose(assumed)? {
            Some(supposed) => Ok(self.end_of::<R>(piece, &supposed)? == End::Broken(broken)),
            None => Ok(false),
        }
    }

    /// What is assumed, as a deck; none where two sheets say different things of one key.
    fn suppose(&self, assumed: Assumed) -> Result<Option<Supposed>, Unasked> {
        let Some(profile) = assumed.profile(self.alloc, &self.question)? else {
            return Ok(None);
        };
        let sheet = assumed.added_deck(self.alloc)?;
        Ok(Some(Supposed { profile, sheet }))
    }

    /// Judges a piece, and looks for the commands at which this sheet says what the deck does.
    fn judge<R: Read + Drop>(
        &mut self,
        piece: Piece<'_>,
        profile: &Profile,
        sheet: Option<&Deck>,
    ) -> Result<Came, Unasked> {
        self.spend(piece)?;
        let extent = self.question.scope.extent;
        judge_piece::<R>(self.alloc, piece, extent, profile, sheet)
    }

    /// How judging a piece ends.
    fn end_of<R: Read + Drop>(
        &mut self,
        piece: Piece<'_>,
        supposed: &Supposed,
    ) -> Result<End, Unasked> {
        self.spend(piece)?;
        let extent = self.question.scope.extent;
        end_of_piece::<R>(self.alloc, piece, extent, &supposed.profile)
    }

    /// Takes a piece from what may still be judged, which it must not exceed.
    fn spend(&mut self, piece: Piece<'_>) -> Result<(), Unasked> {
        self.left = self.left.checked_sub(piece.len()).ok_or(Unasked)?;
        Ok(())
    }

    /// Those of these that come past the break, as far as the records near it tell.
    pub(crate) fn offers<R: Read + Drop>(
        &mut self,
        list: &[Assumed],
        basis: &Basis<'_>,
    ) -> Result<Vec<Offer>, Unasked> {
        let mut offers = Vec::new(self.alloc);
        for assumed in list {
            let Some(offer) = self.offer::<R>(*assumed, basis)? else {
                continue;
            };
            if offers.push(offer).is_err() {
                return Err(Unasked);
            }
        }
        Ok(offers)
    }

    /// This, where it comes past the break, as far as the records near it tell: the last of them first, since those are few.
    fn offer<R: Read + Drop>(
        &mut self,
        assumed: Assumed,
        basis: &Basis<'_>,
    ) -> Result<Option<Offer>, Unasked> {
        let Some(supposed) = self.suppose(assumed)? else {
            return Ok(None);
        };
        if let Some(close) = basis.near.close {
            if !is_past(self.end_of::<R>(close, &supposed)?, basis.broken) {
                return Ok(None);
            }
        }
        let (profile, sheet) = (&supposed.profile, supposed.sheet.as_ref());
        let came = self.judge::<R>(basis.near.records, profile, sheet)?;
        let offer = Offer {
            assumed,
            place: came.place,
            end: came.end,
            rates: only_rate(assumed.rate),
        };
        Ok(is_past(came.end, basis.broken).then_some(offer))
    }

    /// The first of these that supposes so much and explains all.
    pub(crate) fn first_yes<R: Read + Drop>(
        &mut self,
        offers: &[Offer],
        supposed: Supposes,
    ) -> Result<Option<Offer>, Unasked> {
        for offer in offers {
            if offer.supposes() != supposed {
                continue;
            }
            let yes = self.yes::<R>(*offer)?;
            if yes.is_some() {
                return Ok(yes);
            }
        }
        Ok(None)
    }

    /// The first of these, each at another rate, that explains all, with all rates that do.
    pub(crate) fn yes_at_rates<R: Read + Drop>(
        &mut self,
        offers: &[Offer],
    ) -> Result<Option<Offer>, Unasked> {
        let mut found = None;
        for offer in offers {
            let yes = match self.yes::<R>(*offer) {
                Ok(yes) => yes,
                Err(unasked) if found.is_none() => return Err(unasked),
                Err(_) => return Ok(found),
            };
            found = together(found, yes);
        }
        Ok(found)
    }

    /// This, where it explains all.
    fn yes<R: Read + Drop>(&mut self, offer: Offer) -> Result<Option<Offer>, Unasked> {
        match self.on_all::<R>(offer)? {
            Some(offer) if offer.end == End::Yes => Ok(Some(offer)),
            _ => Ok(None),
        }
    }

    /// How all ends with it; none where it does not explain the break there, or where the capture speaks against its rate.
    fn on_all<R: Read + Drop>(&mut self, offer: Offer) -> Result<Option<Offer>, Unasked> {
        if self.is_spoken_against::<R>(offer.assumed.rate) {
            return Ok(None);
        }
        let Some(supposed) = self.suppose(offer.assumed)? else {
            return Ok(None);
        };
        let end = self.end_of::<R>(self.whole, &supposed)?;
        if !is_past(end, self.broken) {
            return Ok(None);
        }
        let offer = Offer { end, ..offer };
        if offer.end != End::Yes && self.is_furthest(offer.end) {
            self.further = Some(offer);
        }
        Ok(Some(offer))
    }

    /// Whether the capture speaks against a rate at which it was not asked, where it does not speak against that at which it was.
    fn is_spoken_against<R: Read + Drop>(&self, rate: Rate) -> bool {
        let Question {
            text,
            scope,
            rate: asked,
            ..
        } = self.question;
        rate != asked
            && self.fits.is_none()
            && fitting_instead::<R>(self.alloc, text, scope.beginning, rate).is_some()
    }

    /// Whether this end comes further than what came furthest so far.
    fn is_furthest(&self, end: End) -> bool {
        match self.further {
            None => true,
            Some(further) => record_of(end) > record_of(further.end),
        }
    }
}

/// The first, also at the rates of the second.
fn together(first: Option<Offer>, second: Option<Offer>) -> Option<Offer> {
    let Some(first) = first else {
        return second;
    };
    match second {
        Some(second) => Some(first.with_rates_of(&second)),
        None => Some(first),
    }
}

/// Whether a judging comes past a break.
fn is_past(end: End, broken: Broken) -> bool {
    record_of(end) > broken.at
}

/// The record with which a judging ends; the greatest number where that is the last.
fn record_of(end: End) -> u32 {
    match end {
        End::Yes => u32::MAX,
        End::Broken(broken) => broken.at,
        End::BadRow(row) => row,
    }
}
