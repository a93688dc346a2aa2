//! The search for what explains a break with the least that is assumed.
//!
//! What can't come past the break is found out on the records before it, and only what is left is judged on all of the capture. A judging
//! that begins later knows less of the deck, and supposes that everything may be going on that a sheet names. So where it is a no, that of
//! the whole capture is one too, and nothing is missed.

use crate::assumed::{Assumed, Sheet};
use crate::came::End;
use crate::judged_again::{NEAR, Near};
use crate::lists::{at_rates, with_hand, with_one, with_second, without_sheets};
use crate::offer::{Offer, Supposes};
use crate::piece::Piece;
use crate::question::{Asked, PartStart, Question, Unasked, is_of_time};
use crate::seen_rate::fitting_instead;
use info9::Fitting;
use program9::{Broken, is_worth_asking};
use report9::{Beginning, Extent};
use std::alloc::Global;
use std::io::Read;
use tc25::Rate;

/// What may be judged, in bytes, beside seven quarters of the capture: enough for all assumptions on the records near a break.
const MOST_BESIDE: usize = 0x100_0000;

/// What is taken for granted while one thing more is assumed: where a capture breaks with it, and the records up to there.
#[derive(Clone, Copy)]
pub(crate) struct Basis<'q> {
    pub(crate) assumed: Assumed,
    pub(crate) broken: Broken,
    pub(crate) near: Near<'q>,
}

/// A search.
#[derive(Drop)]
pub(crate) struct Search<'q> {
    pub(crate) alloc: Global,
    pub(crate) question: Question<'q>,
    pub(crate) broken: Broken,
    /// All that an explanation must explain: the capture, or the part up to the record that breaks.
    pub(crate) whole: Piece<'q>,
    /// How many bytes may still be judged.
    pub(crate) left: usize,
    /// The rates that fit, where something speaks against one's own.
    pub(crate) fits: Option<Fitting>,
    /// What explains this break and not all that comes behind it: what comes furthest.
    pub(crate) further: Option<Offer>,
}

/// What explains a break: what makes all of the capture a yes, or else what comes furthest; nothing where nothing does. Over all parts it
/// explains the part up to the record that breaks.
pub(crate) fn explanation<R: Read + Drop>(
    alloc: Global,
    question: Question<'_>,
    asked: Asked,
) -> Result<Option<Offer>, Unasked> {
    let (text, beginning) = (question.text, question.scope.beginning);
    let mut search = Search {
        alloc,
        question,
        broken: asked.broken,
        whole: Piece::whole(text, beginning),
        left: (text.len() / 4)
            .saturating_mul(7)
            .saturating_add(MOST_BESIDE),
        fits: fitting_instead::<R>(alloc, text, beginning, question.rate),
        further: None,
    };
    if question.scope.extent == Extent::WholeCapture {
        search.whole = search.part_of::<R>(asked)?;
    }
    let found = search.best::<R>()?;
    Ok(found.or(search.further))
}

impl<'q> Search<'q> {
    /// The part that a record ends. A long one of which it is known where it begins is not judged: the records near the break tell whether
    /// they are counted right.
    fn part_of<R: Read + Drop>(&mut self, asked: Asked) -> Result<Piece<'q>, Unasked> {
        let (own, at) = (self.question.own(), asked.broken.at);
        let ways = match asked.start {
            PartStart::Capture => [
                (1, self.question.scope.beginning),
                (1, Beginning::FirstRecord),
            ],
            PartStart::At(first) => [(first, Beginning::FirstRecord); 2],
            PartStart::FromBreak(broken) => [
                (broken, Beginning::FirstCommand),
                (broken, Beginning::FirstRecord),
            ],
        };
        for (first, beginning) in ways {
            let Some(part) = Piece::between(self.question.text, first, at, beginning) else {
                return Err(Unasked);
            };
            let is_long = at.saturating_sub(first) > NEAR[0];
            let is_known = is_long && !matches!(asked.start, PartStart::FromBreak(_));
            if is_known || self.breaks_so::<R>(part, own, asked.broken)? {
                return Ok(part);
            }
        }
        Err(Unasked)
    }

    /// What makes it a yes with the least that is assumed: one's own sheets left out, or another rate; else more beside the rate that fits.
    fn best<R: Read + Drop>(&mut self) -> Result<Option<Offer>, Unasked> {
        let own = self.question.own();
        let own = Basis {
            assumed: own,
            broken: self.broken,
            near: self.near::<R>(own, self.broken)?,
        };
        let without = without_sheets(self.alloc, &self.question, self.broken)?;
        let without = self.offers::<R>(without.as_slice(), &own)?;
        if let Some(offer) = self.first_yes::<R>(without.as_slice(), Supposes::Little)? {
            return Ok(Some(offer));
        }
        let rates = at_rates(self.alloc, own.assumed, self.fits)?;
        let rates = self.offers::<R>(rates.as_slice(), &own)?;
        if let Some(offer) = self.yes_at_rates::<R>(rates.as_slice())? {
            return Ok(Some(offer));
        }
        match self.basis_of_rate::<R>(own)? {
            Some(basis) => self.best_beside::<R>(&basis),
            None => Ok(None),
        }
    }

    /// What makes it a yes beside this: a sheet that speaks of a command of the capture; two of them; a hand; any sheet; a hand and a sheet.
    fn best_beside<R: Read + Drop>(&mut self, basis: &Basis<'q>) -> Result<Option<Offer>, Unasked> {
        let one = with_one(self.alloc, basis.assumed)?;
        let one = self.offers::<R>(one.as_slice(), basis)?;
        let one = one.as_slice();
        if let Some(offer) = self.first_yes::<R>(one, Supposes::Little)? {
            return Ok(Some(offer));
        }
        if let Some(offer) = self.second_sheet::<R>()? {
            return Ok(Some(offer));
        }
        if let Some(offer) = self.first_yes::<R>(one, Supposes::AHand)? {
            return Ok(Some(offer));
        }
        if let Some(offer) = self.first_yes::<R>(one, Supposes::AHabit)? {
            return Ok(Some(offer));
        }
        let both = with_hand(self.alloc, basis.assumed)?;
        let both = self.offers::<R>(both.as_slice(), basis)?;
        self.first_yes::<R>(both.as_slice(), Supposes::Little)
    }

    /// A second sheet beside the one that comes furthest.
    fn second_sheet<R: Read + Drop>(&mut self) -> Result<Option<Offer>, Unasked> {
        let Some(further) = self.further else {
            return Ok(None);
        };
        let Sheet::Beside(first, None) = further.assumed.sheet else {
            return Ok(None);
        };
        let Some(basis) = self.basis_of_further::<R>(further)? else {
            return Ok(None);
        };
        let second = with_second(self.alloc, basis.assumed, first)?;
        let second = self.offers::<R>(second.as_slice(), &basis)?;
        self.first_yes::<R>(second.as_slice(), Supposes::Little)
    }

    /// The rate that fits: one's own, or where that can't be, one that comes further; none where none is left.
    fn basis_of_rate<R: Read + Drop>(
        &mut self,
        own: Basis<'q>,
    ) -> Result<Option<Basis<'q>>, Unasked> {
        if !is_of_time(self.broken) && self.fits.is_none() {
            return Ok(Some(own));
        }
        let asked = self.question.rate;
        if let Some(further) = self.further.filter(|further| further.assumed.rate != asked) {
            return self.basis_of_further::<R>(further);
        }
        if is_of_time(self.broken) {
            return Ok(None);
        }
        let rate = match self.fits {
            Some(Fitting::One(rate)) => rate,
            _ => Rate::Fps30,
        };
        Ok(Some(Basis {
            assumed: Assumed {
                rate,
                ..own.assumed
            },
            ..own
        }))
    }

    /// What comes further, and the break to which it comes; none where there is nothing to ask after that.
    fn basis_of_further<R: Read + Drop>(
        &mut self,
        further: Offer,
    ) -> Result<Option<Basis<'q>>, Unasked> {
        let End::Broken(broken) = further.end else {
            return Ok(None);
        };
        if is_of_time(broken) || !is_worth_asking(broken.reason) {
            return Ok(None);
        }
        let assumed = further.assumed;
        let near = self.near::<R>(assumed, broken)?;
        Ok(Some(Basis {
            assumed,
            broken,
            near,
        }))
    }
}
