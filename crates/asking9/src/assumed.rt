//! What may be assumed to explain a break, and the deck that it makes.

use crate::habit::Habit;
use crate::question::{Question, Unasked};
use deck9::{Deck, Hands, Profile};
use program9::shipped_sheet;
use report9::{put_text, put_word};
use sheet9::{SheetsError, read_sheets};
use std::alloc::{AllocError, Global};
use tc25::Rate;

/// Which sheets the deck does what they say of.
#[derive(Clone, Copy, PartialEq, Eq)]
pub(crate) enum Sheet {
    /// One's own, if there are any.
    Own,
    /// None, though one has some.
    Without,
    /// One's own, and one or two of the program's.
    Beside(Habit, Option<Habit>),
}

/// What is assumed.
#[derive(Clone, Copy, PartialEq, Eq)]
pub(crate) struct Assumed {
    pub(crate) rate: Rate,
    pub(crate) sheet: Sheet,
    pub(crate) hands: Hands,
}

impl Assumed {
    /// The profile; none where two of the sheets say different things of one key.
    pub(crate) fn profile(
        &self,
        alloc: Global,
        question: &Question<'_>,
    ) -> Result<Option<Profile>, Unasked> {
        let (rate, hands) = (self.rate, self.hands);
        let texts = self.sheet_texts(alloc, question)?;
        if texts.is_empty() {
            return Ok(Some(Profile::at(rate, hands)));
        }
        let deck = deck_of(alloc, texts)?;
        Ok(deck.map(|deck| Profile {
            rate,
            hands,
            deck: Some(deck),
        }))
    }

    /// The texts of its sheets.
    fn sheet_texts(
        &self,
        alloc: Global,
        question: &Question<'_>,
    ) -> Result<Vec<Vec<u8>>, AllocError> {
        let mut texts = Vec::new(alloc);
        if self.sheet == Sheet::Without {
            return Ok(texts);
        }
        for text in question.sheets {
            texts.push(Vec::from_slice(alloc, text.as_slice())?)?;
        }
        self.push_shipped(alloc, &mut texts)?;
        Ok(texts)
    }

    /// Adds the texts of those of the program.
    fn push_shipped(&self, alloc: Global, texts: &mut Vec<Vec<u8>>) -> Result<(), AllocError> {
        if let Sheet::Beside(first, second) = self.sheet {
            texts.push(text_of(alloc, first)?)?;
            if let Some(second) = second {
                texts.push(text_of(alloc, second)?)?;
            }
        }
        Ok(())
    }

    /// The deck that does what the sheet of the program says alone that was added last; none where there is none of these.
    pub(crate) fn added_deck(&self, alloc: Global) -> Result<Option<Deck>, Unasked> {
        let Sheet::Beside(first, second) = self.sheet else {
            return Ok(None);
        };
        deck_of(alloc, only_text(alloc, second.unwrap_or(first))?)
    }

    /// Puts the options beside those that it was asked with already, as ` with --rate 30` or ` without --deck`.
    pub(crate) fn put(&self, line: &mut Vec<u8>, own: &Question<'_>) -> Result<(), AllocError> {
        if self.sheet == Sheet::Without {
            return put_text(line, " without --deck");
        }
        put_text(line, " with")?;
        if self.rate != own.rate {
            put_word(line, " --rate ", self.rate.word())?;
        }
        if let Sheet::Beside(first, second) = self.sheet {
            put_word(line, " --deck ", first.name())?;
            if let Some(second) = second {
                put_word(line, " --deck ", second.name())?;
            }
        }
        if self.hands != own.hands {
            put_text(line, " --hands")?;
        }
        Ok(())
    }
}

/// The text of a sheet of the program.
fn text_of(alloc: Global, habit: Habit) -> Result<Vec<u8>, AllocError> {
    Vec::from_slice(alloc, shipped_sheet(habit.name()).unwrap_or("").as_bytes())
}

/// The text of a sheet of the program alone.
fn only_text(alloc: Global, habit: Habit) -> Result<Vec<Vec<u8>>, AllocError> {
    let mut texts = Vec::new(alloc);
    texts.push(text_of(alloc, habit)?)?;
    Ok(texts)
}

/// The deck that does what these texts say together; none where two say different things of one key.
fn deck_of(alloc: Global, texts: Vec<Vec<u8>>) -> Result<Option<Deck>, Unasked> {
    if texts.is_empty() {
        return Ok(None);
    }
    match read_sheets(alloc, texts.as_slice()) {
        Ok(deck) => Ok(Some(deck)),
        Err(SheetsError::OutOfMemory) => Err(Unasked),
        Err(_) => Ok(None),
    }
}
