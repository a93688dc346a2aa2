//! All terms that a capture is asked with, in the order of the lines.
ghost use Rattle.std.specs.Prelude.{◌≡◌, ◌++◌, [], ◌∷◌, IfOk, OnOk};
ghost use Rattle.asking9.specs.Asking.{all_terms, both, terms_at, terms_at_each};

use crate::terms::Terms;
use deck9::{Deck, Hands, Profile};
use std::alloc::{AllocError, Global};
use tc25::Rate;

/// All terms of one whose own rate and sheet these are: one's own rate comes first.
pub(crate) fn every_terms(alloc: Global, own: &Profile) -> Result<Vec<Terms>, AllocError>
    ensures { IfOk result (λ terms. terms.items ≡ all_terms own.now) }
{
    let mut terms = Vec::new(alloc);
    let deck = &own.deck;
    put_at(&mut terms, deck, own.rate)?;
    match own.rate {
        Rate::Fps25 => put_at_each(&mut terms, deck, Rate::Fps24, Rate::Fps30, Rate::DropFrame)?,
        Rate::Fps24 => put_at_each(&mut terms, deck, Rate::Fps25, Rate::Fps30, Rate::DropFrame)?,
        Rate::Fps30 => put_at_each(&mut terms, deck, Rate::Fps25, Rate::Fps24, Rate::DropFrame)?,
        Rate::DropFrame => put_at_each(&mut terms, deck, Rate::Fps25, Rate::Fps24, Rate::Fps30)?,
    }
    Ok(terms)
}

/// Puts those at these three rates.
fn put_at_each(
    terms: &mut Vec<Terms>,
    deck: &Option<Deck>,
    first: Rate,
    second: Rate,
    third: Rate,
) -> Result<(), AllocError>
    ensures { OnOk result (terms.new.items ≡ terms.old.items ++ terms_at_each deck.now (first ∷ second ∷ third ∷ [])) }
{
    put_at(terms, deck, first)?;
    put_at(terms, deck, second)?;
    put_at(terms, deck, third)
}

/// Puts those at a rate: without the sheet, and with it where there is one.
fn put_at(terms: &mut Vec<Terms>, deck: &Option<Deck>, rate: Rate) -> Result<(), AllocError>
    ensures { OnOk result (terms.new.items ≡ terms.old.items ++ terms_at deck.now rate) }
{
    put_both(terms, rate, false)?;
    match deck {
        Some(_) => put_both(terms, rate, true),
        None => Ok(()),
    }
}

/// Puts those without hands and with.
fn put_both(terms: &mut Vec<Terms>, rate: Rate, has_sheet: bool) -> Result<(), AllocError>
    ensures { OnOk result (terms.new.items ≡ terms.old.items ++ both rate has_sheet) }
{
    terms.push(Terms {
        rate,
        has_sheet,
        hands: Hands::None,
    })?;
    terms.push(Terms {
        rate,
        has_sheet,
        hands: Hands::Allowed,
    })?;
    Ok(())
}
