//! What is assumed in turn.

use crate::assumed::{Assumed, Sheet};
use crate::habit::Habit;
use crate::question::{Question, is_of_time};
use deck9::Hands;
use info9::Fitting;
use program9::Broken;
use std::alloc::{AllocError, Global};
use tc25::Rate;

/// One's own words without the sheets; nothing where there are none, or where a time breaks the rule.
pub(crate) fn without_sheets(
    alloc: Global,
    question: &Question<'_>,
    broken: Broken,
) -> Result<Vec<Assumed>, AllocError> {
    let mut list = Vec::new(alloc);
    if !question.sheets.is_empty() && !is_of_time(broken) {
        list.push(Assumed {
            sheet: Sheet::Without,
            ..question.own()
        })?;
    }
    Ok(list)
}

/// At each rate that may fit.
pub(crate) fn at_rates(
    alloc: Global,
    own: Assumed,
    fits: Option<Fitting>,
) -> Result<Vec<Assumed>, AllocError> {
    let mut list = Vec::new(alloc);
    for rate in &Rate::ALL {
        if *rate != own.rate && may_fit(*rate, fits) {
            list.push(Assumed { rate: *rate, ..own })?;
        }
    }
    Ok(list)
}

/// Whether a rate is one of those that fit, where something tells which do.
fn may_fit(rate: Rate, fits: Option<Fitting>) -> bool {
    match fits {
        None => true,
        Some(Fitting::One(fitting)) => rate == fitting,
        Some(Fitting::Thirty) => matches!(rate, Rate::Fps30 | Rate::DropFrame),
    }
}

/// With a sheet, and with a hand.
pub(crate) fn with_one(alloc: Global, basis: Assumed) -> Result<Vec<Assumed>, AllocError> {
    let mut list = with_sheet(alloc, basis)?;
    if basis.hands == Hands::None {
        list.push(Assumed {
            hands: Hands::Allowed,
            ..basis
        })?;
    }
    Ok(list)
}

/// With a hand and a sheet; nothing where hands are allowed anyway.
pub(crate) fn with_hand(alloc: Global, basis: Assumed) -> Result<Vec<Assumed>, AllocError> {
    match basis.hands {
        Hands::Allowed => Ok(Vec::new(alloc)),
        Hands::None => {
            let basis = Assumed {
                hands: Hands::Allowed,
                ..basis
            };
            with_sheet(alloc, basis)
        }
    }
}

/// With each sheet.
fn with_sheet(alloc: Global, basis: Assumed) -> Result<Vec<Assumed>, AllocError> {
    let mut list = Vec::new(alloc);
    for habit in Habit::ALL {
        list.push(Assumed {
            sheet: Sheet::Beside(habit, None),
            ..basis
        })?;
    }
    Ok(list)
}

/// With this sheet and each other.
pub(crate) fn with_second(
    alloc: Global,
    basis: Assumed,
    first: Habit,
) -> Result<Vec<Assumed>, AllocError> {
    let mut list = Vec::new(alloc);
    for habit in Habit::ALL {
        if habit != first {
            list.push(Assumed {
                sheet: Sheet::Beside(first, Some(habit)),
                ..basis
            })?;
        }
    }
    Ok(list)
}
