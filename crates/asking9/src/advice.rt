//! What to ask next after a break, as a line.

use crate::invalid_time::{is_never_valid, put_invalid, put_valid};
use crate::offer::Offer;
use crate::question::{Asked, Question, Unasked};
use crate::search::explanation;
use crate::time_told::time_at;
use report9::put_text;
use std::alloc::Global;
use std::io::Read;

/// What is said first: of a time that is not valid what is wrong with it, and which it is.
pub(crate) fn put_first<R: Read + Drop>(
    alloc: Global,
    line: &mut Vec<u8>,
    question: &Question<'_>,
    asked: &Asked,
) -> Result<Option<[u8; 4]>, Unasked> {
    let time = time_at::<R>(alloc, question, asked)?;
    if let Some(time) = time {
        put_invalid(line, time, question.rate)?;
    }
    Ok(time)
}

/// What there is to say of a break: the time that is not valid, where that is why it breaks, and what explains it.
pub(crate) struct Wrong {
    pub(crate) time: Option<[u8; 4]>,
    pub(crate) found: Result<Option<Offer>, Unasked>,
}

/// What explains a break of a capture, whose text was kept or not.
pub(crate) fn found_in<R: Read + Drop>(
    alloc: Global,
    question: &Question<'_>,
    asked: &Asked,
    is_kept: bool,
) -> Result<Option<Offer>, Unasked> {
    if is_kept {
        explanation::<R>(alloc, *question, *asked)
    } else {
        Err(Unasked)
    }
}

/// Puts what explains the break, behind the time that is not valid there. Where that can't be asked, it is said of the time at which rates
/// it is valid, and without one there is an error.
pub(crate) fn put_found(
    alloc: Global,
    line: &mut Vec<u8>,
    question: &Question<'_>,
    asked: &Asked,
    wrong: Wrong,
) -> Result<(), Unasked> {
    let Wrong { time, found } = wrong;
    let Some(time) = time else {
        return put_explanation(alloc, line, question, asked, found?);
    };
    if is_never_valid(time) {
        return Ok(());
    }
    put_text(line, "; ")?;
    match found {
        Ok(Some(offer)) => offer.put(alloc, line, question, asked),
        Ok(None) => Ok(put_text(line, "no other frame rate fits")?),
        Err(_) => Ok(put_valid(line, time)?),
    }
}

/// Puts what explains the break, or that nothing does.
fn put_explanation(
    alloc: Global,
    line: &mut Vec<u8>,
    question: &Question<'_>,
    asked: &Asked,
    found: Option<Offer>,
) -> Result<(), Unasked> {
    match found {
        Some(offer) => offer.put(alloc, line, question, asked),
        None => Ok(put_text(
            line,
            "no frame rate, hand on the panel or sheet of the program explains it",
        )?),
    }
}

/// Puts what to ask next after a break of a capture whose text is known to its end.
pub fn put_advice<R: Read + Drop>(
    alloc: Global,
    line: &mut Vec<u8>,
    question: &Question<'_>,
    asked: &Asked,
) -> Result<(), Unasked> {
    let time = put_first::<R>(alloc, line, question, asked)?;
    let found = explanation::<R>(alloc, *question, *asked);
    put_found(alloc, line, question, asked, Wrong { time, found })
}
