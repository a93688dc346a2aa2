//! What is said below the answers of `try` of what makes the capture a yes.

use crate::answer::Answer;
use crate::first_asked::first_asked;
use crate::question::{Asked, Question, Unasked};
use crate::search::explanation;
use program9::{Broken, is_worth_asking};
use report9::{JudgeError, Verdict, put_text};
use seen9::Ending;
use std::alloc::{AllocError, Global};
use std::io::Read;
use tc25::Rate;

/// Puts what makes a capture a yes, where these are the answers to all terms and the first is a no: the rate of that, or one's own. The
/// sheets alone where one's own words are a yes with them; else what explains the break, as `why` tells it.
pub fn put_best<R: Read + Drop>(
    alloc: Global,
    lines: &mut Vec<u8>,
    question: &Question<'_>,
    answers: &[Answer],
) -> Result<Rate, AllocError> {
    let rate = question.rate;
    let has_sheet = !question.sheets.is_empty();
    let Some(own) = own_answer(answers, question) else {
        return Ok(rate);
    };
    if own.is_yes() {
        if has_sheet && !answers.first().is_some_and(|first| first.is_yes()) {
            put_text(lines, "yes with --deck\n")?;
        }
        return Ok(rate);
    }
    match asked_of::<R>(alloc, question, own) {
        Ok(Some(asked)) => put_offer::<R>(alloc, lines, question, &asked),
        _ => Ok(rate),
    }
}

/// The answer to one's own words, without hands.
fn own_answer<'a>(answers: &'a [Answer], question: &Question<'_>) -> Option<&'a Answer> {
    let has_sheet = !question.sheets.is_empty();
    for answer in answers {
        let terms = answer.terms;
        if terms.rate == question.rate && terms.has_sheet == has_sheet {
            return Some(answer);
        }
    }
    None
}

/// The break after which there is something to ask, of an answer that is a no.
fn asked_of<R: Read + Drop>(
    alloc: Global,
    question: &Question<'_>,
    own: &Answer,
) -> Result<Option<Asked>, Unasked> {
    match &own.ended {
        Ok(Ending::Verdict(Verdict::No { at, reason })) => {
            let (at, reason) = (*at, *reason);
            let broken = Broken { at, reason };
            Ok(is_worth_asking(reason).then_some(Asked::of_first(broken)))
        }
        Ok(Ending::Totals(_)) => match question.own().profile(alloc, question)? {
            Some(profile) => first_asked::<R>(alloc, question, &profile),
            None => Ok(None),
        },
        _ => Ok(None),
    }
}

/// Puts what explains the break, where something does: the rate of that, or one's own.
fn put_offer<R: Read + Drop>(
    alloc: Global,
    lines: &mut Vec<u8>,
    question: &Question<'_>,
    asked: &Asked,
) -> Result<Rate, AllocError> {
    let Ok(Some(offer)) = explanation::<R>(alloc, *question, *asked) else {
        return Ok(question.rate);
    };
    if offer.put(alloc, lines, question, asked).is_err() {
        return Err(AllocError);
    }
    put_text(lines, "\n")?;
    Ok(offer.assumed.rate)
}
