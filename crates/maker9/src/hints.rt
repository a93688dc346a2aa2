//! What is said below the answers of `try`, on standard error: what makes it a yes, and which signs of the capture bear on that.
ghost use Rattle.std.specs.Prelude.{IfOk};
ghost use Rattle.program9.specs.Judging.{IsHint};

use asking9::{Answer, Question, message_of, put_best, signs_of};
use info9::{Seeming, Sign, Signs};
use program9::Message;
use std::alloc::{AllocError, Global};
use std::io::Read;

/// The lines, or nothing: what makes it a yes where the first terms do not, and the signs that bear on the answers, at the rate of that.
pub(crate) fn hints_of<R: Read + Drop>(
    alloc: Global,
    question: &Question<'_>,
    answers: &[Answer],
) -> Result<Message, AllocError>
    ensures { IfOk result IsHint }
{
    let mut lines = Vec::new(alloc);
    let rate = put_best::<R>(alloc, &mut lines, question, answers)?;
    let signs = signs_of::<R>(alloc, question.text, question.scope.beginning, rate);
    put_signs(&mut lines, &signs)?;
    Ok(message_of(lines))
}

/// Puts the signs that bear on the answers.
fn put_signs(lines: &mut Vec<u8>, signs: &Signs) -> Result<(), AllocError> {
    for found in signs.signs() {
        if let Some(sign) = found {
            put_sign(lines, &sign)?;
        }
    }
    Ok(())
}

/// Puts a sign that bears on the answers.
fn put_sign(lines: &mut Vec<u8>, sign: &Sign) -> Result<(), AllocError> {
    if bears_on_answers(&sign.what) {
        sign.put(lines)?;
    }
    Ok(())
}

/// Whether the answers follow from what was seen, and not from the deck.
fn bears_on_answers(what: &Seeming) -> bool {
    matches!(
        what,
        Seeming::WrongRate { .. }
            | Seeming::WiresSwapped { .. }
            | Seeming::Echo(_)
            | Seeming::BeginsInside
    )
}
