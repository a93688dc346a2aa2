//! The lines of answers, and what they come to together.
ghost use Rattle.std.specs.Prelude.{◌≡◌, IfOk};
ghost use Rattle.asking9.specs.Asking.{lines_of};
ghost use Rattle.maker9.specs.Trying.{all_refused, status_of};

use asking9::Answer;
use std::alloc::{AllocError, Global};

/// A line for each answer.
pub(crate) fn lines_of(alloc: Global, answers: &[Answer]) -> Result<Vec<u8>, AllocError>
    ensures { IfOk result (λ text. text.items ≡ lines_of answers.now) }
{
    let mut text = Vec::new(alloc);
    for answer in answers {
        answer.put(&mut text)?;
    }
    Ok(text)
}

/// Whether there is neither a verdict nor totals in any.
pub(crate) fn are_all_refused(answers: &[Answer]) -> bool
    ensures { result ≡ all_refused answers.now }
{
    for answer in answers {
        if !answer.is_refused() {
            return false;
        }
    }
    true
}

/// The status: 0 where one is a yes, and else 1.
pub(crate) fn status_of(answers: &[Answer]) -> u8
    ensures { result ≡ status_of answers.now }
{
    for answer in answers {
        if answer.is_yes() {
            return 0;
        }
    }
    1
}
