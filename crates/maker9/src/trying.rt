//! One capture, asked with each frame rate, without hands and with, and without the sheet and with it, where there is one: a line for
//! each, with the answer that `check` gives.
//!
//! The capture is kept in memory, so every line speaks of the same bytes, also of a file that still grows, and of what comes only once.
ghost use Rattle.std.specs.Prelude.{◌≡◌, IfErr, IfOk};
ghost use Rattle.report9.specs.Writing.{Writes};
ghost use Rattle.program9.specs.Judging.{IsHint};
ghost use Rattle.asking9.specs.Asking.{AreAnswers, all_terms};
ghost use Rattle.maker9.specs.Trying.{IsUnkept, MayTell, TellsAnswers, end_of_refused};

use crate::hints::hints_of;
use crate::lines::{are_all_refused, lines_of, status_of};
use crate::status::outcome_made;
use asking9::{Answer, Question, answers_to};
use deck9::{Hands, Profile};
use program9::{Message, Outcome, read_whole};
use report9::{JudgeError, Scope, write_all};
use std::alloc::{AllocError, Global};
use std::io::{self, Read, Write};

/// Keeps the capture that the reader gives, asks with all terms, at the profile's own rate first, and writes a line for each answer,
/// unless all were refused. The profile's hands say nothing; the sheets are the texts that its deck comes from. The writer is not flushed.
///
/// * `Ok` with status 0 where an answer is a yes, and else 1; the message says what to look at besides. Where all were refused nothing
///   is written, and the end is that of the first. Where the reader fails nothing is written, and the status is 4.
/// * `Err(Write)` where the writer failed: it has a first part of the lines.
/// * `Err(OutOfMemory)` where memory is refused for the capture, for the answers or for their lines: nothing is written.
pub(crate) fn try_each<R: Read + Drop, W: Write>(
    alloc: Global,
    reader: R,
    writer: &mut W,
    scope: Scope,
    profile: Profile,
    sheets: &[Vec<u8>],
) -> Result<Outcome, JudgeError>
    ensures { TellsAnswers scope profile (R.remaining reader) (W.contents writer.old) result (W.contents writer.new) }
{
    let text = match read_whole(alloc, reader) {
        Ok(text) => text,
        Err(e) => return unkept(&e),
    };
    match answers_with_hints::<R>(alloc, text.as_slice(), scope, profile, sheets) {
        Ok((answers, hints)) => tell_answers(alloc, writer, answers.as_slice(), hints),
        Err(_) => Err(JudgeError::OutOfMemory),
    }
}

/// The answers to all terms, and what to say besides.
fn answers_with_hints<R: Read + Drop>(
    alloc: Global,
    text: &[u8],
    scope: Scope,
    own: Profile,
    sheets: &[Vec<u8>],
) -> Result<(Vec<Answer>, Message), AllocError>
    ensures answers { IfOk result (λ both. AreAnswers scope own.deck text.now (all_terms own) both.0.items) }
    ensures hints { IfOk result (λ both. IsHint both.1) }
{
    let question = Question {
        text,
        scope,
        rate: own.rate,
        hands: Hands::None,
        sheets,
    };
    let answers = answers_to::<R>(alloc, text, scope, own)?;
    let hints = hints_of::<R>(alloc, &question, answers.as_slice())?;
    Ok((answers, hints))
}

/// What is told where the reader failed.
pub(crate) fn unkept(e: &io::Error) -> Result<Outcome, JudgeError>
    ensures { IsUnkept result }
{
    match e.kind() {
        io::ErrorKind::OutOfMemory => Err(JudgeError::OutOfMemory),
        _ => Ok(Outcome::new(4, Message::TextFault)),
    }
}

/// Writes a line for each answer, unless all were refused, and says this besides.
fn tell_answers<W: Write>(
    alloc: Global,
    writer: &mut W,
    answers: &[Answer],
    hints: Message,
) -> Result<Outcome, JudgeError>
    requires { IsHint hints }
    ensures { MayTell answers.now result (W.contents writer.old) (W.contents writer.new) }
{
    if are_all_refused(answers) {
        return Ok(end_of_refused(answers));
    }
    match lines_of(alloc, answers) {
        Ok(lines) => write_lines(
            writer,
            lines.as_slice(),
            Outcome::new(status_of(answers), hints),
        ),
        Err(_) => Err(JudgeError::OutOfMemory),
    }
}

/// Writes the lines: the end is this one then.
fn write_lines<W: Write>(writer: &mut W, lines: &[u8], end: Outcome) -> Result<Outcome, JudgeError>
    ensures written { Writes lines.now result (W.contents writer.old) (W.contents writer.new) }
    ensures ok { IfOk result (λ e. e ≡ end) }
    ensures err { IfErr result (λ e. e ≡ JudgeError.Write) }
{
    write_all(writer, lines)?;
    Ok(end)
}

/// The end where all were refused: that of the first.
fn end_of_refused(answers: &[Answer]) -> Outcome
    ensures { result ≡ end_of_refused answers.now }
{
    match answers.first() {
        Some(first) => outcome_made(&first.ended),
        None => Outcome::new(5, Message::NoMemory),
    }
}
