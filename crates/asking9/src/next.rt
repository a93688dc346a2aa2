//! What to ask next after a `why` that is a no: a line on standard error.
ghost use Rattle.program9.specs.Judging.{IsHint};

use crate::advice::{Wrong, found_in, put_first, put_found};
use crate::first_asked::first_asked;
use crate::question::{Asked, Question, Unasked};
use program9::{Keeping, Message, Told};
use report9::put_text;
use std::alloc::Global;
use std::io::Read;

/// Said where it can't be asked: the capture is too long to be kept, memory was refused, or too much of it would have to be judged.
const UNASKED: &str =
    "next: ninecheck try asks at each frame rate, with a hand on the panel and with the sheets of the program";

/// What is said of what to ask next, after this was told of the capture that was kept.
pub fn ask_next<R: Read + Drop>(alloc: Global, kept: Keeping<R>, told: Told<'_>) -> Message
    ensures { IsHint result }
{
    match line_of(alloc, kept, told) {
        Ok(line) => message_of(line),
        Err(_) => match String::from_str(alloc, UNASKED) {
            Ok(line) => Message::Lines(line),
            Err(_) => Message::Nothing,
        },
    }
}

/// The line, or none where there is nothing to ask. The capture is read on to its end, since only what explains all of it is told as a yes;
/// what is said of a time needs no more than what was read already.
fn line_of<R: Read + Drop>(
    alloc: Global,
    kept: Keeping<R>,
    told: Told<'_>,
) -> Result<Vec<u8>, Unasked> {
    let mut kept = kept;
    let mut line = Vec::new(alloc);
    let Some((asked, time)) = begin_line(alloc, &mut line, &kept, told)? else {
        return Ok(line);
    };
    kept.read_rest();
    end_line(alloc, &mut line, &kept, told, asked, time)?;
    Ok(line)
}

/// Puts what is said by what was read already: after which break there is something to ask, and the time that is not valid there.
fn begin_line<R: Read + Drop>(
    alloc: Global,
    line: &mut Vec<u8>,
    kept: &Keeping<R>,
    told: Told<'_>,
) -> Result<Option<(Asked, Option<[u8; 4]>)>, Unasked> {
    let question = question_of(kept.text()?, told);
    let asked = match told.broken {
        Some(broken) => Asked::of_first(broken),
        None => match first_of::<R>(alloc, &question)? {
            Some(asked) => asked,
            None => return Ok(None),
        },
    };
    put_text(line, "next: ")?;
    let time = put_first::<R>(alloc, line, &question, &asked)?;
    Ok(Some((asked, time)))
}

/// Puts what explains the break, now that the capture is read to its end.
fn end_line<R: Read + Drop>(
    alloc: Global,
    line: &mut Vec<u8>,
    kept: &Keeping<R>,
    told: Told<'_>,
    asked: Asked,
    time: Option<[u8; 4]>,
) -> Result<(), Unasked> {
    let (text, is_kept) = match kept.text() {
        Ok(text) => (text, true),
        Err(_) => (b"".as_slice(), false),
    };
    let question = question_of(text, told);
    let found = found_in::<R>(alloc, &question, &asked, is_kept);
    put_found(alloc, line, &question, &asked, Wrong { time, found })?;
    Ok(put_text(line, "\n")?)
}

/// What was asked of a capture with this text.
fn question_of<'q>(text: &'q [u8], told: Told<'q>) -> Question<'q> {
    Question {
        text,
        scope: told.scope,
        rate: told.with.rate,
        hands: told.with.hands,
        sheets: told.with.sheets,
    }
}

/// The first break over all parts.
fn first_of<R: Read + Drop>(
    alloc: Global,
    question: &Question<'_>,
) -> Result<Option<Asked>, Unasked> {
    match question.own().profile(alloc, question)? {
        Some(profile) => first_asked::<R>(alloc, question, &profile),
        None => Ok(None),
    }
}

/// The lines as what is said; nothing where there are none.
pub fn message_of(lines: Vec<u8>) -> Message
    ensures { IsHint result }
{
    let mut lines = lines;
    lines.pop(); // whoever prints the message ends its last line
    if lines.is_empty() {
        return Message::Nothing;
    }
    match String::from_utf8(lines) {
        Ok(lines) => Message::Lines(lines),
        Err(_) => Message::Nothing,
    }
}
