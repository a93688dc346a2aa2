//! The page of a capture, with what to ask next after the first break where there is something to ask.
ghost use Rattle.std.specs.Prelude.{◌≡◌, IfOk, Ok, Some};
ghost use Rattle.maker9.specs.Making.{IsPaged, scope_for};
ghost use Rattle.report9.specs.declared.verdict.Extent.TheVariants as AnExtent;
ghost use Rattle.show9.specs.Showing.{IsChecked};

use crate::making::view_of;
use crate::status::outcome_made;
use crate::trying::unkept;
use asking9::{Asked, FirstAsked, Question, Unasked, put_advice};
use page9::{Advice, Page, PageOf};
use program9::{Job, Named, Outcome, read_whole, text_again};
use report9::{Extent, JudgeError, WhyNo};
use seen9::{Ending, ExplainedView, SeenBreak, SeenExchange, View, ViewOf};
use show9::{FewestMoves, show_explained};
use std::alloc::Global;
use std::io::{Read, Write};
use words9::VERSION_LINE;

/// Keeps the capture that the reader gives, and makes a page of it, which says what the words name: how that ends.
#[inline(never)] // else the loops over records of the views are compiled in one function, and worse
pub(crate) fn make_page<R: Read + Drop, W: Write>(
    alloc: Global,
    reader: R,
    writer: &mut W,
    job: &Job,
    named: &Named,
) -> Result<Outcome, JudgeError>
    ensures { IfOk result (IsPaged (scope_for AnExtent.WholeCapture job.now) job.now.profile (R.remaining reader)) }
{
    let text = match read_whole(alloc, reader) {
        Ok(text) => text,
        Err(e) => return unkept(&e),
    };
    let page_of = page_of(text.as_slice(), job, named);
    let of = view_of(job, Extent::WholeCapture);
    let sheets = named.sheet_texts.as_slice();
    let ending = write_page::<R, W>(alloc, writer, of, &page_of, sheets)?;
    Ok(outcome_made(&Ok(ending)))
}

/// What a page says of the capture with this text, as the words name it.
fn page_of<'p>(text: &'p [u8], job: &Job, named: &'p Named) -> PageOf<'p>
    ensures { result.text ≡ text.entry }
{
    PageOf {
        text,
        file: named.file.as_ref().map(|file| name_alone(file.as_bytes())),
        sheets: named.sheets.as_slice(),
        version: VERSION_LINE.as_bytes(),
        beginning: job.asked.beginning,
        stretch: job.asked.stretch,
        advice: None,
    }
}

/// The name of a file without its folders, which are nobody else's business: a page is sent to others.
fn name_alone(path: &[u8]) -> &[u8] {
    path.split(|byte| *byte == b'/').last().unwrap_or(path)
}

/// Judges the text of a page, which is read where a reader of this type would be, and writes the page: how the judging ends. These are the
/// texts of the deck's sheets.
fn write_page<R: Read + Drop, W: Write>(
    alloc: Global,
    writer: &mut W,
    of: ViewOf<'_>,
    page_of: &PageOf<'_>,
    sheets: &[Vec<u8>],
) -> Result<Ending, JudgeError>
    ensures { IfOk result (λ ending. IsChecked of.entry.scope of.entry.profile.now (Some page_of.now.text.now) (Ok ending)) }
{
    let text = page_of.text;
    let mut paged = Paged {
        page: Page::new(alloc, text_again::<R>(text), of, &FewestMoves)?,
        first: FirstAsked::new(),
    };
    let ending = show_explained(alloc, text_again::<R>(text), &mut paged, of)?;
    let question = Question {
        text,
        scope: of.scope,
        rate: of.profile.rate,
        hands: of.profile.hands,
        sheets,
    };
    let line = advice_on::<R>(alloc, &question, paged.first.found).unwrap_or(Vec::new(alloc));
    let page_of = PageOf {
        advice: advice_of(line.as_slice(), paged.first.found),
        ..*page_of
    };
    paged
        .page
        .write(alloc, text_again::<R>(text), writer, &page_of)?;
    Ok(ending)
}

/// The page, and the first break after which there is something to ask.
#[derive(Drop)]
struct Paged<'p> {
    page: Page<'p, FewestMoves>,
    first: FirstAsked,
}

impl View for Paged<'_> {
    fn exchange(&mut self, seen: &SeenExchange<'_>) -> Result<(), JudgeError> {
        self.first.take_exchange(seen);
        self.page.exchange(seen)
    }

    fn late(&mut self, late: &SeenBreak) -> Result<(), JudgeError> {
        self.page.late(late)
    }

    fn broken(&mut self, broken: &SeenBreak) -> Result<(), JudgeError> {
        self.first.take_break(broken);
        self.page.broken(broken)
    }

    fn end(&mut self, ending: &Ending) -> Result<(), JudgeError> {
        self.page.end(ending)
    }
}

impl ExplainedView for Paged<'_> {
    fn why(&mut self, why: WhyNo, is_shown: bool) -> Result<(), JudgeError> {
        self.page.why(why, is_shown)
    }
}

/// The line of what to ask next after a break; an empty one where there is none.
fn advice_on<R: Read + Drop>(
    alloc: Global,
    question: &Question<'_>,
    asked: Option<Asked>,
) -> Result<Vec<u8>, Unasked> {
    let mut line = Vec::new(alloc);
    if let Some(asked) = asked {
        put_advice::<R>(alloc, &mut line, question, &asked)?;
    }
    Ok(line)
}

/// What the page says to ask next, where there is something.
fn advice_of(line: &[u8], asked: Option<Asked>) -> Option<Advice<'_>> {
    let asked = asked?;
    (!line.is_empty()).then_some(Advice {
        at: asked.broken.at,
        line,
    })
}
