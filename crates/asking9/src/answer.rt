//! What `check` answers where a capture is asked with some terms.
ghost use Rattle.std.specs.Prelude.{◌≡◌, ◌++◌, IfSome, Ok, OnOk, codes, true};
ghost use Rattle.seen9.specs.declared.seen.Ending.TheVariants as TheEnding;
ghost use Rattle.asking9.specs.Asking.{first_line_after, first_line_of_fault, first_line_of_read, first_line_of_row, is_refused, is_yes, line_of_answer, said_of};
ghost use Rattle.show9.specs.Showing.{IsChecked};

use crate::terms::Terms;
use capture9::{CaptureError, CaptureKind};
use deck9::Profile;
use judge9::{judge_for, judge_parts_for};
use program9::word_of;
use report9::{
    Extent, JudgeError, Scope, Verdict, View, put_count, put_text, put_totals_line,
    put_verdict_line, put_word,
};
use seen9::Ending;
use std::alloc::{AllocError, Global};
use std::io::{Read, sink};

/// What `check` answers where a capture is asked with some terms.
#[derive(Drop, PartialEq, Eq)]
pub struct Answer {
    /// What it was asked with.
    pub terms: Terms,
    /// The verdict, or the totals of all parts; or why there are none.
    pub ended: Result<Ending, JudgeError>,
}

impl Answer {
    /// Whether it is a yes: of totals, that no part breaks.
    pub fn is_yes(&self) -> bool
        ensures { result ≡ is_yes self.now.ended }
    {
        match &self.ended {
            Ok(Ending::Verdict(verdict)) => matches!(verdict, Verdict::Yes { .. }),
            Ok(Ending::Totals(totals)) => totals.breaks == 0,
            Err(_) => false,
        }
    }

    /// The verdict, where it is a yes.
    pub fn yes(&self) -> Option<Verdict>
        ensures { IfSome result (λ verdict. (self.now.ended ≡ Ok (TheEnding.Verdict verdict)) × (is_yes self.now.ended ≡ true)) }
    {
        match &self.ended {
            Ok(Ending::Verdict(verdict)) if matches!(verdict, Verdict::Yes { .. }) => Some(
                *verdict,
            ),
            _ => None,
        }
    }

    /// Whether there is neither a verdict nor totals.
    pub fn is_refused(&self) -> bool
        ensures { result ≡ is_refused self.now.ended }
    {
        self.ended.is_err()
    }

    /// Puts its line: what was asked with, and what `check` writes last, or what stands first on standard error.
    pub fn put(&self, text: &mut Vec<u8>) -> Result<(), AllocError>
        ensures { OnOk result (text.new.items ≡ text.old.items ++ line_of_answer self.now) }
    {
        self.terms.put(text)?;
        put_text(text, ": ")?;
        put_said(text, &self.ended)
    }
}

/// Judges a capture as `check` does.
pub(crate) fn check<R: Read + Drop>(
    alloc: Global,
    reader: R,
    scope: Scope,
    profile: &Profile,
) -> Result<Ending, JudgeError>
    ensures { IsChecked scope profile.now (R.remaining reader) result }
{
    let mut nowhere = sink();
    match scope.extent {
        Extent::FirstBreak => {
            let judged = judge_for(
                alloc,
                reader,
                &mut nowhere,
                View::Verdict,
                scope.beginning,
                profile,
            );
            Ok(Ending::Verdict(judged?))
        }
        Extent::WholeCapture => {
            let judged = judge_parts_for(
                alloc,
                reader,
                &mut nowhere,
                View::Verdict,
                scope.beginning,
                profile,
            );
            Ok(Ending::Totals(judged?))
        }
    }
}

/// Puts what `check` writes last, or what stands first on standard error.
fn put_said(text: &mut Vec<u8>, ended: &Result<Ending, JudgeError>) -> Result<(), AllocError>
    ensures { OnOk result (text.new.items ≡ text.old.items ++ said_of ended.now) }
{
    match ended {
        Ok(Ending::Verdict(verdict)) => put_verdict_line(text, *verdict),
        Ok(Ending::Totals(totals)) => put_totals_line(text, totals),
        Err(refusal) => put_refusal(text, refusal),
    }
}

/// Puts what stands first on standard error after this refusal.
fn put_refusal(text: &mut Vec<u8>, refusal: &JudgeError) -> Result<(), AllocError>
    ensures { OnOk result (text.new.items ≡ text.old.items ++ first_line_after refusal.now) }
{
    match refusal {
        JudgeError::Capture(e) => put_fault(text, e),
        JudgeError::Write => put_text(text, "write fault\n"),
        JudgeError::OutOfMemory => put_text(text, "out of memory\n"),
    }
}

/// The same after a refusal of the capture.
fn put_fault(text: &mut Vec<u8>, e: &CaptureError) -> Result<(), AllocError>
    ensures { OnOk result (text.new.items ≡ text.old.items ++ first_line_of_fault e.now.kind e.now.row) }
{
    match e.kind {
        CaptureKind::Read => put_read_fault(text, e.row),
        CaptureKind::OutOfMemory => put_text(text, "out of memory\n"),
        kind => put_bad_row(text, word_of(kind), e.row),
    }
}

/// The same where the reader failed at a row.
fn put_read_fault(text: &mut Vec<u8>, row: u32) -> Result<(), AllocError>
    ensures { OnOk result (text.new.items ≡ text.old.items ++ first_line_of_read row) }
{
    put_text(text, "read fault ")?;
    put_count(text, "at row ", u64::from(row))?;
    put_text(text, "\n")
}

/// The same where a row is bad, and this is the word for what is wrong.
fn put_bad_row(text: &mut Vec<u8>, word: &str, row: u32) -> Result<(), AllocError>
    ensures { OnOk result (text.new.items ≡ text.old.items ++ first_line_of_row word.now row) }
{
    put_text(text, "unreadable ")?;
    put_count(text, "at row ", u64::from(row))?;
    put_end(text, word)
}

/// Puts a word, and ends the line.
fn put_end(text: &mut Vec<u8>, word: &str) -> Result<(), AllocError>
    ensures { OnOk result (text.new.items ≡ text.old.items ++ (codes ": " ++ word.now ++ codes "\n")) }
{
    put_word(text, ": ", word)?;
    put_text(text, "\n")
}
