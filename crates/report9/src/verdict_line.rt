//! The line that reports a verdict, put to the end of a buffer.
ghost use Rattle.std.specs.Prelude.{◌≡◌, ◌++◌, OnOk};
ghost use Rattle.report9.specs.Lines.{line_of};
ghost use Rattle.report9.specs.declared.verdict.Verdict.TheVariants.{Yes, No};

use crate::buffer::TextBuffer;
use crate::pieces::{put_count, put_text, put_word};
use crate::verdict::Verdict;
use block9::Reason;

/// Puts the line of a verdict to the end of the buffer, with its line feed.
///
/// An error comes where the buffer has no room and gets none; then a part of the line may be there.
pub fn put_verdict_line<B: TextBuffer>(line: &mut B, verdict: Verdict) -> Result<(), B::Refusal>
    ensures { OnOk result (B.held line.new ≡ B.held line.old ++ line_of verdict) }
{
    match verdict {
        Verdict::Yes {
            records,
            exchanges,
            tail,
        } => put_yes_line(line, records, u64::from(exchanges), tail),
        Verdict::No { at, reason } => put_no_line(line, at, reason),
    }
}

/// Puts the line of a yes. It has room for more exchanges than a [`Verdict::Yes`] can count.
pub fn put_yes_line<B: TextBuffer>(
    line: &mut B,
    records: u32,
    exchanges: u64,
    tail: u32,
) -> Result<(), B::Refusal>
    ensures { OnOk result (B.held line.new ≡ B.held line.old ++ line_of (Yes records exchanges tail)) }
{
    put_count(line, "yes: records ", u64::from(records))?;
    put_count(line, ", exchanges ", exchanges)?;
    put_count(line, ", open ", u64::from(tail))?;
    put_text(line, "\n")
}

/// Puts the line of a no.
pub fn put_no_line<B: TextBuffer>(line: &mut B, at: u32, reason: Reason) -> Result<(), B::Refusal>
    ensures { OnOk result (B.held line.new ≡ B.held line.old ++ line_of (No at reason)) }
{
    put_count(line, "no at record ", u64::from(at))?;
    put_word(line, ": ", reason.name())?;
    put_word(line, " ", reason.text())?;
    put_text(line, "\n")
}
