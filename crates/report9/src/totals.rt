//! What a judging that goes on after each break counts, and the line that tells it.
ghost use Rattle.std.specs.Prelude.{◌≡◌, ◌++◌, OnOk};
ghost use Rattle.report9.specs.Lines.{line_of_totals};

use crate::pieces::{put_count, put_text};
use std::alloc::AllocError;

/// What was counted over all parts of a capture.
#[derive(Clone, Copy, PartialEq, Eq)]
pub struct Totals {
    /// How many records break a rule. A record may count twice: it begins a late reply and breaks another
    /// rule, or it ends a part and breaks the next one too.
    pub breaks: u64,
    /// How many records the capture has.
    pub records: u32,
    /// How many complete exchanges come before the breaks and after the last one. An exchange with which no run
    /// remains does not count.
    pub exchanges: u32,
    /// How many records are neither in one of these exchanges nor open at the end.
    pub passed_over: u32,
    /// How many records are open at the end: those after the last complete exchange of the last part, 0 where it broke.
    pub tail: u32,
}

/// Puts the line of the totals to the end of the buffer, with its line feed.
///
/// An error comes where the buffer has to grow and is refused; then a part of the line may be there.
pub fn put_totals_line(line: &mut Vec<u8>, totals: &Totals) -> Result<(), AllocError>
    ensures { OnOk result (line.new.items ≡ line.old.items ++ line_of_totals totals.now) }
{
    put_count(line, "breaks ", totals.breaks)?;
    put_count(line, ": records ", u64::from(totals.records))?;
    put_count(line, ", exchanges ", u64::from(totals.exchanges))?;
    put_count(line, ", passed over ", u64::from(totals.passed_over))?;
    put_count(line, ", open ", u64::from(totals.tail))?;
    put_text(line, "\n")
}
