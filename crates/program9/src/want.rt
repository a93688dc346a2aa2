//! Want of memory: what a word keeps, which may be too large for the memory that there is.

ghost use Rattle.std.specs.Prelude.{◌≡◌};
ghost use Rattle.program9.specs.Want.{advice_of, kept_by, kept_for, lack_of, want_told, with_want};

use crate::ending::{Message, Outcome};
use report9::View;
use words9::{Made, Report};

/// What a word keeps in memory, beside a row and what is known of the deck.
#[derive(Clone, Copy, PartialEq, Eq)]
pub enum Kept {
    /// The exchanges of a part, or of the capture.
    Exchanges,
    /// The text of the capture.
    Capture,
    /// Every byte of an export.
    Export,
    /// A line of a text or of a log.
    Line,
}

/// What a report keeps of the capture or the export, where a log is converted live or not; none where it keeps a row at a time.
pub(crate) fn kept_by(report: Report, is_live: bool) -> Option<Kept>
    ensures { result ≡ kept_by report is_live }
{
    match report {
        Report::Run | Report::ToBreak(View::Why) | Report::Parts(View::Why) => {
            Some(Kept::Exchanges)
        }
        Report::Made(made) => kept_for(made, is_live),
        _ => None,
    }
}

/// The same of what is made beside the reports.
fn kept_for(made: Made, is_live: bool) -> Option<Kept>
    ensures { result ≡ kept_for made is_live }
{
    match made {
        Made::JsonRun | Made::Json(View::Why, _) | Made::Touches => Some(Kept::Exchanges),
        Made::Try(_) | Made::Picture(_) | Made::Page => Some(Kept::Capture),
        Made::Convert(_) if !is_live => Some(Kept::Export),
        Made::Convert(_) | Made::Clock(_) => Some(Kept::Line),
        _ => None,
    }
}

/// The same end of a word that keeps this, which says so where memory was refused.
pub(crate) fn with_want(end: Outcome, kept: Option<Kept>) -> Outcome
    ensures { result ≡ with_want kept end }
{
    let Outcome { status, message } = end;
    Outcome::new(status, want_told(message, kept))
}

/// What is said, with what the word keeps where memory was refused.
fn want_told(said: Message, kept: Option<Kept>) -> Message
    ensures { result ≡ want_told kept said }
{
    match said {
        Message::NoMemory => lack_of(kept),
        said => said,
    }
}

/// What is said where memory was refused to a word that keeps this.
fn lack_of(kept: Option<Kept>) -> Message
    ensures { result ≡ lack_of kept }
{
    match kept {
        Some(kept) => Message::TooLarge(kept),
        None => Message::NoMemory,
    }
}

/// What may be too large, and what to do about it.
pub(crate) fn advice_of<'a>(kept: Kept) -> &'a str
    ensures { result.now ≡ advice_of kept }
{
    match kept {
        Kept::Exchanges => {
            "the exchanges are kept, and may be too many, or a row may never end: ninecheck split cuts a capture, or see ulimit -v"
        }
        Kept::Capture => {
            "the whole capture is kept, and may be too large: ninecheck split cuts it, or see ulimit -v"
        }
        Kept::Export => {
            "every byte of the export is kept, and it may be too large: convert a part with --from and --to, or see ulimit -v"
        }
        Kept::Line => "a line may never end, or memory is short: see ulimit -v",
    }
}
