//! What is said below a `why` that is a no: what to ask next.
//!
//! What a capture could be a yes with is asked of the same bytes, so they are kept while `why` reads them, up to a limit: what comes only
//! once can be asked again so, and the room that `why` takes stays bounded. The report is handed on before, so a capture that comes slowly
//! is told of as it comes.
ghost use Rattle.std.specs.Prelude.{◌≡◌};
ghost use Rattle.program9.specs.Again.{still_to_come};
ghost use Rattle.program9.specs.Judging.{IsHinted};
ghost use Rattle.report9.specs.declared.verdict.View.TheVariants as a_view;

use crate::again::{Again, Keeping};
use crate::ending::{Message, Outcome};
use crate::maker::{Broken, Maker, Told};
use block9::Reason;
use report9::{JudgeError, Verdict, View};
use std::alloc::Global;
use std::io::Read;
use words9::Asked;

/// Whether something is to be said after a report with this view: of `why`, unless that is to be quiet, or is watched while the capture
/// grows.
fn is_asked(view: View, asked: &Asked) -> bool {
    matches!(view, View::Why) && !asked.quiet && !asked.line_buffered
}

/// What the reader gives, with `kept` beside it where something is to be said.
pub(crate) fn reading<'k, R: Read + Drop>(
    alloc: Global,
    reader: R,
    view: View,
    asked: &Asked,
    kept: &'k mut Option<Keeping<R>>,
) -> Again<'k, R>
    ensures { still_to_come R.remaining result ≡ R.remaining reader }
{
    if is_asked(view, asked) {
        Again::Keeping(kept.insert(Keeping::new(alloc, reader)))
    } else {
        Again::Opened(reader)
    }
}

/// The record that breaks, where there is something to ask after it: another frame rate, a hand on the panel, or a sheet.
pub(crate) fn worth_asking(judged: &Result<Verdict, JudgeError>) -> Option<Broken> {
    match judged {
        Ok(Verdict::No { at, reason }) => {
            let (at, reason) = (*at, *reason);
            is_worth_asking(reason).then_some(Broken { at, reason })
        }
        _ => None,
    }
}

/// Whether there is something to ask after a break of this reason.
pub fn is_worth_asking(reason: Reason) -> bool {
    matches!(
        reason,
        Reason::NoRun | Reason::InvalidCommandTime | Reason::InvalidReplyTime
    )
}

/// The end after this one of a report. What was read for it is kept where it may be worth asking.
#[inline(never)] // else the loops over records of the reports are compiled with those of other judgings in one function, and worse
pub(crate) fn hinted<R: Read + Drop, M: Maker>(
    alloc: Global,
    kept: Option<Keeping<R>>,
    told: Told<'_>,
    end: Outcome,
    maker: &M,
) -> Outcome
    ensures { IsHinted told.entry.view end result }
{
    match told.view {
        View::Why => below_why(alloc, kept, told, end, maker),
        View::Verdict => end,
        View::Explain(_) => end,
    }
}

/// The same after `why`.
fn below_why<R: Read + Drop, M: Maker>(
    alloc: Global,
    kept: Option<Keeping<R>>,
    told: Told<'_>,
    end: Outcome,
    maker: &M,
) -> Outcome
    ensures { IsHinted a_view.Why end result }
{
    let Some(kept) = kept else {
        return end;
    };
    if end.status != 1 {
        return end;
    }
    match end.message {
        Message::Nothing => Outcome::new(end.status, maker.ask_next(alloc, kept, told)),
        _ => end,
    }
}
