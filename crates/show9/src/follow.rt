//! The one loop over what a judging comes to, for every view.
ghost use Rattle.std.specs.Prelude.{◌≡◌, IfErr, None};
ghost use Rattle.judge9.specs.History.{nothing_told};
ghost use Rattle.judge9.specs.Standing.{CanGoOn, ShowsExchange, Stands};
ghost use Rattle.judge9.specs.Working.Reporting.{IsAllTold};
ghost use Rattle.judge9.specs.declared.event.Event.TheVariants as AnEvent;
ghost use Rattle.report9.specs.declared.verdict.View.TheVariants as AView;
ghost use Rattle.show9.specs.Showing.{IsChecked, IsOfView, ending_at};

use block9::Reason;
use capture9::LineByte;
use deck9::{Going, Knowledge, Profile};
use judge9::{Event, Judging, Kept};
use report9::{Extent, JudgeError, Stretch};
use seen9::{Ending, ExplainedView, SeenBreak, SeenExchange, View, ViewOf};
use std::alloc::Global;
use std::io::Read;

/// What is to be said of the deck between two exchanges.
#[derive(Clone, Copy)]
struct Between {
    /// What is known of it; none where nothing is.
    known: Option<Knowledge>,
    /// What it may do by itself.
    going: Going,
}

impl Between {
    /// Before the first exchange of a part: nothing is known, and all that the sheet names may be going on.
    fn before_a_part(profile: &Profile) -> Between {
        Between {
            known: None,
            going: profile.deck_ref().on_at_first(),
        }
    }
}

/// Judges the capture that the reader gives, and shows the view what it comes to: how it ends, which is what `check` answers of this
/// capture. The records are read once, and none is kept. Errors are those of the judging, and the view's own: `Err(Write)` where it could
/// not write, and else `Err(OutOfMemory)`. After one the view is told of nothing more.
pub fn show<R: Read + Drop, V: View>(
    alloc: Global,
    reader: R,
    view: &mut V,
    of: ViewOf<'_>,
) -> Result<Ending, JudgeError>
    ensures { IsChecked of.entry.scope of.entry.profile.now (R.remaining reader) result }
{
    let mut judging = Judging::new(alloc, reader, of.scope, of.profile)?;
    let shown = show_events(&mut judging, view, of);
    let ending = ending_of(&judging, of.scope.extent);
    drop(judging);
    shown?;
    of_view(view.end(&ending))?;
    Ok(ending)
}

/// Shows all events up to the end.
fn show_events<R: Read + Drop, V: View>(
    judging: &mut Judging<R>,
    view: &mut V,
    of: ViewOf<'_>,
) -> Result<(), JudgeError>
    requires stands { Stands judging.old.scope judging.old.profile.now judging.old.feed.rows.rows nothing_told judging.old }
    requires ready { CanGoOn judging.old.stage judging.old.feed }
    ensures { IsAllTold AView.Verdict judging.old.scope judging.old.profile.now judging.old.feed.rows.rows result judging.new None None }
{
    let mut between = Between::before_a_part(of.profile);
    'events: loop {
        match judging.next()? {
            Event::End => return Ok(()),
            event => between = show_event(judging, view, of, event, between)?,
        }
    }
}

/// Judges the capture that the reader gives, as [`show`] does, and also tells the view why each record breaks a rule. So the exchanges
/// of a part are kept as long as it goes on, as far as a contradiction may need them.
pub fn show_explained<R: Read + Drop, V: ExplainedView>(
    alloc: Global,
    reader: R,
    view: &mut V,
    of: ViewOf<'_>,
) -> Result<Ending, JudgeError>
    ensures { IsChecked of.entry.scope of.entry.profile.now (R.remaining reader) result }
{
    let mut judging = Judging::new(alloc, reader, of.scope, of.profile)?;
    let shown = explain_events(alloc, &mut judging, view, of);
    let ending = ending_of(&judging, of.scope.extent);
    drop(judging);
    shown?;
    of_view(view.end(&ending))?;
    Ok(ending)
}

/// Shows all events up to the end, and tells why records break rules.
fn explain_events<R: Read + Drop, V: ExplainedView>(
    alloc: Global,
    judging: &mut Judging<R>,
    view: &mut V,
    of: ViewOf<'_>,
) -> Result<(), JudgeError>
    requires stands { Stands judging.old.scope judging.old.profile.now judging.old.feed.rows.rows nothing_told judging.old }
    requires ready { CanGoOn judging.old.stage judging.old.feed }
    ensures { IsAllTold AView.Verdict judging.old.scope judging.old.profile.now judging.old.feed.rows.rows result judging.new None None }
{
    let mut kept = Kept::new(alloc);
    let mut between = Between::before_a_part(of.profile);
    'events: loop {
        match judging.next()? {
            Event::End => return Ok(()),
            event => {
                let why = kept.follow(alloc, judging, event)?;
                if let Some(why) = why {
                    of_view(view.why(why, is_shown(event, of.stretch)))?;
                }
                between = show_event(judging, view, of, event, between)?;
            }
        }
    }
}

/// What a view answered, or what else writes of a judging. A fault of the capture is the judging's alone to tell: one that a view made up
/// counts as want of memory.
pub fn of_view(told: Result<(), JudgeError>) -> Result<(), JudgeError>
    ensures { IfErr result IsOfView }
{
    match told {
        Err(JudgeError::Capture(_)) => Err(JudgeError::OutOfMemory),
        Err(JudgeError::Write) => Err(JudgeError::Write),
        Err(JudgeError::OutOfMemory) => Err(JudgeError::OutOfMemory),
        Ok(()) => Ok(()),
    }
}

/// Whether a late reply or a break lies in the stretch.
fn is_shown(event: Event, stretch: Stretch) -> bool {
    match event {
        Event::LateReply(first) => stretch.has(first.time_us),
        Event::Break(broken) => stretch.has(broken.record.time_us),
        Event::Exchange | Event::End => false,
    }
}

/// Shows an event that is not the end: what is to be said of the deck from here on.
fn show_event<R: Read + Drop, V: View>(
    judging: &Judging<R>,
    view: &mut V,
    of: ViewOf<'_>,
    event: Event,
    between: Between,
) -> Result<Between, JudgeError>
    requires { event ≡ AnEvent.Exchange → ShowsExchange judging.now.feed }
    ensures { IfErr result IsOfView }
{
    match event {
        Event::Exchange => {
            let seen = see_exchange(judging, between, of.stretch);
            of_view(view.exchange(&seen))?;
            Ok(Between {
                known: Some(seen.after),
                going: seen.going,
            })
        }
        Event::LateReply(first) => {
            let seen = see_break(judging, first, Reason::LateReply, of.stretch);
            of_view(view.late(&seen))?;
            Ok(between)
        }
        Event::Break(broken) => {
            let seen = see_break(judging, broken.record, broken.reason, of.stretch);
            of_view(view.broken(&seen))?;
            Ok(Between::before_a_part(of.profile))
        }
        Event::End => Ok(between),
    }
}

/// The exchange that the judging came to.
fn see_exchange<'e, R: Read + Drop>(
    judging: &'e Judging<'_, R>,
    before: Between,
    stretch: Stretch,
) -> SeenExchange<'e>
    requires { ShowsExchange judging.now.feed }
{
    let exchange = judging.exchange();
    let last = judging.at();
    let end_us = judging.time_us().unwrap_or(exchange.time_us);
    SeenExchange {
        first: last
            .saturating_sub(exchange.records() as u32)
            .saturating_add(1),
        last,
        end_us,
        exchange,
        before: before.known,
        after: judging.knowledge(),
        going_before: before.going,
        going: judging.going(),
        is_shown: stretch.has(end_us),
    }
}

/// The break or the late reply that the judging came to with this record, by this rule.
fn see_break<R: Read + Drop>(
    judging: &Judging<R>,
    record: LineByte,
    reason: Reason,
    stretch: Stretch,
) -> SeenBreak {
    let open = judging.open();
    let delay_us = match judging.tail().get(open.asked.saturating_sub(1)) {
        Some(last) => record.time_us.saturating_sub(last.time_us),
        None => 0,
    };
    SeenBreak {
        at: judging.at(),
        time_us: record.time_us,
        reason,
        open: open.command,
        delay_us: (reason == Reason::LateReply).then_some(delay_us),
        is_shown: stretch.has(record.time_us),
    }
}

/// What a judging that has ended comes to.
fn ending_of<R: Read + Drop>(judging: &Judging<R>, extent: Extent) -> Ending
    ensures { result ≡ ending_at extent judging.now }
{
    match extent {
        Extent::FirstBreak => Ending::Verdict(judging.verdict()),
        Extent::WholeCapture => Ending::Totals(judging.totals()),
    }
}
