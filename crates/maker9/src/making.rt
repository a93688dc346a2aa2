//! What is made of a capture's events, or of a text, beside the reports.
ghost use Rattle.std.specs.Prelude.{◌≡◌, ℕ, IfOk, List, Ok, Some};
ghost use Rattle.deck9.specs.declared.profile.Profile.{Profile as AProfile};
ghost use Rattle.info9.specs.Reading.{ReadsAll};
ghost use Rattle.judge9.specs.Judging.{Answers};
ghost use Rattle.maker9.specs.Making.{IsDrawn, IsDrawnOf, scope_for};
ghost use Rattle.report9.specs.declared.verdict.Extent.TheVariants as AnExtent;
ghost use Rattle.show9.specs.Showing.{IsChecked};

use crate::status::{outcome_drawn, outcome_made};
use crate::trying::unkept;
use info9::write_info;
use judge9::judge_with_run_for;
use picture9::{Choice, Wanted, write_picture};
use program9::{Job, Outcome, read_whole, text_again, verdict_of};
use report9::{Extent, JudgeError, Scope, Stretch, TimeForm, Verdict, View};
use seen9::{Drawn, Ending, ViewOf, WhyNothing};
use show9::{FewestMoves, of_view, show, show_explained};
use std::alloc::Global;
use std::io::{BufReader, Read, Write};
use view9::{ClockFault, Delays, Digest, Json, MotionText, Touches, write_clock, write_json_run};

/// How far the job's judging goes, and from where on.
pub(crate) fn scope_of(job: &Job, extent: Extent) -> Scope
    ensures { result ≡ scope_for extent job.now }
{
    Scope {
        extent,
        beginning: job.asked.beginning,
    }
}

/// What a view of the job is made of, whose judging goes so far.
pub(crate) fn view_of(job: &Job, extent: Extent) -> ViewOf<'_>
    ensures { (result.scope ≡ scope_for extent job.entry.now) × (result.profile.now ≡ job.entry.now.profile) }
{
    ViewOf {
        scope: scope_of(job, extent),
        stretch: job.asked.stretch,
        profile: &job.profile,
    }
}

/// Judges the capture that the reader gives, and writes its digest: how the judging ends.
#[inline(never)] // else the loops over records of the views are compiled in one function, and worse
pub(crate) fn write_digest<R: Read + Drop, W: Write>(
    alloc: Global,
    reader: R,
    writer: &mut W,
    of: ViewOf<'_>,
) -> Result<Ending, JudgeError>
    ensures { IsChecked of.entry.scope of.entry.profile.now (R.remaining reader) result }
{
    let mut digest = Digest::new(alloc, writer, of.profile);
    show(alloc, reader, &mut digest, of)
}

/// Judges the capture that the reader gives, and writes how long the deck took to reply: how the judging ends.
#[inline(never)] // as above
pub(crate) fn write_delays<R: Read + Drop, W: Write>(
    alloc: Global,
    reader: R,
    writer: &mut W,
    of: ViewOf<'_>,
) -> Result<Ending, JudgeError>
    ensures { IsChecked of.entry.scope of.entry.profile.now (R.remaining reader) result }
{
    let mut delays = Delays::new(alloc, writer, of.profile);
    show(alloc, reader, &mut delays, of)
}

/// Judges the capture that the reader gives, and writes what the deck did after its commands: how the judging ends.
#[inline(never)] // as above
pub(crate) fn write_motion<R: Read + Drop, W: Write>(
    alloc: Global,
    reader: R,
    writer: &mut W,
    of: ViewOf<'_>,
) -> Result<Ending, JudgeError>
    ensures { IsChecked of.entry.scope of.entry.profile.now (R.remaining reader) result }
{
    let mut motion = MotionText::new(alloc, writer, of.profile);
    show(alloc, reader, &mut motion, of)
}

/// Judges the capture that the reader gives, and writes an object for each line of its report with this view: how the judging ends. To
/// say why records break rules the exchanges of a part are kept.
#[inline(never)] // as above
pub(crate) fn write_json<R: Read + Drop, W: Write>(
    alloc: Global,
    reader: R,
    writer: &mut W,
    view: View,
    of: ViewOf<'_>,
) -> Result<Ending, JudgeError>
    ensures { IsChecked of.entry.scope of.entry.profile.now (R.remaining reader) result }
{
    let mut json = Json::new(alloc, writer, view, of);
    match view {
        View::Why => show_explained(alloc, reader, &mut json, of),
        View::Verdict | View::Explain(_) => show(alloc, reader, &mut json, of),
    }
}

/// Judges the capture that the reader gives to its first break, and writes its run as JSON where there is one.
#[inline(never)] // as above
pub(crate) fn tell_json_run<R: Read + Drop, W: Write>(
    alloc: Global,
    reader: R,
    writer: &mut W,
    job: &Job,
) -> Result<Verdict, JudgeError>
    ensures { Answers job.now.asked.beginning job.now.profile (R.remaining reader) result }
{
    let run = judge_with_run_for(alloc, reader, job.asked.beginning, &job.profile)?;
    of_view(write_json_run(alloc, writer, &run, &job.profile))?;
    Ok(verdict_of(&run))
}

/// Judges the capture that the reader gives to its first break, and tells where somebody must have touched the panel: how the judging ends.
#[inline(never)] // as above
pub(crate) fn tell_touches<R: Read + Drop, W: Write>(
    alloc: Global,
    reader: R,
    writer: &mut W,
    job: &Job,
) -> Result<Ending, JudgeError>
    ensures { IsChecked (scope_for AnExtent.FirstBreak job.now) job.now.profile (R.remaining reader) result }
{
    let of = view_of(job, Extent::FirstBreak);
    let mut touches = Touches::new(alloc, writer, of.profile, &FewestMoves);
    show(alloc, reader, &mut touches, of)
}

/// Writes what the capture that the reader gives says of itself.
#[inline(never)] // as above
pub(crate) fn tell_info<R: Read + Drop, W: Write>(
    alloc: Global,
    reader: R,
    writer: &mut W,
    job: &Job,
) -> Result<(), JudgeError>
    ensures { ReadsAll (R.remaining reader) result }
{
    write_info(alloc, reader, writer, job.profile.rate, job.asked.beginning)
}

/// Writes the text that the reader gives with its times in this form.
#[inline(never)] // as above
pub(crate) fn rewrite_times<R: Read + Drop, W: Write>(
    alloc: Global,
    reader: R,
    writer: &mut W,
    form: TimeForm,
) -> Result<(), ClockFault> {
    let mut reader = BufReader::new(alloc, reader)?;
    write_clock(alloc, &mut reader, writer, form)
}

/// Keeps the capture that the reader gives, and draws a break of it: how that ends.
#[inline(never)] // as above
pub(crate) fn draw<R: Read + Drop, W: Write>(
    alloc: Global,
    reader: R,
    writer: &mut W,
    scope: Scope,
    job: &Job,
) -> Result<Outcome, JudgeError>
    ensures { IfOk result (IsDrawn scope job.now.profile (R.remaining reader)) }
{
    let text = match read_whole(alloc, reader) {
        Ok(text) => text,
        Err(e) => return unkept(&e),
    };
    let wanted = Wanted {
        scope,
        profile: &job.profile,
        width: job.asked.drawing.width,
    };
    let of = ViewOf {
        scope,
        stretch: Stretch::ALL,
        profile: &job.profile,
    };
    let mut choice = Choice::new(job.asked.drawing.at);
    let ending = show_explained(alloc, text_again::<R>(text.as_slice()), &mut choice, of)?;
    let again = text_again::<R>(text.as_slice());
    let nothing = write_picture(alloc, again, writer, &choice, &wanted)?;
    Ok(outcome_drawn(&drawn_of(nothing, ending)))
}

/// What the drawing comes to, where the judging ended so. Of a capture that breaks there is a break to draw, so what is told of it is how the
/// judging ended.
fn drawn_of(nothing: Option<WhyNothing>, ending: Ending) -> Drawn
    ensures { (scope : Scope) (profile : AProfile) (text : List ℕ) → IsChecked scope profile (Some text) (Ok ending)
        → IsDrawnOf scope profile text result }
{
    match nothing {
        Some(WhyNothing::NoBreakAt(at)) => Drawn::Nothing(WhyNothing::NoBreakAt(at)),
        Some(why) if outcome_made(&Ok(ending)).status == 0 => Drawn::Nothing(why),
        _ => Drawn::Picture(ending),
    }
}
