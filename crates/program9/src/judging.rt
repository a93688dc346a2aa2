//! The judging that is asked for, whose report goes through a buffer, and the flush after it.
ghost use Rattle.std.specs.Prelude.{◌≡◌, Err};
ghost use Rattle.judge9.specs.Judging.{CanBeResult};
ghost use Rattle.judge9.specs.RunVerdict.{judged_of, verdict_of};
ghost use Rattle.judge9.specs.Verdict.{CanBeVerdict};
ghost use Rattle.program9.specs.Output.{contents_behind, held_contents};
ghost use Rattle.program9.specs.Judging.{EndsJudged, HandsOn, IsJudgedWithRun, WritesRun};

use crate::again::Again;
use crate::buffered::Buffered;
use crate::ending::Outcome;
use crate::maker::{AskedWith, Maker, Told};
use crate::next::{hinted, reading, worth_asking};
use crate::status::{outcome, outcome_in_parts};
use deck9::Profile;
use judge9::{judge_for, judge_parts_for, judge_with_run_for};
use report9::{Extent, JudgeError, RunVerdict, Scope, Verdict, write_run_for};
use std::alloc::Global;
use std::io::{Read, Write};
use words9::{Asked, ExportWords, Report};

/// What is asked of a capture, and for which deck.
#[derive(Drop)]
pub struct Job {
    /// What is asked.
    pub asked: Asked,
    /// What the deck is taken for.
    pub profile: Profile,
}

/// What the words name: files, and what they say of an export.
#[derive(Drop, PartialEq, Eq)]
pub struct Named {
    /// The file of the capture or the export; standard input where there is none.
    pub file: Option<String>,
    /// Those of the deck's sheets.
    pub sheets: Vec<String>,
    /// The texts of these sheets.
    pub sheet_texts: Vec<Vec<u8>>,
    /// What they say of an export or of a split.
    pub export: ExportWords,
    /// The text of the deck's file, where an export has a file for each wire.
    pub deck_text: Option<Vec<u8>>,
}

/// Judges the capture that the reader gives as the job says, and passes the whole report on to the writer behind the buffer.
///
/// The report is that of `judge_for`, that of `judge_parts_for`, or the text of the run that `judge_with_run_for` answered, of which
/// there is none where there is no verdict; or it is what `maker` makes, of which that is promised what it promises. Below `why` lines may
/// be said of what to ask next. The end of a report is that of the verdict, of the totals or of the refusal of that judging, as
/// [`outcome`] and [`outcome_in_parts`] say, where the writer took the whole report. Else it is a write fault, and the writer has a
/// first part of the report; what the buffer still holds is not written. After a write that failed, that was interrupted or that
/// took no byte, none is tried again.
pub fn judge_and_flush<R: Read + Drop, W: Write + Drop, M: Maker>(
    alloc: Global,
    reader: R,
    out: &mut Buffered<W>,
    job: Job,
    named: &Named,
    maker: &M,
) -> Outcome
    ensures { EndsJudged M.makes job.asked.report job (R.remaining reader) (held_contents W.contents out.old) result (contents_behind W.contents out.new) }
{
    let beginning = job.asked.beginning;
    match job.asked.report {
        Report::Run => {
            let judged = tell_run(alloc, Again::Opened(reader), out, &job);
            outcome(&ended(out, judged))
        }
        Report::ToBreak(view) => {
            let scope = Scope {
                extent: Extent::FirstBreak,
                beginning,
            };
            let mut kept = None;
            let reader = reading(alloc, reader, view, &job.asked, &mut kept);
            let judged = judge_for(alloc, reader, out, view, beginning, &job.profile);
            let judged = ended(out, judged);
            let broken = worth_asking(&judged);
            let kept = kept.filter(|_| broken.is_some());
            let told = Told {
                view,
                scope,
                with: asked_with(&job, named),
                broken,
            };
            hinted(alloc, kept, told, outcome(&judged), maker)
        }
        Report::Parts(view) => {
            let scope = Scope {
                extent: Extent::WholeCapture,
                beginning,
            };
            let mut kept = None;
            let reader = reading(alloc, reader, view, &job.asked, &mut kept);
            let judged = judge_parts_for(alloc, reader, out, view, beginning, &job.profile);
            let end = outcome_in_parts(&ended(out, judged));
            let told = Told {
                view,
                scope,
                with: asked_with(&job, named),
                broken: None,
            };
            hinted(alloc, kept, told, end, maker)
        }
        Report::Made(made) => maker.make(alloc, reader, out, made, job, named),
    }
}

/// What a job asks with, whose words name these sheets.
fn asked_with<'t>(job: &Job, named: &'t Named) -> AskedWith<'t> {
    AskedWith {
        rate: job.profile.rate,
        hands: job.profile.hands,
        sheets: named.sheet_texts.as_slice(),
    }
}

/// Judges the capture to its first break, and writes the text of its run where there is one.
fn tell_run<R: Read + Drop, W: Write>(
    alloc: Global,
    reader: R,
    writer: &mut W,
    job: &Job,
) -> Result<Verdict, JudgeError>
    ensures { IsJudgedWithRun job.now (R.remaining reader) (W.contents writer.old) result (W.contents writer.new) }
{
    let found = judge_with_run_for(alloc, reader, job.asked.beginning, &job.profile);
    write_run(writer, found, &job.profile)
}

/// Writes the text of a run where there is one, and answers its verdict.
fn write_run<W: Write>(
    writer: &mut W,
    found: Result<RunVerdict, JudgeError>,
    profile: &Profile,
) -> Result<Verdict, JudgeError>
    requires { CanBeResult (judged_of found) }
    ensures { WritesRun profile.now found result (W.contents writer.old) (W.contents writer.new) }
{
    let run = found?;
    write_run_for(writer, &run, profile)?;
    Ok(verdict_of(&run))
}

/// The verdict of a run, with the number of its exchanges.
pub fn verdict_of(run: &RunVerdict) -> Verdict
    requires { CanBeVerdict (verdict_of run.now) }
    ensures { result ≡ verdict_of run.now }
{
    match run {
        RunVerdict::Yes {
            records,
            tail,
            exchanges,
            ..
        } => Verdict::Yes {
            records: *records,
            exchanges: exchanges.len() as u32,
            tail: *tail,
        },
        RunVerdict::No { at, reason } => Verdict::No {
            at: *at,
            reason: *reason,
        },
    }
}

/// The end of a judging that answered this: all is passed on, unless a write failed already.
pub fn ended<W: Write + Drop, A: Drop>(
    out: &mut Buffered<W>,
    judged: Result<A, JudgeError>,
) -> Result<A, JudgeError>
    ensures handed_on { HandsOn judged (held_contents W.contents out.old)
        result (contents_behind W.contents out.new) }
    // After a write that failed there is neither a write nor a flush.
    ensures left_alone { judged ≡ Err JudgeError.Write → out.new ≡ out.old }
{
    if let Err(JudgeError::Write) = judged {
        return Err(JudgeError::Write);
    }
    match out.flush() {
        Ok(()) => judged,
        Err(_) => Err(JudgeError::Write),
    }
}
