//! The calls at 25 frames a second, from the first record on, each beside one that takes a profile.
ghost use Rattle.std.specs.Prelude.{◌≡◌, ◌≢◌, Err, option_map};
ghost use Rattle.capture9.specs.Rows.{rows_of};
ghost use Rattle.judge9.specs.Judging.{Answers};
ghost use Rattle.judge9.specs.Report.{Told, by_verdict};
ghost use Rattle.judge9.specs.RunVerdict.{IsJudgedRun, judged_of};
ghost use Rattle.judge9.specs.Verdict.{at_25};
ghost use Rattle.report9.specs.declared.verdict.Beginning.TheVariants as ABeginning;
ghost use Rattle.report9.specs.declared.verdict.Extent.TheVariants as AnExtent;

use crate::report::judge_for;
use crate::run_judging::judge_with_run_for;
use deck9::{Hands, Profile};
use report9::{Beginning, JudgeError, RunVerdict, Verdict, View};
use std::alloc::Global;
use std::io::{Read, Write};

/// [`judge_for`] at 25 frames a second, from the first record on.
pub fn judge<R: Read + Drop, W: Write>(
    alloc: Global,
    reader: R,
    writer: &mut W,
    view: View,
    hands: Hands,
) -> Result<Verdict, JudgeError>
    ensures answers { Answers ABeginning.FirstRecord (at_25 hands) (R.remaining reader) result }
    ensures told { Told view (record { extent = AnExtent.FirstBreak; beginning = ABeginning.FirstRecord }) (at_25 hands) (option_map rows_of (R.remaining reader)) (by_verdict result)
        (W.contents writer.old) (W.contents writer.new) }
{
    judge_for(
        alloc,
        reader,
        writer,
        view,
        Beginning::FirstRecord,
        &Profile::of(hands),
    )
}

/// [`judge_with_run_for`] at 25 frames a second, from the first record on.
pub fn judge_with_run<R: Read + Drop>(
    alloc: Global,
    reader: R,
    hands: Hands,
) -> Result<RunVerdict, JudgeError>
    ensures answers { Answers ABeginning.FirstRecord (at_25 hands) (R.remaining reader) (judged_of result) }
    ensures run { IsJudgedRun ABeginning.FirstRecord (at_25 hands) (option_map rows_of (R.remaining reader)) result }
    ensures write { result ≢ Err JudgeError.Write }
{
    judge_with_run_for(alloc, reader, Beginning::FirstRecord, &Profile::of(hands))
}
