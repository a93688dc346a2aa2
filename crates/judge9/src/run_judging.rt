//! Judges a capture and keeps its exchanges, so that a yes comes with a run of the deck.
ghost use Rattle.std.specs.Prelude.{◌≡◌, ◌≢◌, [], Err, option_map};
ghost use Rattle.capture9.specs.Rows.{rows_of};
ghost use Rattle.judge9.specs.History.{nothing_told};
ghost use Rattle.judge9.specs.Judging.{Answers};
ghost use Rattle.judge9.specs.RunVerdict.{IsJudgedRun, judged_of};
ghost use Rattle.judge9.specs.Standing.{CanGoOn, Stands};
ghost use Rattle.judge9.specs.Working.Reporting.{JudgesRun, KeepsAll};
ghost use Rattle.report9.specs.declared.verdict.Extent.TheVariants as AnExtent;

use crate::event::Event;
use crate::judging::Judging;
use crate::kept::Kept;
use deck9::Profile;
use report9::{Beginning, Extent, JudgeError, RunVerdict, Scope, Verdict};
use run9::{MostSpans, states_of_run};
use std::alloc::Global;
use std::io::Read;

/// Judges the capture that the reader gives, as [`judge_for`](crate::judge_for) does, and gives a yes with a run of the
/// deck: how many records were passed over, the exchanges, and a state of the deck after each of them, such that some first
/// state, drifts and steps of the deck lead through all of them and give exactly the replies. With hands it is one with the
/// fewest moves of a hand, at each of which the hand keeps what it can, which is tested and not proved; beyond that, which of
/// several runs it is, is not said.
///
/// It writes nothing, and keeps all exchanges, their states, and what was possible before some of the exchanges: before so
/// few of them that this takes about as much memory as the exchanges, which is measured and not proved. To find the run
/// each exchange is observed again, mostly twice, and where much is possible as often as the number of exchanges can be
/// halved; with hands three times more, and behind a move of a hand seven times more.
///
/// Where the reader tells its bytes, the verdict, its counts and the refusals of the text are those that
/// [`judge_for`](crate::judge_for) gives, and the exchanges are those that the records are cut into. Errors come as there, but
/// for `Err(Write)`, which never comes:
///
/// * `Err(Capture(e))` with a fault of the text exactly where e is the fault of its first bad row, or of the header,
///   and all records before that row keep the rules; of the kind `Read` where the reader fails or is interrupted at
///   row `e.row`.
/// * `Err(OutOfMemory)` where a growth of memory is refused.
pub fn judge_with_run_for<R: Read + Drop>(
    alloc: Global,
    reader: R,
    beginning: Beginning,
    profile: &Profile,
) -> Result<RunVerdict, JudgeError>
    ensures answers { Answers beginning profile.now (R.remaining reader) (judged_of result) }
    ensures run { IsJudgedRun beginning profile.now (option_map rows_of (R.remaining reader)) result }
    ensures write { result ≢ Err JudgeError.Write }
{
    let scope = Scope {
        extent: Extent::FirstBreak,
        beginning,
    };
    let mut judging = Judging::new(alloc, reader, scope, profile)?;
    let verdict = find_run(alloc, &mut judging);
    drop(judging);
    verdict
}

/// Judges up to the first break, and finds a run where the verdict is a yes.
fn find_run<R: Read + Drop>(
    alloc: Global,
    judging: &mut Judging<R>,
) -> Result<RunVerdict, JudgeError>
    requires first { judging.old.scope.extent ≡ AnExtent.FirstBreak }
    requires stands { Stands judging.old.scope judging.old.profile.now judging.old.feed.rows.rows nothing_told judging.old }
    requires ready { CanGoOn judging.old.stage judging.old.feed }
    ensures { JudgesRun judging.old.scope judging.old.profile.now judging.old.feed.rows.rows result }
{
    let profile = judging.profile;
    let mut kept = Kept::new(alloc);
    let mut spans = MostSpans::none();
    keep_all(judging, &mut kept, &mut spans)?;
    match judging.verdict() {
        Verdict::No { at, reason } => Ok(RunVerdict::No { at, reason }),
        Verdict::Yes { records, tail, .. } => {
            let exchanges = kept.exchanges;
            let tracker = &judging.feed.follower.tracker;
            let states = states_of_run(alloc, profile, &exchanges, tracker, spans)?;
            Ok(RunVerdict::Yes {
                past: judging.totals().passed_over,
                records,
                tail,
                exchanges,
                states,
            })
        }
    }
}

/// Keeps the exchanges up to the end, which comes behind the first break or behind the rows, and notes the spans of the tracker.
fn keep_all<R: Read + Drop>(
    judging: &mut Judging<R>,
    kept: &mut Kept,
    spans: &mut MostSpans,
) -> Result<(), JudgeError>
    requires first { judging.old.scope.extent ≡ AnExtent.FirstBreak }
    requires stands { Stands judging.old.scope judging.old.profile.now judging.old.feed.rows.rows nothing_told judging.old }
    requires ready { CanGoOn judging.old.stage judging.old.feed }
    requires empty { kept.old.exchanges.items ≡ [] }
    ensures { KeepsAll judging.old.scope judging.old.profile.now judging.old.feed.rows.rows result kept.new.exchanges.items judging.new }
{
    'events: loop {
        match judging.next()? {
            Event::Exchange => {
                kept.keep(judging)?;
                spans.note(kept.exchanges.len(), &judging.feed.follower.tracker);
            }
            Event::End => return Ok(()),
            _ => {}
        }
    }
}
