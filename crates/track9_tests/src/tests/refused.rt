//! Growths of memory that may be refused: `tests/program/growths.sh` runs these tests with each growth refused in turn.
//!
//! Where none is refused they show that both kinds of sets give the answers that the program gives, over one of them, to the rows
//! in `tests/cases/`; and that what follows brings no state back.

use super::counted::ROWS;
use super::rows::{AUDIO, FORGOTTEN, HANDS, REGISTERS, Row, SHIFTS, TRANSPORT};
use super::sent::{
    IN_RECALLED, IN_SHIFTED_ON, LOCAL, NAK, PANEL_OFF, PANEL_ON, PLAY, PLAYED, PRESET_10,
    PRESET_LAST, REMOTE, Sent, UNLISTED_0, UNLISTED_2,
};
use super::{command_of, known, same, spans_and_presets};
use deck9::{Hands, Knowledge, Register};
use sets25::{ListSet, SpanSet, TimeSet};
use std::alloc::{AllocError, Global};
use std::process::Abort;
use std::test::Fail;
use track9::Tracker;

/// Spans and presets of each register.
type Counts = [(usize, u32); 4];

/// A set of times, and what a tracker over it counts.
trait Counted: TimeSet {
    fn counts(tracker: &Tracker<Self>) -> Counts;
}

impl Counted for ListSet {
    fn counts(_tracker: &Tracker<ListSet>) -> Counts {
        [(0, 0); 4]
    }
}

impl Counted for SpanSet {
    fn counts(tracker: &Tracker<SpanSet>) -> Counts {
        [
            spans_and_presets(tracker, Register::RegIn),
            spans_and_presets(tracker, Register::RegOut),
            spans_and_presets(tracker, Register::RegAudioIn),
            spans_and_presets(tracker, Register::RegAudioOut),
        ]
    }
}

/// All that a tracker answers.
fn answers<S: Counted>(rt: &impl Abort, tracker: &Tracker<S>) -> (Option<Knowledge>, Counts) {
    let knowledge = if tracker.remains() {
        Some(known(rt, tracker))
    } else {
        None
    };
    (knowledge, S::counts(tracker))
}

/// Takes an exchange. Where memory is refused all answers are as before, and the same call again gives an answer.
fn take<S: Counted>(
    rt: &impl Abort,
    tracker: &mut Tracker<S>,
    sent: Sent,
) -> Result<bool, AllocError> {
    let before = answers(rt, tracker);
    match super::take(rt, tracker, sent) {
        Ok(remains) => Ok(remains),
        Err(_) => {
            same(rt, answers(rt, tracker), before, sent);
            super::take(rt, tracker, sent)
        }
    }
}

/// A tracker, at the second try where memory is refused at the first.
fn tracker<'a, S: Counted>(alloc: Global, hands: Hands) -> Result<Tracker<'a, S>, AllocError> {
    match Tracker::new(alloc, hands) {
        Ok(tracker) => Ok(tracker),
        Err(_) => Tracker::new(alloc, hands),
    }
}

/// Takes one of these exchanges, after which a state remains, or none.
fn take_leaving<S: Counted>(
    rt: &impl Abort,
    tracker: &mut Tracker<S>,
    sent: Sent,
    remains: bool,
    exchanges: &[Sent],
) -> Result<(), AllocError> {
    let answers = (take(rt, tracker, sent)?, tracker.remains());
    same(rt, answers, (remains, remains), (sent, exchanges));
    Ok(())
}

/// What can't bring back a state where none is left.
const LATER: &[Sent] = &[PLAYED, (PLAY, NAK), REMOTE, LOCAL, IN_RECALLED, UNLISTED_0];

/// Takes exchanges that can't bring back a state.
fn stay_without<S: Counted>(
    rt: &impl Abort,
    tracker: &mut Tracker<S>,
    exchanges: &[Sent],
) -> Result<(), AllocError> {
    for sent in LATER {
        take_leaving(rt, tracker, *sent, false, exchanges)?;
    }
    Ok(())
}

/// Takes exchanges, whether or not a state remains after the last.
fn judge<S: Counted>(
    rt: &impl Abort,
    tracker: &mut Tracker<S>,
    exchanges: &[Sent],
    remains: bool,
) -> Result<(), AllocError> {
    let (last, before) = exchanges.split_last().expect(rt, "an exchange");
    for sent in before {
        take_leaving(rt, tracker, *sent, true, exchanges)?;
    }
    take_leaving(rt, tracker, *last, remains, exchanges)?;
    if remains {
        Ok(())
    } else {
        stay_without(rt, tracker, exchanges)
    }
}

fn judge_from_first<S: Counted>(
    rt: &impl Abort,
    alloc: Global,
    hands: Hands,
    exchanges: &[Sent],
    remains: bool,
) -> Result<(), AllocError> {
    let mut tracker: Tracker<S> = tracker(alloc, hands)?;
    let result = judge(rt, &mut tracker, exchanges, remains);
    drop(tracker);
    result
}

fn judge_rows<S: Counted>(rt: &impl Abort, alloc: Global, rows: &[Row]) -> Result<(), AllocError> {
    for (exchanges, remains) in rows {
        judge_from_first::<S>(rt, alloc, Hands::None, exchanges, *remains)?;
    }
    Ok(())
}

fn judge_hands<S: Counted>(rt: &impl Abort, alloc: Global) -> Result<(), AllocError> {
    for (exchanges, untouched, touched) in HANDS {
        judge_from_first::<S>(rt, alloc, Hands::None, exchanges, *untouched)?;
        judge_from_first::<S>(rt, alloc, Hands::Allowed, exchanges, *touched)?;
    }
    Ok(())
}

fn judge_all<S: Counted>(rt: &impl Abort, alloc: Global) -> Result<(), AllocError> {
    for rows in [REGISTERS, SHIFTS, TRANSPORT, FORGOTTEN, AUDIO] {
        judge_rows::<S>(rt, alloc, rows)?;
    }
    judge_hands::<S>(rt, alloc)
}

#[test]
fn lists(rt: HostRuntime) -> Result<(), Fail> {
    judge_all::<ListSet>(&rt, rt.alloc())?;
    Ok(())
}

#[test]
fn spans(rt: HostRuntime) -> Result<(), Fail> {
    judge_all::<SpanSet>(&rt, rt.alloc())?;
    Ok(())
}

/// Takes exchanges, and counts what they left.
fn count_left(
    rt: &impl Abort,
    tracker: &mut Tracker<SpanSet>,
    exchanges: &[Sent],
) -> Result<Counts, AllocError> {
    if !exchanges.is_empty() {
        judge(rt, tracker, exchanges, true)?;
    }
    Ok(SpanSet::counts(tracker))
}

fn count_after(rt: &impl Abort, alloc: Global, exchanges: &[Sent]) -> Result<Counts, AllocError> {
    let mut tracker: Tracker<SpanSet> = tracker(alloc, Hands::None)?;
    let result = count_left(rt, &mut tracker, exchanges);
    drop(tracker);
    result
}

#[test]
fn counts(rt: HostRuntime) -> Result<(), Fail> {
    for (exchanges, wanted_ins, wanted_ains) in ROWS {
        let [ins, _, ains, _] = count_after(&rt, rt.alloc(), exchanges)?;
        same(&rt, (ins, ains), (*wanted_ins, *wanted_ains), *exchanges);
    }
    Ok(())
}

/// Exchanges of which the commands alone are taken, each with a drift after it.
const PASSED: &[Sent] = &[
    PRESET_10,
    PANEL_OFF,
    PANEL_ON,
    PRESET_LAST,
    IN_SHIFTED_ON,
    PLAYED,
    UNLISTED_2,
    UNLISTED_0,
];

/// Takes a command without its reply. Where memory is refused all answers are as before, and the same call again gives one.
fn pass<S: Counted>(
    rt: &impl Abort,
    tracker: &mut Tracker<S>,
    sent: Sent,
) -> Result<(), AllocError> {
    let before = answers(rt, tracker);
    let command = command_of(rt, sent.0);
    match tracker.pass(&command) {
        Ok(()) => Ok(()),
        Err(_) => {
            same(rt, answers(rt, tracker), before, sent);
            tracker.pass(&command)
        }
    }
}

/// Lets the deck drift. Where memory is refused all answers are as before, and the same call again gives one.
fn drift<S: Counted>(rt: &impl Abort, tracker: &mut Tracker<S>) -> Result<(), AllocError> {
    let before = answers(rt, tracker);
    match tracker.drift() {
        Ok(()) => Ok(()),
        Err(_) => {
            same(rt, answers(rt, tracker), before, "a drift");
            tracker.drift()
        }
    }
}

fn pass_all<S: Counted>(rt: &impl Abort, tracker: &mut Tracker<S>) -> Result<(), AllocError> {
    for sent in PASSED {
        pass(rt, tracker, *sent)?;
        drift(rt, tracker)?;
        same(rt, tracker.remains(), true, *sent);
    }
    Ok(())
}

fn pass_from_first<S: Counted>(
    rt: &impl Abort,
    alloc: Global,
    hands: Hands,
) -> Result<(), AllocError> {
    let mut tracker: Tracker<S> = tracker(alloc, hands)?;
    let result = pass_all(rt, &mut tracker);
    drop(tracker);
    result
}

#[test]
fn passed(rt: HostRuntime) -> Result<(), Fail> {
    for hands in [Hands::None, Hands::Allowed] {
        pass_from_first::<ListSet>(&rt, rt.alloc(), hands)?;
        pass_from_first::<SpanSet>(&rt, rt.alloc(), hands)?;
    }
    Ok(())
}
