//! Trackers that no state is left to. With memory at hand they answer false to every exchange, and never out of memory.

use super::sent::*;
use super::*;
use sets25::{ListSet, SpanSet};
use std::alloc::Global;
use std::test::Fail;

/// Exchanges after which IN is 10:00:00:00, whether or not hands are allowed: no deck says that it is 11:00:00:00.
const BEFORE: &[Sent] = &[PANEL_OFF, REMOTE, PRESET_10];

/// Exchanges of each kind, most of which take memory where a state is left.
const LATER: &[Sent] = &[
    SENSED_10,
    SENSED_NO_TIME,
    (AUDIO_IN_SENSE, &[0x74, 0x12, 0x00, 0x00, 0x00, 0x10, 0x96]),
    PRESET_10,
    AUDIO_IN_PRESET_10,
    IN_ENTERED,
    IN_SHIFTED_ON,
    IN_RESET,
    IN_RECALLED,
    PLAYED,
    CUED_UP,
    EJECTED,
    UNLISTED_0,
    UNLISTED_2,
    SHOWS_PLAY,
    IN_SET,
    PANEL_ON,
    PANEL_OFF,
    (PLAY, NAK),
];

/// Takes the later exchanges, each of which leaves no state.
fn take_none<S: TimeSet>(rt: &impl Abort, tracker: &mut Tracker<S>) -> Result<(), AllocError> {
    for sent in LATER {
        take_leaving(rt, tracker, *sent, false, "later")?;
    }
    Ok(())
}

/// Takes the later exchanges at the tracker, and then at the snapshot.
fn take_none_twice<S: TimeSet>(
    rt: &impl Abort,
    tracker: &mut Tracker<S>,
    snapshot: &mut Tracker<S>,
) -> Result<(), AllocError> {
    take_none(rt, tracker)?;
    take_none(rt, snapshot)
}

/// Leaves no state, and takes the later exchanges, at the tracker and at a snapshot of it.
fn run_out<S: TimeSet>(rt: &impl Abort, tracker: &mut Tracker<S>) -> Result<(), AllocError> {
    take_all(rt, tracker, BEFORE)?;
    take_leaving(rt, tracker, SENSED_11, false, "the last state")?;
    let mut snapshot = tracker.snapshot()?;
    let result = take_none_twice(rt, tracker, &mut snapshot);
    drop(snapshot);
    result
}

fn run_out_from_first<S: TimeSet>(
    rt: &impl Abort,
    alloc: Global,
    hands: Hands,
) -> Result<(), AllocError> {
    let mut tracker: Tracker<S> = Tracker::new(alloc, hands)?;
    let result = run_out(rt, &mut tracker);
    drop(tracker);
    result
}

fn run_out_all<S: TimeSet>(rt: &impl Abort, alloc: Global) -> Result<(), AllocError> {
    run_out_from_first::<S>(rt, alloc, Hands::None)?;
    run_out_from_first::<S>(rt, alloc, Hands::Allowed)
}

#[test]
fn lists(rt: HostRuntime) -> Result<(), Fail> {
    run_out_all::<ListSet>(&rt, rt.alloc())?;
    Ok(())
}

#[test]
fn spans(rt: HostRuntime) -> Result<(), Fail> {
    run_out_all::<SpanSet>(&rt, rt.alloc())?;
    Ok(())
}
