//! Snapshots: what the tracker takes later does not reach them, and they go on as it would have.

use super::sent::*;
use super::*;
use sets25::{ListSet, SpanSet};
use std::alloc::Global;
use std::test::Fail;

/// Exchanges before a snapshot, exchanges that the tracker takes after it, and one that the snapshot takes with
/// whether a state then remains there.
struct Row {
    hands: Hands,
    before: &'static [Sent],
    later: &'static [Sent],
    asked: Sent,
    remains: bool,
}

const PRESET_11: Sent = (IN_PRESET_11, ACK);

const ROWS: &[Row] = &[
    Row {
        hands: Hands::None,
        before: &[REMOTE, PRESET_10],
        later: &[PRESET_11, SENSED_11],
        asked: SENSED_10,
        remains: true,
    },
    Row {
        hands: Hands::None,
        before: &[REMOTE, PRESET_10],
        later: &[PRESET_11, SENSED_11],
        asked: SENSED_11,
        remains: false,
    },
    Row {
        hands: Hands::None,
        before: &[REMOTE, PLAYED, SHOWS_PLAY],
        later: &[RECORDED, SHOWS_RECORD],
        asked: SHOWS_PLAY,
        remains: true,
    },
    Row {
        hands: Hands::None,
        before: &[REMOTE, PLAYED, SHOWS_PLAY],
        later: &[RECORDED, SHOWS_RECORD],
        asked: SHOWS_RECORD,
        remains: false,
    },
    // The snapshot of a deck in LOCAL may turn out to be in LOCAL, whatever the tracker was told.
    Row {
        hands: Hands::None,
        before: &[],
        later: &[REMOTE],
        asked: LOCAL,
        remains: true,
    },
    // Whether hands are allowed is kept.
    Row {
        hands: Hands::Allowed,
        before: &[PANEL_OFF, REMOTE, PRESET_10, PANEL_ON],
        later: &[PANEL_OFF],
        asked: SENSED_11,
        remains: true,
    },
    Row {
        hands: Hands::None,
        before: &[PANEL_OFF, REMOTE, PRESET_10, PANEL_ON],
        later: &[PANEL_OFF],
        asked: SENSED_11,
        remains: false,
    },
];

/// Takes what comes after a snapshot, at the tracker and at the snapshot.
fn part_ways<S: TimeSet>(
    rt: &impl Abort,
    tracker: &mut Tracker<S>,
    snapshot: &mut Tracker<S>,
    row: &Row,
) -> Result<(), AllocError> {
    take_all(rt, tracker, row.later)?;
    same(rt, snapshot.remains(), true, row.before);
    let remains = take(rt, snapshot, row.asked)?;
    same(rt, remains, row.remains, (row.before, row.asked));
    same(rt, tracker.remains(), true, row.before);
    Ok(())
}

fn copy_and_part<S: TimeSet>(
    rt: &impl Abort,
    tracker: &mut Tracker<S>,
    row: &Row,
) -> Result<(), AllocError> {
    take_all(rt, tracker, row.before)?;
    let mut snapshot = tracker.snapshot()?;
    let result = part_ways(rt, tracker, &mut snapshot, row);
    drop(snapshot);
    result
}

fn copy_from_first<S: TimeSet>(
    rt: &impl Abort,
    alloc: Global,
    row: &Row,
) -> Result<(), AllocError> {
    let mut tracker: Tracker<S> = Tracker::new(alloc, row.hands)?;
    let result = copy_and_part(rt, &mut tracker, row);
    drop(tracker);
    result
}

#[test]
fn lists(rt: HostRuntime) -> Result<(), Fail> {
    for row in ROWS {
        copy_from_first::<ListSet>(&rt, rt.alloc(), row)?;
    }
    Ok(())
}

#[test]
fn spans(rt: HostRuntime) -> Result<(), Fail> {
    for row in ROWS {
        copy_from_first::<SpanSet>(&rt, rt.alloc(), row)?;
    }
    Ok(())
}

/// A snapshot has the counts of its time.
fn tell_counts(
    rt: &impl Abort,
    tracker: &mut Tracker<SpanSet>,
    snapshot: &Tracker<SpanSet>,
) -> Result<(), AllocError> {
    take_leaving(rt, tracker, PRESET_11, true, "counts")?;
    let presets = tracker.presets(Register::RegIn);
    same(rt, presets, 2, "presets of the tracker");
    let counts = spans_and_presets(snapshot, Register::RegIn);
    same(rt, counts, (1, 1), "spans and presets of the snapshot");
    Ok(())
}

fn copy_counts(rt: &impl Abort, tracker: &mut Tracker<SpanSet>) -> Result<(), AllocError> {
    take_all(rt, tracker, &[REMOTE, PRESET_10])?;
    let snapshot = tracker.snapshot()?;
    let result = tell_counts(rt, tracker, &snapshot);
    drop(snapshot);
    result
}

fn copy_counts_from_first(rt: &impl Abort, alloc: Global) -> Result<(), AllocError> {
    let mut tracker: Tracker<SpanSet> = Tracker::new(alloc, Hands::None)?;
    let result = copy_counts(rt, &mut tracker);
    drop(tracker);
    result
}

#[test]
fn counts(rt: HostRuntime) -> Result<(), Fail> {
    copy_counts_from_first(&rt, rt.alloc())?;
    Ok(())
}
