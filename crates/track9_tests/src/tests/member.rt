//! Some possible state: the only one where there is one alone, and none where none is left.

use super::sent::*;
use super::*;
use deck9::{Entry, Mode, State};
use sets25::{ListSet, SpanSet};
use std::alloc::Global;
use std::test::Fail;
use tc25::TimeCode;

const OUT_RESET: Sent = (&[0x40, 0x21, 0x61], ACK);

const AUDIO_OUT_RESET: Sent = (&[0x40, 0x23, 0x63], ACK);

/// Exchanges that leave one state alone: a deck in REMOTE that plays, with IN and audio IN at 10:00:00:00.
pub(super) const ONE_STATE: &[Sent] = &[
    REMOTE,
    PRESET_10,
    OUT_RESET,
    AUDIO_IN_PRESET_10,
    AUDIO_OUT_RESET,
    PLAYED,
    SHOWS_PLAY,
];

/// A state but for the goal, which the exchanges do not tell.
struct Row {
    hands: Hands,
    exchanges: &'static [Sent],
    shown: Mode,
    is_in_set: bool,
    local: bool,
    panel: bool,
}

const ROWS: &[Row] = &[
    Row {
        hands: Hands::None,
        exchanges: &[LOCAL_WITH_IN],
        shown: Mode::Stop,
        is_in_set: true,
        local: true,
        panel: false,
    },
    Row {
        hands: Hands::Allowed,
        exchanges: &[PANEL_ON, LOCAL_WITH_IN],
        shown: Mode::Stop,
        is_in_set: true,
        local: true,
        panel: true,
    },
    Row {
        hands: Hands::Allowed,
        exchanges: &[PANEL_OFF, REMOTE, IN_RESET, SHOWS_REWIND],
        shown: Mode::Rewind,
        is_in_set: false,
        local: false,
        panel: false,
    },
    Row {
        hands: Hands::Allowed,
        exchanges: &[
            PANEL_ON,
            // The deck says that it is in REMOTE and winds back, and that no register is Set.
            (
                &[0x61, 0x20, 0x04, 0x85],
                &[0x74, 0x20, 0x00, 0x08, 0x00, 0x00, 0x9C],
            ),
        ],
        shown: Mode::Rewind,
        is_in_set: false,
        local: false,
        panel: true,
    },
];

fn tell_row<S: TimeSet>(
    rt: &impl Abort,
    tracker: &mut Tracker<S>,
    row: &Row,
) -> Result<(), AllocError> {
    take_all(rt, tracker, row.exchanges)?;
    let state = tracker.member().expect(rt, "a state");
    let told = (state.shown, is_set(&state.ins), state.local, state.panel);
    let wanted = (row.shown, row.is_in_set, row.local, row.panel);
    same(rt, told, wanted, row.exchanges);
    Ok(())
}

fn is_set(entry: &Entry) -> bool {
    match entry {
        Entry::Clear => false,
        Entry::At(_) => true,
    }
}

fn tell_row_from_first<S: TimeSet>(
    rt: &impl Abort,
    alloc: Global,
    row: &Row,
) -> Result<(), AllocError> {
    let mut tracker: Tracker<S> = Tracker::new(alloc, row.hands)?;
    let result = tell_row(rt, &mut tracker, row);
    drop(tracker);
    result
}

/// The only state, and then none.
fn tell_only_and_none<S: TimeSet>(
    rt: &impl Abort,
    tracker: &mut Tracker<S>,
) -> Result<(), AllocError> {
    take_all(rt, tracker, ONE_STATE)?;
    let ten = TimeCode::from_frames(900_000).expect(rt, "a time");
    let only = State {
        goal: Mode::Play,
        shown: Mode::Play,
        ins: Entry::At(ten),
        outs: Entry::Clear,
        ains: Entry::At(ten),
        aouts: Entry::Clear,
        local: false,
        panel: false,
    };
    same(rt, tracker.member(), Some(only), "the only state");
    take_leaving(rt, tracker, LOCAL, false, "no state")?;
    same(rt, tracker.member(), None, "no state");
    Ok(())
}

fn tell_only_from_first<S: TimeSet>(rt: &impl Abort, alloc: Global) -> Result<(), AllocError> {
    let mut tracker: Tracker<S> = Tracker::new(alloc, Hands::None)?;
    let result = tell_only_and_none(rt, &mut tracker);
    drop(tracker);
    result
}

fn tell_all<S: TimeSet>(rt: &impl Abort, alloc: Global) -> Result<(), AllocError> {
    for row in ROWS {
        tell_row_from_first::<S>(rt, alloc, row)?;
    }
    tell_only_from_first::<S>(rt, alloc)
}

#[test]
fn lists(rt: HostRuntime) -> Result<(), Fail> {
    tell_all::<ListSet>(&rt, rt.alloc())?;
    Ok(())
}

#[test]
fn spans(rt: HostRuntime) -> Result<(), Fail> {
    tell_all::<SpanSet>(&rt, rt.alloc())?;
    Ok(())
}
