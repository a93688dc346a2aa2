//! A state before an exchange: the only one there is, none where the target can't be reached, and one at each exchange
//! of a run.

use super::member::ONE_STATE;
use super::sent::*;
use super::*;
use deck9::{Entry, Mode, State};
use sets25::{ListSet, SpanSet};
use std::alloc::Global;
use std::test::Fail;
use tc25::TimeCode;

const IN_SHIFT_REFUSED: Sent = (&[0x40, 0x18, 0x58], NAK);

/// An exchange, and a target that differs from the only state before it in goal, shown mode and IN.
struct Row {
    sent: Sent,
    goal: Mode,
    shown: Mode,
    in_frames: u32,
    is_reached: bool,
}

const ROWS: &[Row] = &[
    Row {
        sent: IN_SHIFTED_ON,
        goal: Mode::Play,
        shown: Mode::Play,
        in_frames: 900_001,
        is_reached: true,
    },
    // A deck in REMOTE does what it acknowledges.
    Row {
        sent: IN_SHIFTED_ON,
        goal: Mode::Play,
        shown: Mode::Play,
        in_frames: 900_000,
        is_reached: false,
    },
    Row {
        sent: IN_SHIFT_REFUSED,
        goal: Mode::Play,
        shown: Mode::Play,
        in_frames: 900_001,
        is_reached: false,
    },
    Row {
        sent: IN_SHIFT_REFUSED,
        goal: Mode::Play,
        shown: Mode::Stop,
        in_frames: 900_000,
        is_reached: true,
    },
    // The end of the tape.
    Row {
        sent: SHOWS_STOP,
        goal: Mode::Stop,
        shown: Mode::Stop,
        in_frames: 900_000,
        is_reached: true,
    },
    Row {
        sent: SHOWS_STOP,
        goal: Mode::Play,
        shown: Mode::Play,
        in_frames: 900_000,
        is_reached: false,
    },
    Row {
        sent: RECORDED,
        goal: Mode::Rec,
        shown: Mode::Play,
        in_frames: 900_000,
        is_reached: true,
    },
    Row {
        sent: RECORDED,
        goal: Mode::Play,
        shown: Mode::Play,
        in_frames: 900_000,
        is_reached: false,
    },
    Row {
        sent: SENSED_10,
        goal: Mode::Play,
        shown: Mode::Play,
        in_frames: 900_000,
        is_reached: true,
    },
    Row {
        sent: SENSED_11,
        goal: Mode::Play,
        shown: Mode::Play,
        in_frames: 900_000,
        is_reached: false,
    },
];

/// Runs of which each exchange but the first has states before it.
const RUNS: &[(Hands, &[Sent])] = &[
    (Hands::None, ONE_STATE),
    (
        Hands::None,
        &[
            LOCAL,
            PRESET_10,
            IN_SHIFTED_ON,
            SENSED_10,
            RECORDED,
            SHOWS_STOP,
            UNLISTED_2,
        ],
    ),
    (
        Hands::Allowed,
        &[
            PANEL_OFF,
            REMOTE,
            PRESET_10,
            PANEL_ON,
            SENSED_11,
            PANEL_OFF,
            IN_ENTERED,
            STOOD_BY,
            UNLISTED_0,
            IN_RECALLED,
            NONE_SET,
        ],
    ),
];

fn state(rt: &impl Abort, goal: Mode, shown: Mode, in_frames: u32) -> State {
    let ten = TimeCode::from_frames(900_000).expect(rt, "a time");
    let ins = TimeCode::from_frames(in_frames).expect(rt, "a time");
    State {
        goal,
        shown,
        ins: Entry::At(ins),
        outs: Entry::Clear,
        ains: Entry::At(ten),
        aouts: Entry::Clear,
        local: false,
        panel: false,
    }
}

/// A state from which an exchange leads to the target.
fn state_before<S: TimeSet>(
    rt: &impl Abort,
    tracker: &Tracker<S>,
    sent: Sent,
    target: &State,
) -> Option<State> {
    let (command, reply) = exchange(rt, sent);
    let block = Block::from_bytes(sent.0).expect(rt, "a block");
    tracker.before_exchange(&complete(&command, block, &reply), target)
}

fn tell_row<S: TimeSet>(rt: &impl Abort, tracker: &Tracker<S>, row: &Row) {
    let only = state(rt, Mode::Play, Mode::Play, 900_000);
    let target = state(rt, row.goal, row.shown, row.in_frames);
    let before = state_before(rt, tracker, row.sent, &target);
    same(rt, before, row.is_reached.then_some(only), row.in_frames);
}

fn tell_rows<S: TimeSet>(rt: &impl Abort, tracker: &mut Tracker<S>) -> Result<(), AllocError> {
    take_all(rt, tracker, ONE_STATE)?;
    for row in ROWS {
        tell_row(rt, tracker, row);
    }
    Ok(())
}

fn tell_rows_from_first<S: TimeSet>(rt: &impl Abort, alloc: Global) -> Result<(), AllocError> {
    let mut tracker: Tracker<S> = Tracker::new(alloc, Hands::None)?;
    let result = tell_rows(rt, &mut tracker);
    drop(tracker);
    result
}

/// Takes an exchange, and keeps a snapshot of what was before it.
fn keep<S: TimeSet>(
    rt: &impl Abort,
    tracker: &mut Tracker<'static, S>,
    earlier: &mut Vec<Tracker<'static, S>>,
    sent: Sent,
) -> Result<(), AllocError> {
    earlier.push(tracker.snapshot()?)?;
    take_leaving(rt, tracker, sent, true, "a run")
}

/// Goes back by the snapshots, one before each exchange, from a state after the exchanges to one before them.
fn follow_back<S: TimeSet>(
    rt: &impl Abort,
    earlier: &[Tracker<S>],
    exchanges: &[Sent],
    last: State,
) {
    same(rt, earlier.len(), exchanges.len(), exchanges);
    let mut target = last;
    for (tracker, sent) in earlier.iter().zip(exchanges).rev() {
        target = state_before(rt, tracker, *sent, &target).expect(rt, "a state before");
    }
}

fn go_back<S: TimeSet>(
    rt: &impl Abort,
    tracker: &mut Tracker<'static, S>,
    earlier: &mut Vec<Tracker<'static, S>>,
    exchanges: &[Sent],
) -> Result<(), AllocError> {
    for sent in exchanges {
        keep(rt, tracker, earlier, *sent)?;
    }
    let last = tracker.member().expect(rt, "a state");
    follow_back(rt, earlier.as_slice(), exchanges, last);
    Ok(())
}

fn go_back_to_first<S: TimeSet>(
    rt: &impl Abort,
    alloc: Global,
    hands: Hands,
    exchanges: &[Sent],
) -> Result<(), AllocError> {
    let mut tracker: Tracker<'static, S> = Tracker::new(alloc, hands)?;
    let mut earlier: Vec<Tracker<'static, S>> = Vec::new(alloc);
    let result = go_back(rt, &mut tracker, &mut earlier, exchanges);
    drop(tracker);
    drop(earlier);
    result
}

fn tell_all<S: TimeSet>(rt: &impl Abort, alloc: Global) -> Result<(), AllocError> {
    tell_rows_from_first::<S>(rt, alloc)?;
    for (hands, exchanges) in RUNS {
        go_back_to_first::<S>(rt, alloc, *hands, exchanges)?;
    }
    Ok(())
}

#[test]
fn lists(rt: HostRuntime) -> Result<(), Fail> {
    tell_all::<ListSet>(&rt, rt.alloc())?;
    Ok(())
}

#[test]
fn spans(rt: HostRuntime) -> Result<(), Fail> {
    tell_all::<SpanSet>(&rt, rt.alloc())?;
    Ok(())
}
