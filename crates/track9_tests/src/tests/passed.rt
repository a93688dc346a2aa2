//! Commands that the tracker takes without their replies, and drifts without a command: what is known after each of them.

use super::sent::*;
use super::told::tell_all;
use super::*;
use deck9::Register;
use sets25::{ListSet, SpanSet};
use std::alloc::Global;
use std::test::Fail;

/// What the tracker takes: an exchange, the command of one alone, or nothing, while the deck drifts.
#[derive(Clone, Copy, Debug)]
enum Taken {
    Exchange(Sent),
    Passed(Sent),
    Drifted,
}

use Taken::{Drifted, Exchange, Passed};

/// What is taken, and what is known after it, in the words of a report.
type Learnt = (Taken, &'static str);

/// IN DATA PRESET 11:00:00:00.
const PRESET_11: Sent = (IN_PRESET_11, ACK);

/// A deck in REMOTE too may have left a passed preset undone.
const PRESET: &[Learnt] = &[
    (Exchange(REMOTE), "local no, panel off"),
    (Exchange(PRESET_10), "in 10:00:00:00, local no, panel off"),
    (Passed(PRESET_11), "in set, local no, panel off"),
    // A sense does nothing, and what it told is not looked at.
    (Passed(SENSED_5), "in set, local no, panel off"),
    (Exchange(SENSED_10), "in 10:00:00:00, local no, panel off"),
    (Passed(PRESET_11), "in set, local no, panel off"),
    (Exchange(SENSED_11), "in 11:00:00:00, local no, panel off"),
    (Passed(IN_RESET), "local no, panel off"),
    (
        Exchange(IN_SET),
        "in 11:00:00:00, out clear, local no, ain clear, aout clear, panel off",
    ),
    (
        Passed(IN_SHIFTED_ON),
        "in set, out clear, local no, ain clear, aout clear, panel off",
    ),
    // What is not listed has every effect that it may have, and that it has none is one of them.
    (Passed(UNLISTED_2), "local no, panel off"),
    (Passed(UNLISTED_0), "panel off"),
];

/// The goal of a passed transport command is the deck's, or the one before it.
const MOVED: &[Learnt] = &[
    (Exchange(REMOTE), "local no, panel off"),
    // FAST FORWARD.
    (
        Exchange((&[0x20, 0x10, 0x30], ACK)),
        "goal FF, local no, panel off",
    ),
    // A deck that goes for PLAY and shows STOP does not come to show FF.
    (Passed(PLAYED), "local no, panel off"),
    (Exchange(SHOWS_STOP), "shown STOP, local no, panel off"),
    (
        Exchange(SHOWS_FAST_FORWARD),
        "goal FF, shown FF, local no, panel off",
    ),
    (Passed(PLAYED), "local no, panel off"),
    (
        Exchange(SHOWS_PLAY),
        "goal PLAY, shown PLAY, local no, panel off",
    ),
];

/// With hands on the panel: a passed command may switch it, or leave it as it is.
const SWITCHED: &[Learnt] = &[
    (Exchange(PANEL_OFF), "panel off"),
    (Exchange(REMOTE), "local no, panel off"),
    (Exchange(PRESET_10), "in 10:00:00:00, local no, panel off"),
    (Passed(PANEL_OFF), "in 10:00:00:00, local no, panel off"),
    // The panel may be on, and no hand has been there yet.
    (Passed(PANEL_ON), "in 10:00:00:00, local no"),
    (Passed(SENSED_5), ""),
    (Exchange(SENSED_11), "panel on"),
    // The panel may be off, and then the preset is known to be done; but it may also be on.
    (Passed(PANEL_OFF), ""),
    (Exchange(REMOTE), "local no"),
    (Exchange(PRESET_10), ""),
    (Exchange(SENSED_11), "panel on"),
    (Passed(UNLISTED_0), ""),
];

/// The mechanics drift, and leave the registers as they are.
const DRIFTED: &[Learnt] = &[
    (Exchange(REMOTE), "local no, panel off"),
    (Exchange(PRESET_10), "in 10:00:00:00, local no, panel off"),
    // FAST FORWARD.
    (
        Exchange((&[0x20, 0x10, 0x30], ACK)),
        "goal FF, in 10:00:00:00, local no, panel off",
    ),
    (
        Exchange(SHOWS_FAST_FORWARD),
        "goal FF, shown FF, in 10:00:00:00, local no, panel off",
    ),
    // The tape may have come to its end.
    (Drifted, "in 10:00:00:00, local no, panel off"),
    (
        Exchange(SHOWS_FAST_FORWARD),
        "goal FF, shown FF, in 10:00:00:00, local no, panel off",
    ),
];

/// With hands on the panel: they act once it is on.
const TOUCHED: &[Learnt] = &[
    (Exchange(PANEL_OFF), "panel off"),
    (Exchange(REMOTE), "local no, panel off"),
    (Drifted, "local no, panel off"),
    (Exchange(PANEL_ON), "local no, panel on"),
    (Drifted, "panel on"),
];

/// Takes a command without its reply.
fn pass<S: TimeSet>(
    rt: &impl Abort,
    tracker: &mut Tracker<S>,
    sent: Sent,
) -> Result<(), AllocError> {
    tracker.pass(&command_of(rt, sent.0))
}

/// Takes what leaves a state.
fn take_one<S: TimeSet>(
    rt: &impl Abort,
    tracker: &mut Tracker<S>,
    taken: Taken,
) -> Result<(), AllocError> {
    match taken {
        Exchange(sent) => take_leaving(rt, tracker, sent, true, "taken"),
        Passed(sent) => pass(rt, tracker, sent),
        Drifted => tracker.drift(),
    }
}

fn learn<S: TimeSet>(
    rt: &impl Abort,
    tracker: &mut Tracker<S>,
    text: &mut String,
    rows: &[Learnt],
) -> Result<(), AllocError> {
    for (taken, expected) in rows {
        take_one(rt, tracker, *taken)?;
        tell_all(text, &known(rt, tracker))?;
        same(rt, text.as_str(), *expected, *taken);
    }
    Ok(())
}

fn learn_from_first<S: TimeSet>(
    rt: &impl Abort,
    alloc: Global,
    hands: Hands,
    rows: &[Learnt],
) -> Result<(), AllocError> {
    let mut tracker: Tracker<S> = Tracker::new(alloc, hands)?;
    let mut text = String::new(alloc);
    let result = learn(rt, &mut tracker, &mut text, rows);
    drop(tracker);
    result
}

fn learn_all<S: TimeSet>(rt: &impl Abort, alloc: Global) -> Result<(), AllocError> {
    learn_from_first::<S>(rt, alloc, Hands::None, PRESET)?;
    learn_from_first::<S>(rt, alloc, Hands::None, MOVED)?;
    learn_from_first::<S>(rt, alloc, Hands::None, DRIFTED)?;
    learn_from_first::<S>(rt, alloc, Hands::Allowed, SWITCHED)?;
    learn_from_first::<S>(rt, alloc, Hands::Allowed, TOUCHED)
}

#[test]
fn lists(rt: HostRuntime) -> Result<(), Fail> {
    learn_all::<ListSet>(&rt, rt.alloc())?;
    Ok(())
}

#[test]
fn spans(rt: HostRuntime) -> Result<(), Fail> {
    learn_all::<SpanSet>(&rt, rt.alloc())?;
    Ok(())
}

/// A preset counts as one that was acknowledged, and nothing comes from nothing.
fn count(rt: &impl Abort, tracker: &mut Tracker<SpanSet>) -> Result<(), AllocError> {
    take_all(rt, tracker, &[REMOTE, PRESET_10])?;
    pass(rt, tracker, PRESET_11)?;
    pass(rt, tracker, PRESET_11)?;
    let counts = spans_and_presets(tracker, Register::RegIn);
    same(rt, counts, (2, 3), "spans and presets");
    tracker.drift()?;
    let counts = spans_and_presets(tracker, Register::RegIn);
    same(rt, counts, (2, 3), "after a drift");
    take_leaving(rt, tracker, LOCAL, false, "no state")?;
    pass(rt, tracker, UNLISTED_0)?;
    tracker.drift()?;
    same(rt, tracker.remains(), false, "no state");
    Ok(())
}

fn count_from_first(rt: &impl Abort, alloc: Global) -> Result<(), AllocError> {
    let mut tracker: Tracker<SpanSet> = Tracker::new(alloc, Hands::None)?;
    let result = count(rt, &mut tracker);
    drop(tracker);
    result
}

#[test]
fn counts(rt: HostRuntime) -> Result<(), Fail> {
    count_from_first(&rt, rt.alloc())?;
    Ok(())
}
