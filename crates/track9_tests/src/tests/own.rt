//! Decks that do things of their own: what is known after exchanges with them, by hand, in the words of a report.

use super::own_deck::profile_of;
use super::plain_deck::Sheet;
use super::sent::*;
use super::told::tell_all;
use super::*;
use deck9::{Forgotten, Mode, Profile};
use sets25::{ListSet, SpanSet};
use std::alloc::Global;
use std::test::Fail;

const STOPPED: Sent = (&[0x20, 0x00, 0x20], ACK);

const AUTO_EDIT: &[u8] = &[0x20, 0x42, 0x62];

const AUTO_EDITED: Sent = (AUTO_EDIT, ACK);

const FULL_EE_ON: Sent = (&[0x20, 0x61, 0x81], ACK);
/// The command beside FULL EE ON.
const BESIDE_FULL_EE_ON: Sent = (&[0x20, 0x62, 0x82], ACK);

const UNLISTED_6: Sent = (&[0x60, 0x50, 0xB0], ACK);

const UNLISTED_8: Sent = (&[0x80, 0x00, 0x80], ACK);

/// A deck in REMOTE stops, and takes IN and audio IN at 10:00:00:00. Its panel is off.
const STILL: &[Sent] = &[
    PANEL_OFF,
    REMOTE,
    STOPPED,
    SHOWS_STOP,
    PRESET_10,
    AUDIO_IN_PRESET_10,
];

/// What is known of that deck.
const OF_STILL: &str =
    "goal STOP, shown STOP, in 10:00:00:00, local no, ain 10:00:00:00, panel off";

/// What is named for commands.
type Names = &'static [(u32, Forgotten)];

/// Whether hands are allowed, what is named, exchanges that leave a state, one more, and what is known after that.
type ForgetsRow = (Hands, Names, &'static [Sent], Sent, &'static str);

const MOTION_AT_AUTO_EDIT: Names = &[(0x20_42, Forgotten::Motion)];

const NOTHING_AT_FULL_EE_ON: Names = &[(0x20_61, Forgotten::Nothing)];

const NEIGHBOURS: Names = &[
    (0x20_61, Forgotten::Nothing),
    (0x20_62, Forgotten::Registers),
];

const TAPE_AT_6: Names = &[(0x60_50, Forgotten::Tape)];

const EVERYTHING_AT_6: Names = &[(0x60_50, Forgotten::Everything)];

const NOTHING_AT_8: Names = &[(0x80_00, Forgotten::Nothing)];

const EJECT: &[u8] = &[0x20, 0x0F, 0x2F];

const REGISTERS_AT_EJECT: Names = &[(0x20_0F, Forgotten::Registers)];

const MOTION_AT_PRESET: Names = &[(0x44_14, Forgotten::Motion)];

const EVERYTHING_AT_PANEL_OFF: Names = &[(0x00_0C, Forgotten::Everything)];

const REGISTERS_AT_8: Names = &[(0x80_00, Forgotten::Registers)];

const FORGETS: &[ForgetsRow] = &[
    // AUTO EDIT: what is named, what its group forgets, and a NAK.
    (
        Hands::None,
        MOTION_AT_AUTO_EDIT,
        STILL,
        AUTO_EDITED,
        "in 10:00:00:00, local no, ain 10:00:00:00, panel off",
    ),
    (Hands::None, &[], STILL, AUTO_EDITED, "local no, panel off"),
    (
        Hands::None,
        MOTION_AT_AUTO_EDIT,
        STILL,
        (AUTO_EDIT, NAK),
        OF_STILL,
    ),
    // Of two neighbours one is named, or both.
    (
        Hands::None,
        NOTHING_AT_FULL_EE_ON,
        STILL,
        FULL_EE_ON,
        OF_STILL,
    ),
    (
        Hands::None,
        NOTHING_AT_FULL_EE_ON,
        STILL,
        BESIDE_FULL_EE_ON,
        "local no, panel off",
    ),
    (Hands::None, NEIGHBOURS, STILL, FULL_EE_ON, OF_STILL),
    (
        Hands::None,
        NEIGHBOURS,
        STILL,
        BESIDE_FULL_EE_ON,
        "goal STOP, shown STOP, local no, panel off",
    ),
    // A name goes before the group, whether it forgets less or more.
    (
        Hands::None,
        REGISTERS_AT_8,
        STILL,
        UNLISTED_8,
        "goal STOP, shown STOP, local no, panel off",
    ),
    (Hands::None, &[], STILL, UNLISTED_8, "panel off"),
    (
        Hands::None,
        TAPE_AT_6,
        STILL,
        UNLISTED_6,
        "local no, panel off",
    ),
    (Hands::None, EVERYTHING_AT_6, STILL, UNLISTED_6, "panel off"),
    (Hands::None, &[], STILL, UNLISTED_6, OF_STILL),
    // Where hands are allowed, everything is the panel too.
    (Hands::Allowed, EVERYTHING_AT_6, STILL, UNLISTED_6, ""),
    (
        Hands::Allowed,
        TAPE_AT_6,
        STILL,
        UNLISTED_6,
        "local no, panel off",
    ),
    (Hands::Allowed, NOTHING_AT_8, STILL, UNLISTED_8, OF_STILL),
    (Hands::Allowed, &[], STILL, UNLISTED_8, ""),
    // EJECT beside its effect, and after a NAK.
    (
        Hands::None,
        REGISTERS_AT_EJECT,
        STILL,
        EJECTED,
        "goal EJECT, shown STOP, local no, panel off",
    ),
    (
        Hands::None,
        REGISTERS_AT_EJECT,
        STILL,
        (EJECT, NAK),
        OF_STILL,
    ),
    (
        Hands::Allowed,
        REGISTERS_AT_EJECT,
        STILL,
        EJECTED,
        "goal EJECT, shown STOP, local no, panel off",
    ),
    // In LOCAL it forgets whether EJECT was done or not.
    (
        Hands::None,
        REGISTERS_AT_EJECT,
        &[LOCAL_WITH_IN, SENSED_10],
        EJECTED,
        "local yes, panel off",
    ),
    // IN DATA PRESET 10:00:00:00, of a deck that has that time already.
    (
        Hands::None,
        MOTION_AT_PRESET,
        &[LOCAL_WITH_IN, SENSED_10],
        PRESET_10,
        "in 10:00:00:00, out clear, local yes, ain clear, aout clear, panel off",
    ),
    // LOCAL DISABLE, where hands are allowed, with the panel too, and not without.
    (Hands::Allowed, EVERYTHING_AT_PANEL_OFF, &[], PANEL_OFF, ""),
    (
        Hands::None,
        EVERYTHING_AT_PANEL_OFF,
        &[],
        PANEL_OFF,
        "panel off",
    ),
    (Hands::Allowed, &[], &[], PANEL_OFF, "panel off"),
    // A deck in LOCAL ignores no command that is not listed.
    (
        Hands::None,
        REGISTERS_AT_8,
        &[LOCAL_WITH_IN, SENSED_10],
        UNLISTED_8,
        "local yes, panel off",
    ),
    (
        Hands::None,
        NOTHING_AT_8,
        &[LOCAL_WITH_IN, SENSED_10],
        UNLISTED_8,
        "in 10:00:00:00, out clear, local yes, ain clear, aout clear, panel off",
    ),
];

/// Goals, each with a mode on the way to it beside those of every deck.
type Ways = &'static [(Mode, Mode)];

/// Modes on the way to goals, exchanges that leave a state, one more, and what is known after that: `None` where it leaves none.
type WaysRow = (Ways, &'static [Sent], Sent, Option<&'static str>);

/// A deck in REMOTE has stopped, and cues up.
const CUES_UP: &[Sent] = &[REMOTE, STOPPED, SHOWS_STOP, CUED_UP];

const WAYS: &[WaysRow] = &[
    // REC on the way to CUED, and to no other goal.
    (
        &[(Mode::Cued, Mode::Rec)],
        CUES_UP,
        SHOWS_RECORD,
        Some("goal CUED, shown REC, local no, panel off"),
    ),
    (&[], CUES_UP, SHOWS_RECORD, None),
    (&[(Mode::Play, Mode::Rec)], CUES_UP, SHOWS_RECORD, None),
    (
        &[(Mode::Cued, Mode::Rec)],
        &[REMOTE, STOPPED, SHOWS_STOP, PLAYED],
        SHOWS_RECORD,
        None,
    ),
    // Those of every deck stay.
    (
        &[(Mode::Cued, Mode::Rec)],
        CUES_UP,
        SHOWS_REWIND,
        Some("goal CUED, shown REW, local no, panel off"),
    ),
    // A deck that has come to a halt goes on to what is on the way to STOP.
    (
        &[(Mode::Stop, Mode::Rewind)],
        &[REMOTE, PLAYED, SHOWS_PLAY],
        SHOWS_REWIND,
        Some("goal STOP, shown REW, local no, panel off"),
    ),
    (&[], &[REMOTE, PLAYED, SHOWS_PLAY], SHOWS_REWIND, None),
];

/// Takes exchanges, and tells what is known after the last where it leaves a state.
fn judge<S: TimeSet>(
    rt: &impl Abort,
    tracker: &mut Tracker<S>,
    text: &mut String,
    before: &[Sent],
    last: Sent,
    told: Option<&'static str>,
) -> Result<(), AllocError> {
    take_all(rt, tracker, before)?;
    take_leaving(rt, tracker, last, told.is_some(), "the last")?;
    if let Some(told) = told {
        tell_all(text, &known(rt, tracker))?;
        same(rt, text.as_str(), told, (before, last));
    }
    Ok(())
}

fn judge_with<S: TimeSet>(
    rt: &impl Abort,
    alloc: Global,
    profile: &Profile,
    before: &[Sent],
    last: Sent,
    told: Option<&'static str>,
) -> Result<(), AllocError> {
    let mut tracker: Tracker<S> = Tracker::of(alloc, profile)?;
    let mut text = String::new(alloc);
    let result = judge(rt, &mut tracker, &mut text, before, last, told);
    drop(tracker);
    result
}

fn judge_forgets<S: TimeSet>(
    rt: &impl Abort,
    alloc: Global,
    row: &ForgetsRow,
) -> Result<(), AllocError> {
    let (hands, named, before, last, told) = *row;
    let profile = profile_of(
        alloc,
        hands,
        &Sheet {
            named,
            goals: &[],
            ways: &[],
            runs: &[],
            loses: &[],
        },
    )?;
    judge_with::<S>(rt, alloc, &profile, before, last, Some(told))
}

fn judge_ways<S: TimeSet>(rt: &impl Abort, alloc: Global, row: &WaysRow) -> Result<(), AllocError> {
    let (ways, before, last, told) = *row;
    let profile = profile_of(
        alloc,
        Hands::None,
        &Sheet {
            named: &[],
            goals: &[],
            ways,
            runs: &[],
            loses: &[],
        },
    )?;
    judge_with::<S>(rt, alloc, &profile, before, last, told)
}

#[test]
fn forgets(rt: HostRuntime) -> Result<(), Fail> {
    for row in FORGETS {
        judge_forgets::<ListSet>(&rt, rt.alloc(), row)?;
        judge_forgets::<SpanSet>(&rt, rt.alloc(), row)?;
    }
    Ok(())
}

#[test]
fn ways(rt: HostRuntime) -> Result<(), Fail> {
    for row in WAYS {
        judge_ways::<ListSet>(&rt, rt.alloc(), row)?;
        judge_ways::<SpanSet>(&rt, rt.alloc(), row)?;
    }
    Ok(())
}
