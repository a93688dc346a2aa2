//! The presets that were counted, and the spans of the times at which a register may be Set.

use super::plain_deck::REGISTERS;
use super::sent::*;
use super::*;
use sets25::SpanSet;
use std::alloc::Global;
use std::test::Fail;

/// Exchanges, and then the spans and the presets of IN, and those of audio IN.
pub(super) type Row = (&'static [Sent], (usize, u32), (usize, u32));

/// IN DATA PRESET 12:00:00:00.
const PRESET_12: Sent = (IN_PRESET_12, ACK);

pub(super) const ROWS: &[Row] = &[
    (&[], (1, 0), (1, 0)),
    (
        &[
            LOCAL_WITH_IN,
            SENSED_10,
            IN_SHIFTED_ON,
            IN_SHIFTED_ON,
            IN_SHIFTED_ON,
        ],
        (1, 0),
        (0, 0),
    ),
    (
        &[
            LOCAL_WITH_IN,
            SENSED_10,
            IN_SHIFTED_ON,
            IN_SHIFTED_ON,
            IN_SHIFTED_ON,
            PRESET_12,
        ],
        (2, 1),
        (0, 0),
    ),
    // The frames 2,159,999 and 0 are two spans.
    (&[LOCAL_WITH_IN, SENSED_LAST, IN_SHIFTED_ON], (2, 0), (0, 0)),
    (&[REMOTE, AUDIO_IN_PRESET_10], (1, 0), (1, 1)),
    // A preset that got a NAK does not count, nor one that leaves no state.
    (&[REMOTE, PRESET_10, (IN_PRESET_12, NAK)], (1, 1), (1, 0)),
    (&[REMOTE, PRESET_10, PRESET_10], (1, 2), (1, 0)),
    // A deck in LOCAL keeps each time that it may have left; what turns out to be in REMOTE keeps one.
    (&[SENSED_10, PRESET_12], (2, 1), (1, 0)),
    (&[SENSED_10, PRESET_12, LOCAL], (2, 1), (1, 0)),
    (&[SENSED_10, PRESET_12, REMOTE], (1, 1), (1, 0)),
    (
        &[LOCAL_WITH_IN, SENSED_10, PRESET_12, PRESET_10, IN_SET],
        (2, 2),
        (0, 0),
    ),
    (&[REMOTE, PRESET_10, UNLISTED_2], (1, 1), (1, 0)),
];

/// Takes exchanges that leave a state, and then asks each of these registers for its spans and its presets.
fn count(
    rt: &impl Abort,
    tracker: &mut Tracker<SpanSet>,
    exchanges: &[Sent],
    counts: &[(Register, (usize, u32))],
) -> Result<(), AllocError> {
    take_all(rt, tracker, exchanges)?;
    for (register, wanted) in counts {
        let found = spans_and_presets(tracker, *register);
        same(rt, found, *wanted, (*register as u8, exchanges));
    }
    Ok(())
}

fn count_from_first(
    rt: &impl Abort,
    alloc: Global,
    exchanges: &[Sent],
    counts: &[(Register, (usize, u32))],
) -> Result<(), AllocError> {
    let mut tracker: Tracker<SpanSet> = Tracker::new(alloc, Hands::None)?;
    let result = count(rt, &mut tracker, exchanges, counts);
    drop(tracker);
    result
}

#[test]
fn rows(rt: HostRuntime) -> Result<(), Fail> {
    for (exchanges, ins, ains) in ROWS {
        let counts = [(Register::RegIn, *ins), (Register::RegAudioIn, *ains)];
        count_from_first(&rt, rt.alloc(), exchanges, &counts)?;
    }
    Ok(())
}

/// A preset that leaves no state does not count.
fn count_none(rt: &impl Abort, tracker: &mut Tracker<SpanSet>) -> Result<(), AllocError> {
    take_all(rt, tracker, &[REMOTE, PRESET_10])?;
    for sent in [LOCAL, PRESET_12] {
        take_leaving(rt, tracker, sent, false, "no state")?;
    }
    same(rt, tracker.presets(Register::RegIn), 1, "presets");
    Ok(())
}

fn count_none_from_first(rt: &impl Abort, alloc: Global) -> Result<(), AllocError> {
    let mut tracker: Tracker<SpanSet> = Tracker::new(alloc, Hands::None)?;
    let result = count_none(rt, &mut tracker);
    drop(tracker);
    result
}

#[test]
fn a_preset_that_leaves_no_state(rt: HostRuntime) -> Result<(), Fail> {
    count_none_from_first(&rt, rt.alloc())?;
    Ok(())
}

/// The DATA PRESET of 10:00:00:00 of each register.
const PRESETS: &[(Register, &[u8])] = &[
    (Register::RegIn, &[0x44, 0x14, 0x00, 0x00, 0x00, 0x10, 0x68]),
    (
        Register::RegOut,
        &[0x44, 0x15, 0x00, 0x00, 0x00, 0x10, 0x69],
    ),
    (
        Register::RegAudioIn,
        &[0x44, 0x16, 0x00, 0x00, 0x00, 0x10, 0x6A],
    ),
    (
        Register::RegAudioOut,
        &[0x44, 0x17, 0x00, 0x00, 0x00, 0x10, 0x6B],
    ),
];

/// What is counted of a register that was preset once, or not at all.
fn counts_of(register: Register, preset: Register) -> (Register, (usize, u32)) {
    (register, (1, u32::from(register == preset)))
}

#[test]
fn each_register(rt: HostRuntime) -> Result<(), Fail> {
    for (preset, bytes) in PRESETS {
        let counts = REGISTERS.map(|register| counts_of(register, *preset));
        let exchanges = [REMOTE, (*bytes, ACK)];
        count_from_first(&rt, rt.alloc(), &exchanges, &counts)?;
    }
    Ok(())
}
