//! Both kinds of sets of times beside each other, on exchanges that were worked out by hand. What is known after each of them is in
//! `tests/cases/state-known.txt`.

use super::sent::*;
use super::side_by_side::agree;
use super::{exchange, same};
use deck9::Hands;
use sets25::{ListSet, SpanSet};
use std::alloc::{AllocError, Global};
use std::process::Abort;
use std::test::Fail;
use track9::Tracker;

const RUNS: &[(Hands, &[Sent])] = &[
    // A deck that may be in LOCAL.
    (
        Hands::None,
        &[
            IN_ENTERED,
            SENSED_5,
            SENSED_5,
            PLAYED,
            (PLAY, &[0x11, 0x12, 0x14, 0x37]),
            UNLISTED_2,
            PRESET_10,
            REMOTE,
        ],
    ),
    // IN of a deck in REMOTE.
    (
        Hands::None,
        &[
            REMOTE,
            PRESET_10,
            (IN_PRESET_11, NAK),
            SENSED_10,
            IN_ENTERED,
            SENSED_LAST,
            IN_SHIFTED_ON,
            IN_SHIFTED_BACK,
            IN_RESET,
            SENSED_10,
            IN_SHIFTED_ON,
            IN_RECALLED,
            SENSED_10,
            IN_SET,
            UNLISTED_2,
            SENSED_NO_TIME,
            UNLISTED_0,
        ],
    ),
    // Shifts in LOCAL.
    (
        Hands::None,
        &[
            LOCAL_WITH_IN,
            SENSED_10,
            IN_SHIFTED_ON,
            IN_SHIFTED_ON,
            IN_SHIFTED_ON,
            // 10:00:00:02.
            (IN_SENSE, &[0x74, 0x10, 0x02, 0x00, 0x00, 0x10, 0x96]),
        ],
    ),
    // Goals and shown modes.
    (
        Hands::None,
        &[
            REMOTE,
            // FAST FWD.
            (&[0x20, 0x10, 0x30], ACK),
            SHOWS_FAST_FORWARD,
            PLAYED,
            SHOWS_STOP,
            RECORDED,
            SHOWS_PLAY,
            STOOD_BY,
            EJECTED,
            SHOWS_NOTHING,
            CUED_UP,
            SHOWS_REWIND,
            SHOWS_CUED,
        ],
    ),
    // The other registers.
    (
        Hands::None,
        &[
            REMOTE,
            AUDIO_IN_PRESET_10,
            (AUDIO_IN_SENSE, &[0x74, 0x12, 0x00, 0x00, 0x00, 0x10, 0x96]),
            // Audio IN alone is Set.
            (STATUS_3, &[0x71, 0x20, 0x04, 0x95]),
            PRESET_10,
            AUDIO_IN_ENTERED,
            // AUDIO OUT DATA PRESET 10:00:00:00, AUDIO OUT SHIFT -.
            (&[0x44, 0x17, 0x00, 0x00, 0x00, 0x10, 0x6B], ACK),
            (&[0x40, 0x1F, 0x5F], ACK),
            // OUT ENTRY, AUDIO IN FLAG RESET, AUDIO OUT RECALL.
            (&[0x40, 0x11, 0x51], ACK),
            (&[0x40, 0x22, 0x62], ACK),
            (&[0x40, 0x27, 0x67], ACK),
        ],
    ),
    // Hands on the panel.
    (
        Hands::Allowed,
        &[
            (LOCAL_DISABLE, NAK),
            PANEL_OFF,
            REMOTE,
            PRESET_10,
            PANEL_ON,
            SENSED_11,
            UNLISTED_2,
            UNLISTED_0,
        ],
    ),
    (Hands::Allowed, &[REMOTE, PRESET_10, SENSED_11]),
];

/// Both take the exchanges, each of which leaves a state.
fn agree_on(
    rt: &impl Abort,
    lists: &mut Tracker<ListSet>,
    spans: &mut Tracker<SpanSet>,
    exchanges: &[Sent],
) -> Result<(), AllocError> {
    for sent in exchanges {
        let (command, reply) = exchange(rt, *sent);
        let remains = agree(rt, lists, spans, &command, &reply)?;
        same(rt, remains, true, *sent);
    }
    Ok(())
}

fn agree_beside_lists(
    rt: &impl Abort,
    alloc: Global,
    lists: &mut Tracker<ListSet>,
    hands: Hands,
    exchanges: &[Sent],
) -> Result<(), AllocError> {
    let mut spans: Tracker<SpanSet> = Tracker::new(alloc, hands)?;
    let result = agree_on(rt, lists, &mut spans, exchanges);
    drop(spans);
    result
}

fn agree_from_first(
    rt: &impl Abort,
    alloc: Global,
    hands: Hands,
    exchanges: &[Sent],
) -> Result<(), AllocError> {
    let mut lists: Tracker<ListSet> = Tracker::new(alloc, hands)?;
    let result = agree_beside_lists(rt, alloc, &mut lists, hands, exchanges);
    drop(lists);
    result
}

#[test]
fn both_kinds_agree(rt: HostRuntime) -> Result<(), Fail> {
    for (hands, exchanges) in RUNS {
        agree_from_first(&rt, rt.alloc(), *hands, exchanges)?;
    }
    Ok(())
}
