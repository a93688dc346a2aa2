//! A second opinion on the runs of captures whose verdicts are worked out by hand in `tests/cases/`.

use super::parts::*;
use super::{capture, fail, same, tell};
use deck9::{Hands, Mode};
use judge9::{RunVerdict, is_run, judge_with_run};
use std::alloc::Global;
use std::process::Abort;
use std::test::Fail;

/// Exchanges.
type Parts<'a> = &'a [&'a str];

/// STATUS SENSE of data 0 to 2, answered as not in LOCAL and PLAY, and as not in LOCAL and VAR.
const REMOTE_PLAY: &str = "C 61 20 03 84 D 73 20 00 01 00 94";

const REMOTE_VAR: &str = "C 61 20 03 84 D 73 20 00 08 00 9B";

/// At most one exchange, and what is open.
const SHORT: &[Parts] = &[
    &[],
    &["C 20 01"],
    &[PLAY],
    &[PLAY, "C 60 10 70 D 74 10 FF"],
    &[UNLISTED],
    &[ENABLE],
    &[DISABLE],
    &["C 61 0C 01 6E D 74 04 24 00 00 00 9C"],
    &["C 61 0C 01 6E D 74 04 64 00 00 00 DC"],
    &["C 61 0C 01 6E D 74 00 FF FF FF FF 70"],
    &["C 20 01 21 D 11 12 14 37"],
    &["C 20 01 21 D 11 12 05 28"],
    &["C 20 01 21 D 11 12 00 23"],
    &["C 20 01 21 D 11 12 02 25"],
    &["C 20 01 21 D 11 12 0A 2D"],
    &["C 20 01 21 D 11 12 83 A6"],
    &["C 20 01 21 D 11 12 FF 22"],
    &["C 00 11 11 D 12 11 20 10 53"],
    &["C 20 40 60 D 11 01 AB BD"],
    &["C 20 40 60 D 10 12 22"],
    &["C 51 20 00 71 D 10 01 11"],
    &["C 00 DF DF D 10 01 11"],
    &["C 21 01 07 29 D 7F 20 00 01 02 03 04 05 06 07 08 09 0A 0B 0C 0D 0E 08"],
];

const MODES: &[Parts] = &[
    &[REMOTE, STOP],
    &[REMOTE, PLAY],
    &[REMOTE, RECORD],
    &[REMOTE, FAST_FORWARD],
    &[REMOTE, "C 20 20 40 D 10 01 11"],
    &[REMOTE, "C 21 13 10 44 D 10 01 11"],
    &[REMOTE, "C 21 11 10 42 D 10 01 11"],
    &[REMOTE, "C 22 22 10 00 54 D 10 01 11"],
    &[REMOTE, CUE_UP],
    &[REMOTE, EJECT],
    &[SHOWS_STOP],
    &[SHOWS_PLAY],
    &[SHOWS_REC],
    &[SHOWS_FF],
    &[SHOWS_REW],
    &["C 61 20 12 93 D 72 20 00 20 B2"],
    &["C 61 20 12 93 D 72 20 00 10 A2"],
    &["C 61 20 12 93 D 72 20 00 08 9A"],
    &["C 61 20 12 93 D 72 20 10 00 A2"],
    &[REMOTE, PLAY, SHOWS_PLAY, CUE_UP, SHOWS_CUED],
    &WOUND_AND_PLAYED,
    &[CUE_UP, SHOWS_FF, SHOWS_REW, SHOWS_CUED],
    &[PLAY, REMOTE_PLAY, UNLISTED, REMOTE_VAR],
    &[REMOTE, EJECT, SHOWS_NOTHING],
];

const REGISTERS: &[Parts] = &[
    &[IN_ENTRY, IN_05, IN_05],
    &[IN_ENTRY, IN_05, IN_05_NEXT],
    &[
        REMOTE,
        "C 61 0C 01 6E D 74 04 00 00 00 01 79",
        IN_ENTRY,
        "C 60 10 70 D 74 10 03 00 00 01 88",
    ],
    &[IN_INVALID, NONE_SET],
    &[PRESET_10, IN_09, LOCAL],
    &[PRESET_10, IN_11, LOCAL],
    &[REMOTE, PRESET_10, REFUSED_11, IN_10],
    &[REMOTE, PRESET_10, UNLISTED, IN_11],
    &[REMOTE, PRESET_LAST, SHIFT_MORE, IN_FIRST],
    &[REMOTE, PRESET_FIRST, SHIFT_LESS, IN_LAST],
    &[
        IN_SET_LOCAL,
        IN_10,
        SHIFT_MORE,
        SHIFT_MORE,
        SHIFT_MORE,
        IN_10_TWO_ON,
    ],
    &[
        IN_SET_LOCAL,
        IN_10,
        SHIFT_MORE,
        SHIFT_MORE,
        SHIFT_MORE,
        "C 44 14 00 00 00 12 6A D 10 01 11",
    ],
    &[IN_SET_LOCAL, IN_LAST, SHIFT_MORE],
    &[
        IN_SET_LOCAL,
        IN_10,
        SHIFT_LESS,
        "C 60 10 70 D 74 10 24 59 59 09 63",
    ],
    &[REMOTE, AUDIO_PRESET_10, AUDIO_IN_10],
    &[
        REMOTE,
        AUDIO_PRESET_10,
        AUDIO_IN_10,
        "C 61 20 31 B2 D 71 20 04 95",
    ],
    &[REMOTE, PRESET_10, AUDIO_IN_ENTRY, IN_10],
    &[
        REMOTE,
        PRESET_LAST,
        "C 44 15 04 03 02 01 63 D 10 01 11",
        AUDIO_IN_ENTRY,
        "C 40 23 63 D 10 01 11",
    ],
];

/// A deck that somebody may touch has a run of these.
const TOUCHED: &[Parts] = &[
    &[REFUSED_DISABLE],
    &[REMOTE, PRESET_10, IN_11],
    &[ENABLE, REMOTE, PRESET_10, IN_11],
    &[DISABLE, REMOTE, PRESET_10, ENABLE, IN_11],
    &[ENABLE, REMOTE, DISABLE, LOCAL],
    &[
        DISABLE,
        IN_FIRST,
        "C 60 11 71 D 74 11 24 59 59 23 7E",
        "C 60 12 72 D 74 12 04 03 02 01 90",
        "C 61 20 04 85 D 74 20 01 01 00 0F A5",
        "C 61 20 04 85 D 74 20 01 02 00 0F A6",
    ],
];

/// The reply at the reply limit, and its bytes at the byte gap.
const TIMED: [&str; 2] = [
    "time_us,wire,byte\n400,C,20\n800,C,01\n1200,C,21\n10487,D,10\n10887,D,01\n11287,D,11\n",
    "time_us,wire,byte\n400,C,20\n800,C,01\n1200,C,21\n10487,D,10\n20774,D,01\n31061,D,11\n",
];

/// Each row is a yes, with a run.
fn agree(rt: &impl Abort, alloc: Global, hands: Hands, rows: &[Parts]) -> Result<(), Fail> {
    for parts in rows {
        let text = capture(alloc, parts)?;
        let is_yes = tell(rt, alloc, text.as_str(), hands)?;
        same(rt, is_yes, true, parts);
    }
    Ok(())
}

/// What a deck gives that nobody touches, one gives too that somebody may touch.
#[test]
fn untouched_and_touched(rt: HostRuntime) -> Result<(), Fail> {
    for rows in [SHORT, MODES, REGISTERS] {
        agree(&rt, rt.alloc(), Hands::None, rows)?;
        agree(&rt, rt.alloc(), Hands::Allowed, rows)?;
    }
    agree(&rt, rt.alloc(), Hands::Allowed, TOUCHED)
}

#[test]
fn at_the_limits(rt: HostRuntime) -> Result<(), Fail> {
    for text in TIMED {
        let is_yes = tell(&rt, rt.alloc(), text, Hands::None)?;
        same(&rt, is_yes, true, text);
        let is_yes = tell(&rt, rt.alloc(), text, Hands::Allowed)?;
        same(&rt, is_yes, true, text);
    }
    Ok(())
}

/// A run of five states is none any more once the third of them shows REW where the deck told FF.
#[test]
fn wound_and_played(rt: HostRuntime) -> Result<(), Fail> {
    let text = capture(rt.alloc(), &WOUND_AND_PLAYED)?;
    let mut run = judge_with_run(rt.alloc(), text.as_bytes(), Hands::None).expect(&rt, "a verdict");
    let RunVerdict::Yes {
        exchanges,
        states,
        ..
    } = &mut run
    else {
        fail(&rt, "no")
    };
    same(&rt, states.len(), 5, "states");
    if let Some(third) = states.get_mut(2) {
        third.shown = Mode::Rewind;
    }
    let is_run = is_run(exchanges.as_slice(), states.as_slice(), Hands::None);
    same(&rt, is_run, false, "REW");
    Ok(())
}
