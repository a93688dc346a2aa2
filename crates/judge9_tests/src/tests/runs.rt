//! Exchanges, and states that a deck may or may not have after each of them.

use super::same;
use block9::{Block, Command, Exchange};
use deck9::{Entry, Hands, Mode, State};
use judge9::is_run;
use std::alloc::{AllocError, Global};
use std::process::Abort;
use std::test::Fail;
use tc25::TimeCode;

/// The bytes of a command and of its reply.
type Sent<'a> = (&'a [u8], &'a [u8]);

/// PLAY, acknowledged.
const PLAY: Sent<'static> = (&[0x20, 0x01, 0x21], &[0x10, 0x01, 0x11]);
/// LOCAL ENABLE, acknowledged.
const ENABLE: Sent<'static> = (&[0x00, 0x1D, 0x1D], &[0x10, 0x01, 0x11]);
/// IN DATA PRESET to 10:00:00:00, acknowledged: frame 900,000.
const PRESET_10: Sent<'static> = (
    &[0x44, 0x14, 0x00, 0x00, 0x00, 0x10, 0x68],
    &[0x10, 0x01, 0x11],
);
/// IN SHIFT + and IN SHIFT -, acknowledged.
const SHIFT_MORE: Sent<'static> = (&[0x40, 0x18, 0x58], &[0x10, 0x01, 0x11]);

const SHIFT_LESS: Sent<'static> = (&[0x40, 0x19, 0x59], &[0x10, 0x01, 0x11]);
/// STATUS SENSE of data 1 and 2, answered as STOP and as PLAY.
const SHOWS_STOP: Sent<'static> = (&[0x61, 0x20, 0x12, 0x93], &[0x72, 0x20, 0x20, 0x00, 0xB2]);

const SHOWS_PLAY: Sent<'static> = (&[0x61, 0x20, 0x12, 0x93], &[0x72, 0x20, 0x01, 0x00, 0x93]);
/// STATUS SENSE of datum 0, answered that the deck is not in LOCAL.
const REMOTE: Sent<'static> = (&[0x61, 0x20, 0x01, 0x82], &[0x71, 0x20, 0x00, 0x91]);

/// Exchanges, states, and whether these are a run.
type Row<'a> = (&'a [Sent<'a>], &'a [Stood], bool);

/// A state of which no register but perhaps IN is set.
#[derive(Clone, Copy)]
struct Stood {
    goal: Mode,
    shown: Mode,
    /// Where IN is set, that many frames after midnight.
    in_frames: Option<u32>,
    local: bool,
    panel: bool,
}

/// A stopped deck in REMOTE with nothing set and the panel off.
const STOPPED: Stood = Stood {
    goal: Mode::Stop,
    shown: Mode::Stop,
    in_frames: None,
    local: false,
    panel: false,
};

const STOPPED_IN_LOCAL: Stood = Stood {
    local: true,
    ..STOPPED
};

/// A deck in REMOTE that goes for PLAY and shows STOP.
const PLAYING: Stood = Stood {
    goal: Mode::Play,
    ..STOPPED
};

const SHOWING_PLAY: Stood = Stood {
    shown: Mode::Play,
    ..PLAYING
};

const SHOWING_REC: Stood = Stood {
    shown: Mode::Rec,
    ..PLAYING
};

const SHOWING_REWIND: Stood = Stood {
    shown: Mode::Rewind,
    ..PLAYING
};

const SHOWING_PLAY_TOUCHED: Stood = Stood {
    panel: true,
    ..SHOWING_PLAY
};

/// A stopped deck with IN set at midnight.
const MARKED_0: Stood = Stood {
    in_frames: Some(0),
    ..STOPPED
};

const MARKED_1: Stood = Stood {
    in_frames: Some(1),
    ..STOPPED
};

const MARKED_5: Stood = Stood {
    in_frames: Some(5),
    ..STOPPED
};

const MARKED_LAST: Stood = Stood {
    in_frames: Some(2_159_999),
    ..STOPPED
};

/// The same, with IN set at 10:00:00:00 and at the frame after it.
const MARKED_10: Stood = Stood {
    in_frames: Some(900_000),
    ..STOPPED
};

const MARKED_10_NEXT: Stood = Stood {
    in_frames: Some(900_001),
    ..STOPPED
};

/// The same with the panel on.
const TOUCHED_0: Stood = Stood {
    panel: true,
    ..MARKED_0
};

const TOUCHED_5: Stood = Stood {
    panel: true,
    ..MARKED_5
};

const AS_MANY: &[Row<'static>] = &[
    (&[], &[], true),
    (&[PLAY], &[], false),
    (&[], &[PLAYING], false),
    (&[PLAY], &[PLAYING], true),
    (&[PLAY, PLAY], &[PLAYING], false),
];

const MODES: &[Row<'static>] = &[
    (&[PLAY], &[STOPPED], false),
    (&[PLAY], &[STOPPED_IN_LOCAL], true),
    (&[PLAY], &[SHOWING_PLAY_TOUCHED], false),
    (&[PLAY, SHOWS_PLAY], &[SHOWING_REC, SHOWING_PLAY], true),
    (&[PLAY, SHOWS_STOP], &[SHOWING_REC, SHOWING_PLAY], false),
    // the deck comes to PLAY, and then to the end of the tape
    (&[PLAY, SHOWS_STOP], &[SHOWING_REC, STOPPED], true),
    (&[PLAY, REMOTE], &[SHOWING_REC, SHOWING_REWIND], false),
];

const SHIFTED: &[Row<'static>] = &[
    (&[PRESET_10, SHIFT_MORE], &[MARKED_10, MARKED_10_NEXT], true),
    (&[PRESET_10, SHIFT_MORE], &[MARKED_10, MARKED_10], false),
    (&[SHIFT_MORE, SHIFT_LESS], &[MARKED_0, MARKED_LAST], true),
    (&[SHIFT_LESS, SHIFT_LESS], &[MARKED_0, MARKED_1], false),
];

const TOUCHED: &[Row<'static>] = &[
    (&[ENABLE, REMOTE], &[TOUCHED_0, TOUCHED_5], true),
    (&[ENABLE, REMOTE], &[TOUCHED_0, MARKED_5], false),
    (&[REMOTE, REMOTE], &[MARKED_0, TOUCHED_5], false),
    (&[REMOTE, REMOTE], &[MARKED_0, MARKED_5], false),
    (&[REMOTE, SHIFT_MORE], &[TOUCHED_0, TOUCHED_5], true),
];

/// What IN holds: a time that many frames after midnight, or nothing.
fn entry_of(frames: Option<u32>) -> Entry {
    match frames {
        Some(frames) => Entry::At(TimeCode::from_frames(frames).unwrap_or_default()),
        None => Entry::Clear,
    }
}

/// The states that these are.
fn states(alloc: Global, stood: &[Stood]) -> Result<Vec<State>, AllocError> {
    let mut states = Vec::new(alloc);
    for state in stood {
        states.push(State {
            goal: state.goal,
            shown: state.shown,
            ins: entry_of(state.in_frames),
            outs: Entry::Clear,
            ains: Entry::Clear,
            aouts: Entry::Clear,
            local: state.local,
            panel: state.panel,
        })?;
    }
    Ok(states)
}

/// The exchanges that these blocks are.
fn exchanges(alloc: Global, sent: &[Sent]) -> Result<Vec<Exchange>, AllocError> {
    let mut exchanges = Vec::new(alloc);
    for (command, reply) in sent {
        let Some(block) = Block::from_bytes(command) else {
            continue;
        };
        if let (Some(command), Some(reply)) = (Command::of(&block), Block::from_bytes(reply)) {
            exchanges.push(Exchange {
                command,
                block,
                reply,
                delay_us: 400,
                time_us: 400,
            })?;
        }
    }
    Ok(exchanges)
}

/// Compares what is answered for a row.
fn tell_row(
    rt: &impl Abort,
    hands: Hands,
    exchanges: &[Exchange],
    states: &[State],
    (sent, _, expected): &Row,
) {
    same(rt, exchanges.len(), sent.len(), sent);
    let is_run = is_run(exchanges, states, hands);
    same(rt, is_run, *expected, sent);
}

/// Compares what is answered for each row.
fn agree(rt: &impl Abort, alloc: Global, hands: Hands, rows: &[Row]) -> Result<(), Fail> {
    for row in rows {
        let exchanges = exchanges(alloc, row.0)?;
        let states = states(alloc, row.1)?;
        tell_row(rt, hands, exchanges.as_slice(), states.as_slice(), row);
    }
    Ok(())
}

#[test]
fn as_many_states_as_exchanges(rt: HostRuntime) -> Result<(), Fail> {
    agree(&rt, rt.alloc(), Hands::None, AS_MANY)
}

#[test]
fn a_goal_and_the_mode_that_is_shown(rt: HostRuntime) -> Result<(), Fail> {
    agree(&rt, rt.alloc(), Hands::None, MODES)
}

#[test]
fn a_register_that_is_shifted(rt: HostRuntime) -> Result<(), Fail> {
    agree(&rt, rt.alloc(), Hands::None, SHIFTED)
}

#[test]
fn a_hand_on_the_panel(rt: HostRuntime) -> Result<(), Fail> {
    agree(&rt, rt.alloc(), Hands::Allowed, TOUCHED)
}
