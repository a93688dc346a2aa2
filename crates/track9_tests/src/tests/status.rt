//! What replies to STATUS SENSE report, by the table of status data, by hand.

use super::sent::NAK;
use super::*;
use deck9::{Known, Mode, ModeSet, RegistersSet, Status};
use std::alloc::Global;
use std::test::Fail;

/// The request's data byte, the reply, and what that reports: LOCAL, the modes, and which registers are Set.
type Row = (
    u8,
    &'static [u8],
    Option<bool>,
    Option<&'static [Mode]>,
    Option<RegistersSet>,
);

/// Those with the bit of PLAY set in datum 1, whatever datum 2 is.
const PLAY_OR_JOGGED: &[Mode] = &[Mode::Play, Mode::Shuttle, Mode::Jog, Mode::Var];

/// Those with no bit set in datum 2, whatever datum 1 is.
const NOT_JOGGED: &[Mode] = &[
    Mode::Stop,
    Mode::Play,
    Mode::Rec,
    Mode::FastForward,
    Mode::Rewind,
    Mode::Eject,
];

/// Those with no bit set in datum 1, whatever datum 2 is.
const NO_MOTION_BIT: &[Mode] = &[Mode::Shuttle, Mode::Jog, Mode::Var, Mode::Cued, Mode::Eject];

/// IN and audio IN are.
const INS: RegistersSet = RegistersSet {
    ins: true,
    outs: false,
    ains: true,
    aouts: false,
};

const OUT: RegistersSet = RegistersSet {
    ins: false,
    outs: true,
    ains: false,
    aouts: false,
};

const AUDIO_OUT: RegistersSet = RegistersSet {
    ins: false,
    outs: false,
    ains: false,
    aouts: true,
};

const ALL: RegistersSet = RegistersSet {
    ins: true,
    outs: true,
    ains: true,
    aouts: true,
};

const ROWS: &[Row] = &[
    // No datum, of one that was asked for; and data from number 4 on.
    (0x01, &[0x70, 0x20, 0x90], None, None, None),
    (0x41, &[0x71, 0x20, 0xFF, 0x90], None, None, None),
    // Datum 0 alone.
    (0x01, &[0x71, 0x20, 0x01, 0x92], Some(true), None, None),
    (0x04, &[0x71, 0x20, 0xFE, 0x8F], Some(false), None, None),
    // Datum 1 alone.
    (
        0x11,
        &[0x71, 0x20, 0x01, 0x92],
        None,
        Some(PLAY_OR_JOGGED),
        None,
    ),
    // Datum 2 alone.
    (
        0x21,
        &[0x71, 0x20, 0x00, 0x91],
        None,
        Some(NOT_JOGGED),
        None,
    ),
    (
        0x21,
        &[0x71, 0x20, 0x20, 0xB1],
        None,
        Some(&[Mode::FastForward, Mode::Rewind, Mode::Shuttle]),
        None,
    ),
    // Both, of one mode, of two and of none.
    (
        0x12,
        &[0x72, 0x20, 0x20, 0x00, 0xB2],
        None,
        Some(&[Mode::Stop]),
        None,
    ),
    (
        0x12,
        &[0x72, 0x20, 0x03, 0x00, 0x95],
        None,
        Some(&[Mode::Rec]),
        None,
    ),
    (
        0x12,
        &[0x72, 0x20, 0x00, 0x01, 0x93],
        None,
        Some(&[Mode::Cued, Mode::Eject]),
        None,
    ),
    (0x12, &[0x72, 0x20, 0xFF, 0xFF, 0x90], None, Some(&[]), None),
    // Datum 3 alone.
    (0x31, &[0x71, 0x20, 0x05, 0x96], None, None, Some(INS)),
    (0x31, &[0x71, 0x20, 0xF2, 0x83], None, None, Some(OUT)),
    (0x31, &[0x71, 0x20, 0x08, 0x99], None, None, Some(AUDIO_OUT)),
    // A request that begins at datum 2.
    (
        0x22,
        &[0x72, 0x20, 0x00, 0x0F, 0xA1],
        None,
        Some(NOT_JOGGED),
        Some(ALL),
    ),
    // Every datum, and one that is free.
    (
        0x05,
        &[0x75, 0x20, 0x01, 0x20, 0x00, 0xF2, 0xFF, 0xA7],
        Some(true),
        Some(&[Mode::Stop]),
        Some(OUT),
    ),
    // More data than were asked for.
    (
        0x01,
        &[0x72, 0x20, 0x20, 0x00, 0xB2],
        Some(false),
        Some(NO_MOTION_BIT),
        None,
    ),
];

/// The set of these modes.
fn set_of(modes: &[Mode]) -> ModeSet {
    let mut set = ModeSet::NONE;
    for mode in modes {
        set = set.or(ModeSet::just(*mode));
    }
    set
}

#[test]
fn reports(rt: HostRuntime) -> Result<(), Fail> {
    for (asked, bytes, local, shown, registers) in ROWS {
        let reply = Block::from_bytes(bytes).expect(&rt, "a block");
        let wanted = Status {
            local: *local,
            shown: shown.map(set_of),
            registers: *registers,
        };
        same(&rt, Status::of(*asked, &reply), wanted, (asked, bytes));
    }
    Ok(())
}

/// A NAK whose byte would say LOCAL tells nothing.
fn take_nak(rt: &impl Abort, alloc: Global) -> Result<(), AllocError> {
    let mut tracker: Tracker<SpanSet> = Tracker::new(alloc, Hands::None)?;
    let result = take_leaving(
        rt,
        &mut tracker,
        (&[0x61, 0x20, 0x01, 0x82], NAK),
        true,
        "a NAK",
    );
    let local = known(rt, &tracker).local;
    drop(tracker);
    same(rt, local, Known::Unknown, "a NAK");
    result
}

#[test]
fn nak(rt: HostRuntime) -> Result<(), Fail> {
    take_nak(&rt, rt.alloc())?;
    Ok(())
}
