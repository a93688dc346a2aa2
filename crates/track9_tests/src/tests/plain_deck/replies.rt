//! What replies show of a deck.

use super::commands::sensed_by;
use super::{PlainState, time_of};
use block9::{Block, Command};
use deck9::{Mode, Register};

/// A mode, the bits of status datum 1 that are set and those that are clear, and the same of datum 2.
type Line = (Mode, [u8; 4]);

const LINES: [Line; 11] = [
    (Mode::Stop, [0x20, 0x1F, 0x00, 0x38]),
    (Mode::Play, [0x01, 0x3E, 0x00, 0x38]),
    (Mode::Rec, [0x02, 0x3C, 0x00, 0x38]),
    (Mode::FastForward, [0x04, 0x3B, 0x00, 0x18]),
    (Mode::Rewind, [0x08, 0x37, 0x00, 0x18]),
    (Mode::Shuttle, [0x00, 0x12, 0x20, 0x18]),
    (Mode::Jog, [0x00, 0x12, 0x10, 0x28]),
    (Mode::Var, [0x00, 0x12, 0x08, 0x30]),
    (Mode::Cued, [0x00, 0x1F, 0x01, 0x38]),
    (Mode::Eject, [0x10, 0x0F, 0x00, 0x38]),
    (Mode::Eject, [0x00, 0x3F, 0x00, 0x38]),
];

/// The first line for a mode, or the second one where it has two.
fn line_of(mode: Mode, second: bool) -> [u8; 4] {
    let mut line = [0; 4];
    for (other, bits) in LINES {
        if other == mode && (second || line == [0; 4]) {
            line = bits;
        }
    }
    line
}

/// Datum 3: a bit for each register that is Set.
fn set_bits(state: &PlainState) -> u8 {
    let mut bits = 0;
    for held in state.times.iter().rev() {
        bits = (bits << 1) | u8::from(held.is_some());
    }
    bits
}

/// A status datum of a deck, whose free bits are these. Of the lines for EJECT the first one, or the second.
pub(in crate::tests) fn datum_of(state: &PlainState, number: u8, free: u8, second: bool) -> u8 {
    let [set1, clear1, set2, clear2] = line_of(state.shown, second);
    match number {
        0 => (free & 0xFE) | u8::from(state.local),
        1 => (free & !clear1) | set1,
        2 => (free & !clear2) | set2,
        3 => (free & 0xF0) | set_bits(state),
        _ => free,
    }
}

/// Whether a datum has these bits set and those clear, if there is one.
fn has_bits(datum: Option<u8>, set: u8, clear: u8) -> bool {
    match datum {
        Some(byte) => byte & set == set && byte & clear == 0,
        None => true,
    }
}

/// Whether both data fit one line for the mode.
fn fit(mode: Mode, datum1: Option<u8>, datum2: Option<u8>) -> bool {
    for (other, [set1, clear1, set2, clear2]) in LINES {
        if other == mode && has_bits(datum1, set1, clear1) && has_bits(datum2, set2, clear2) {
            return true;
        }
    }
    false
}

/// Whether a register may give these data: a Clear one gives any.
fn tells(state: &PlainState, register: Register, reply: &Block) -> bool {
    match time_of(state, register) {
        Some(time) => reply.time() == Some(time),
        None => true,
    }
}

/// Whether status data agree with a state: the number of the first one is in the high four bits of `asked`.
fn status(state: &PlainState, asked: u8, reply: &Block) -> bool {
    let mut data = [None; 4];
    for (place, byte) in reply.bytes.as_slice().iter().enumerate() {
        if let Some(datum) = data.get_mut(place.wrapping_add(usize::from(asked >> 4))) {
            *datum = Some(*byte);
        }
    }
    let [datum0, datum1, datum2, datum3] = data;
    datum0.unwrap_or(u8::from(state.local)) & 1 == u8::from(state.local)
        && fit(state.shown, datum1, datum2)
        && datum3.unwrap_or(set_bits(state)) & 0x0F == set_bits(state)
}

/// Whether a deck in this state may give this reply, which is no NAK.
pub(in crate::tests) fn shows(state: &PlainState, command: &Command, reply: &Block) -> bool {
    if let Some((_, register)) = sensed_by(command) {
        return tells(state, register, reply);
    }
    match command {
        Command::StatusSense { asked } => status(state, *asked, reply),
        _ => true,
    }
}
