//! Changes against what a reply told.

use super::Place;
use super::entries::{entry_of, turned_entry, with_entry};
use super::fields::{with_other_local, with_shown};
use block9::{Command, Exchange};
use deck9::{Entry, Mode, Register, State};
use tc25::TimeCode;

/// The status datum with this number, if a reply told it.
fn datum(exchange: &Exchange, number: u8) -> Option<u8> {
    let Command::StatusSense { asked } = &exchange.command else {
        return None;
    };
    if exchange.reply.group != 7 {
        return None;
    }
    let place = number.checked_sub(*asked / 16)?;
    let data = exchange.reply.bytes.as_slice();
    data.get(usize::from(place)).copied()
}

/// After status datum 0, whose bit tells it: local is the other.
pub(super) fn relocated(place: &Place) -> Option<State> {
    datum(place.exchange, 0)?;
    Some(with_other_local(place.state))
}

/// After status datum 1: STOP is shown where a bit of motion is set, and PLAY where none is.
pub(super) fn shown_against_datum_1(place: &Place) -> Option<State> {
    let has_motion = datum(place.exchange, 1)? & 0x1F != 0;
    let shown = if has_motion { Mode::Stop } else { Mode::Play };
    Some(with_shown(place.state, shown))
}

/// After status datum 2: STOP is shown where a bit of SHUTTLE, JOG or VAR is set, and SHUTTLE where none is.
pub(super) fn shown_against_datum_2(place: &Place) -> Option<State> {
    let has_motion = datum(place.exchange, 2)? & 0x38 != 0;
    let shown = if has_motion {
        Mode::Stop
    } else {
        Mode::Shuttle
    };
    Some(with_shown(place.state, shown))
}

/// After status datum 3, which tells which registers are Set: this one is Set where it told Clear, and Clear where it
/// told Set.
pub(super) fn recounted(place: &Place, register: Register) -> Option<State> {
    datum(place.exchange, 3)?;
    let entry = turned_entry(entry_of(place.state, register));
    Some(with_entry(place.state, register, &entry))
}

/// Whether a command asks for this register's time.
fn asks_for(command: &Command, register: Register) -> bool {
    match register {
        Register::RegIn => *command == Command::InDataSense,
        Register::RegOut => *command == Command::OutDataSense,
        Register::RegAudioIn => *command == Command::AudioInDataSense,
        Register::RegAudioOut => *command == Command::AudioOutDataSense,
    }
}

/// After a reply to a register's sense: the register holds another time than it told.
pub(super) fn retold(place: &Place, register: Register) -> Option<State> {
    let exchange = place.exchange;
    if exchange.reply.group != 7 || !asks_for(&exchange.command, register) {
        return None;
    }
    let midnight = TimeCode::default();
    let other = if exchange.reply.time() == Some(midnight) {
        Entry::At(midnight.next())
    } else {
        Entry::At(midnight)
    };
    Some(with_entry(place.state, register, &other))
}
