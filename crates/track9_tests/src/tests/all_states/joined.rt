//! What is known where several states are possible, state by state.

use crate::tests::plain_deck::{PlainState, time_of};
use deck9::{Knowledge, Known, KnownEntry, Register};
use tc25::TimeCode;

/// What is known of a field, where a further state has this value.
fn joined<T: PartialEq + Copy>(known: Known<T>, value: T) -> Known<T> {
    match known {
        Known::Is(same) if same == value => Known::Is(same),
        _ => Known::Unknown,
    }
}

/// What is known of a register, where a further state holds this.
fn joined_entry(known: &KnownEntry, held: Option<TimeCode>) -> KnownEntry {
    match (known, held) {
        (KnownEntry::Clear, None) => KnownEntry::Clear,
        (KnownEntry::At(time), Some(other)) if *time == other => KnownEntry::At(other),
        (KnownEntry::At(_) | KnownEntry::SetSomewhere, Some(_)) => KnownEntry::SetSomewhere,
        _ => KnownEntry::Unknown,
    }
}

/// What is known of a register of a deck in this state.
fn known_entry(state: &PlainState, register: Register) -> KnownEntry {
    match time_of(state, register) {
        None => KnownEntry::Clear,
        Some(time) => KnownEntry::At(time),
    }
}

/// What is known of a deck in this state.
pub(super) fn known_state(state: &PlainState) -> Knowledge {
    Knowledge {
        goal: Known::Is(state.goal),
        shown: Known::Is(state.shown),
        ins: known_entry(state, Register::RegIn),
        outs: known_entry(state, Register::RegOut),
        ains: known_entry(state, Register::RegAudioIn),
        aouts: known_entry(state, Register::RegAudioOut),
        local: Known::Is(state.local),
        panel: Known::Is(state.panel),
    }
}

/// What is known where a further state is possible.
pub(super) fn joined_state(before: &Knowledge, state: &PlainState) -> Knowledge {
    Knowledge {
        goal: joined(before.goal, state.goal),
        shown: joined(before.shown, state.shown),
        ins: joined_entry(&before.ins, time_of(state, Register::RegIn)),
        outs: joined_entry(&before.outs, time_of(state, Register::RegOut)),
        ains: joined_entry(&before.ains, time_of(state, Register::RegAudioIn)),
        aouts: joined_entry(&before.aouts, time_of(state, Register::RegAudioOut)),
        local: joined(before.local, state.local),
        panel: joined(before.panel, state.panel),
    }
}
