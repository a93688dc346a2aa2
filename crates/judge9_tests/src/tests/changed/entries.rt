//! What registers hold, and other entries.

use deck9::{Entry, Register, State};
use tc25::TimeCode;

/// All registers.
pub(super) const REGISTERS: [Register; 4] = [
    Register::RegIn,
    Register::RegOut,
    Register::RegAudioIn,
    Register::RegAudioOut,
];

/// What a register holds.
pub(super) fn entry_of<'a>(state: &'a State, register: Register) -> &'a Entry {
    match register {
        Register::RegIn => &state.ins,
        Register::RegOut => &state.outs,
        Register::RegAudioIn => &state.ains,
        Register::RegAudioOut => &state.aouts,
    }
}

/// The state with this entry in a register.
pub(super) fn with_entry(state: &State, register: Register, entry: &Entry) -> State {
    let mut changed = *state;
    match register {
        Register::RegIn => changed.ins = *entry,
        Register::RegOut => changed.outs = *entry,
        Register::RegAudioIn => changed.ains = *entry,
        Register::RegAudioOut => changed.aouts = *entry,
    }
    changed
}

/// Whether a register holds a time.
pub(super) fn is_set(entry: &Entry) -> bool {
    *entry != Entry::Clear
}

/// The time one frame on, and midnight where there is none.
pub(super) fn one_on(entry: &Entry) -> Entry {
    match entry {
        Entry::Clear => Entry::At(TimeCode::default()),
        Entry::At(time) => Entry::At(time.next()),
    }
}

/// Clear where the register is Set, and Set where it is Clear.
pub(super) fn turned_entry(entry: &Entry) -> Entry {
    match entry {
        Entry::Clear => Entry::At(TimeCode::default()),
        Entry::At(_) => Entry::Clear,
    }
}

/// A time that is neither that of the entry, nor one next to it, nor that of a preset.
pub(super) fn far_from(entry: &Entry, preset: Option<TimeCode>) -> Entry {
    let time = match entry {
        Entry::Clear => TimeCode::default(),
        Entry::At(time) => time.next().next(),
    };
    if preset == Some(time) {
        return Entry::At(time.next());
    }
    Entry::At(time)
}
