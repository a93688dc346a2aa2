//! The states of a deck.

use crate::mode::Mode;
use tc25::{Rate, TimeCode};

/// A register of the deck.
#[derive(Clone, Copy, PartialEq, Eq)]
pub enum Register {
    /// The edit's first frame.
    RegIn,
    /// The edit's last frame.
    RegOut,
    /// The first frame of the sound's edit.
    RegAudioIn,
    /// The last frame of the sound's edit.
    RegAudioOut,
}

/// What a register holds.
#[derive(Clone, Copy, PartialEq, Eq)]
pub enum Entry {
    /// Nothing.
    Clear,
    /// This time: such a register is called Set.
    At(TimeCode),
}

/// Whether hands may touch the deck's panel during a capture.
#[derive(Clone, Copy, PartialEq, Eq)]
pub enum Hands {
    /// Nobody touches it.
    None,
    /// While the panel is on, somebody may.
    Allowed,
}

/// A state of the deck.
#[derive(Clone, Copy, PartialEq, Eq)]
pub struct State {
    /// The commanded mode.
    pub goal: Mode,
    /// The mode that the deck shows in its status.
    pub shown: Mode,
    /// The register IN.
    pub ins: Entry,
    /// The register OUT.
    pub outs: Entry,
    /// The register audio IN.
    pub ains: Entry,
    /// The register audio OUT.
    pub aouts: Entry,
    /// Whether the deck is in LOCAL, where it may ignore transport and preset commands.
    pub local: bool,
    /// Whether the panel is on, so that a hand may change anything. Never, where hands are not allowed.
    pub panel: bool,
}

impl Entry {
    ghost use Rattle.std.specs.Prelude.{◌≡◌, ◌↔◌, IsTrue};
    ghost use Rattle.deck9.specs.State.{IsEntry, is_set};
    ghost use Rattle.deck9.specs.Effect.{moved_entry};
    ghost use Rattle.tc25.specs.Day.{next_frame, prev_frame};

    /// Whether a register with this entry is Set.
    pub fn is_set(&self) -> bool
        ensures { result ≡ is_set self.now }
    {
        match self {
            Entry::Clear => false,
            Entry::At(_) => true,
        }
    }

    /// The entry one frame later, round the day; a Clear one stays.
    pub(crate) fn next(&self, rate: Rate) -> Entry
        ensures { result ≡ moved_entry (next_frame rate) self.now }
    {
        match self {
            Entry::Clear => Entry::Clear,
            Entry::At(time) => Entry::At(time.next_at(rate)),
        }
    }

    /// The entry one frame earlier, round the day; a Clear one stays.
    pub(crate) fn prev(&self, rate: Rate) -> Entry
        ensures { result ≡ moved_entry (prev_frame rate) self.now }
    {
        match self {
            Entry::Clear => Entry::Clear,
            Entry::At(time) => Entry::At(time.prev_at(rate)),
        }
    }

    /// Whether a register with this entry is Clear, or holds a time of the day at a rate.
    pub(crate) fn is_of(&self, rate: Rate) -> bool
        ensures { IsTrue result ↔ IsEntry rate self.now }
    {
        match self {
            Entry::Clear => true,
            Entry::At(time) => time.frames() < rate.frames_in_day(),
        }
    }
}

impl State {
    ghost use Rattle.std.specs.Prelude.{◌≡◌, ◌↔◌, IsTrue};
    ghost use Rattle.deck9.specs.State.{IsState, entry_of, with_entry};

    /// What a register holds.
    pub fn entry(&self, register: Register) -> &Entry
        ensures { result.now ≡ entry_of register self.entry.now }
    {
        match register {
            Register::RegIn => &self.ins,
            Register::RegOut => &self.outs,
            Register::RegAudioIn => &self.ains,
            Register::RegAudioOut => &self.aouts,
        }
    }

    /// The state with this in a register, and all else as it was.
    pub(crate) fn with_entry(&self, register: Register, entry: Entry) -> State
        ensures { result ≡ with_entry register entry self.now }
    {
        let mut changed = *self;
        match register {
            Register::RegIn => changed.ins = entry,
            Register::RegOut => changed.outs = entry,
            Register::RegAudioIn => changed.ains = entry,
            Register::RegAudioOut => changed.aouts = entry,
        }
        changed
    }

    /// The state with this commanded mode, and all else as it was.
    pub(crate) fn with_goal(&self, goal: Mode) -> State
        ensures { result ≡ record self.now { goal = goal } }
    {
        State { goal, ..*self }
    }

    /// The state that shows this mode, and all else as it was.
    pub(crate) fn with_shown(&self, shown: Mode) -> State
        ensures { result ≡ record self.now { shown = shown } }
    {
        State { shown, ..*self }
    }

    /// The state with the panel on or off, and all else as it was.
    pub(crate) fn with_panel(&self, panel: bool) -> State
        ensures { result ≡ record self.now { panel = panel } }
    {
        State { panel, ..*self }
    }

    /// Whether this is the other state.
    pub(crate) fn is(&self, other: &State) -> bool
        ensures { IsTrue result ↔ self.now ≡ other.now }
    {
        // field by field, since the derived == has no clause for the whole
        let has_same_edit = self.ins == other.ins && self.outs == other.outs;
        let has_same_sound = self.ains == other.ains && self.aouts == other.aouts;
        has_same_edit && has_same_sound && self.keeps_all_but_registers(other)
    }

    /// Whether the other state differs in registers alone.
    pub(crate) fn keeps_all_but_registers(&self, other: &State) -> bool
        ensures { IsTrue result ↔ ((other.now.goal ≡ self.now.goal) × (other.now.shown ≡ self.now.shown)
            × (other.now.local ≡ self.now.local) × (other.now.panel ≡ self.now.panel)) }
    {
        let keeps_modes = other.goal == self.goal && other.shown == self.shown;
        let keeps_switches = other.local == self.local && other.panel == self.panel;
        keeps_modes && keeps_switches
    }

    /// Whether the registers hold times of the day at a rate.
    pub fn is_of(&self, rate: Rate) -> bool
        ensures { IsTrue result ↔ IsState rate self.now }
    {
        let is_edit_of_day = self.ins.is_of(rate) && self.outs.is_of(rate);
        let is_sound_of_day = self.ains.is_of(rate) && self.aouts.is_of(rate);
        is_edit_of_day && is_sound_of_day
    }
}
