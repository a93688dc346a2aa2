//! What is known of the deck: that on which all possible states agree.
use crate::mode::Mode;
use tc25::TimeCode;

/// What is known of a field.
#[derive(Clone, Copy, PartialEq, Eq)]
pub enum Known<T> {
    /// All possible states have this value.
    Is(T),
    /// Two possible states differ.
    Unknown,
}

/// What is known of a register.
#[derive(Clone, Copy, PartialEq, Eq)]
pub enum KnownEntry {
    /// It is Clear in all possible states.
    Clear,
    /// It is Set at this time in all possible states.
    At(TimeCode),
    /// It is Set in all possible states, and two of them differ in the time.
    SetSomewhere,
    /// It is Clear in one possible state and Set in another.
    Unknown,
}

/// What is known of the deck.
#[derive(Clone, Copy, PartialEq, Eq)]
pub struct Knowledge {
    /// The commanded mode.
    pub goal: Known<Mode>,
    /// The mode that the status shows.
    pub shown: Known<Mode>,
    /// The register IN.
    pub ins: KnownEntry,
    /// The register OUT.
    pub outs: KnownEntry,
    /// The register audio IN.
    pub ains: KnownEntry,
    /// The register audio OUT.
    pub aouts: KnownEntry,
    /// Whether the deck is in LOCAL.
    pub local: Known<bool>,
    /// Whether the panel is on.
    pub panel: Known<bool>,
}
