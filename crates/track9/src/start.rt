//! What a deck may start from, where some of it is known.

ghost use Rattle.std.specs.Prelude.{◌≡◌};
ghost use Rattle.track9.specs.Working.Starts.{modes_known};

use deck9::{Entry, Mode, ModeSet};

/// What is known of the state that a deck starts from: a field that is `None` may be anything. By default
/// nothing is known.
#[derive(Clone, Copy, Default, PartialEq, Eq)]
pub struct Start {
    /// The commanded mode.
    pub goal: Option<Mode>,
    /// The mode that the status shows.
    pub shown: Option<Mode>,
    /// The register IN.
    pub ins: Option<Entry>,
    /// The register OUT.
    pub outs: Option<Entry>,
    /// The register audio IN.
    pub ains: Option<Entry>,
    /// The register audio OUT.
    pub aouts: Option<Entry>,
    /// Whether the deck is in LOCAL.
    pub local: Option<bool>,
}

/// The mode that is known, or every one where none is.
pub(crate) fn known_modes(known: Option<Mode>) -> ModeSet
    ensures { result ≡ modes_known known }
{
    match known {
        Some(mode) => ModeSet::just(mode),
        None => ModeSet::ALL,
    }
}
