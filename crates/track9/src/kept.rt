//! What a hand leaves as it is.

/// Which fields of a deck's state a move of a hand keeps: none by default.
#[derive(Clone, Copy, Default, PartialEq, Eq)]
pub struct Kept {
    /// The commanded mode.
    pub goal: bool,
    /// The mode that the status shows.
    pub shown: bool,
    /// The register IN.
    pub ins: bool,
    /// The register OUT.
    pub outs: bool,
    /// The register audio IN.
    pub ains: bool,
    /// The register audio OUT.
    pub aouts: bool,
    /// Whether the deck is in LOCAL.
    pub local: bool,
}
