//! A move of a hand on the deck's panel.

use crate::state::State;

/// A move of a hand on the panel, between two exchanges.
#[derive(Clone, Copy, PartialEq, Eq)]
pub struct HandMove {
    /// How many exchanges come before it.
    pub place: usize,
    /// The state that the hand finds, with the panel on.
    pub before: State,
    /// The state that it leaves, with the panel on. The hand has changed the fields in which the two differ.
    pub behind: State,
}
