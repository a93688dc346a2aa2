//! A run in which a hand moves.

use deck9::{HandMove, State};

/// A run, and the moves of a hand in it.
#[derive(Drop)]
pub struct TouchedRun {
    /// The states after each of the exchanges.
    pub states: Vec<State>,
    /// The moves, in their order.
    pub moves: Vec<HandMove>,
}
