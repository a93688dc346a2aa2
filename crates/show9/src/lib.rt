//! Judges a capture for a view: the one loop over what the judging comes to, and the search for the moves of a hand.
#![tactic(auto)]

mod fewest_moves;
mod follow;

pub use fewest_moves::FewestMoves;
pub use follow::{of_view, show, show_explained};
