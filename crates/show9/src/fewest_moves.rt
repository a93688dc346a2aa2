//! The search for the moves of a hand, over runs of the deck.

use block9::Exchange;
use deck9::{HandMove, Profile};
use seen9::MoveSearch;
use std::alloc::{AllocError, Global};

/// Finds moves by a run with the fewest of them.
#[derive(Clone, Copy)]
pub struct FewestMoves;

impl MoveSearch for FewestMoves {
    fn fewest_moves(
        &self,
        alloc: Global,
        profile: &Profile,
        exchanges: &[Exchange],
    ) -> Result<Option<Vec<HandMove>>, AllocError> {
        let run = run9::fewest_moves(alloc, profile, exchanges)?;
        Ok(run.map(|run| run.moves))
    }
}
