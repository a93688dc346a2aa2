//! The search for the moves of a hand on the deck's panel.

use block9::Exchange;
use deck9::{HandMove, Profile};
use std::alloc::{AllocError, Global};

/// What finds where a hand moved. Whoever tells of such moves is handed one, so that what is drawn stands beside the search and not above
/// it.
pub trait MoveSearch {
    /// The moves of a hand on the panel of a deck of this profile that gave these replies, in a run with the fewest of them; none where no
    /// run was found. An error comes where memory is refused.
    fn fewest_moves(
        &self,
        alloc: Global,
        profile: &Profile,
        exchanges: &[Exchange],
    ) -> Result<Option<Vec<HandMove>>, AllocError>;
}
