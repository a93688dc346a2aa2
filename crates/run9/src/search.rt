//! What a search for a run is given. The steps of the search are its methods, in `stretches`, `before_hand` and `way_back`.

ghost use Rattle.std.specs.Prelude.{◌≡◌};

use crate::pace::{MostSpans, Pace};
use deck9::Profile;
use std::alloc::Global;
use track9::Lasting;

/// What a search for a run is given: where memory comes from, what the deck is taken for, how long what it does by itself may go on,
/// and how close marks are put.
#[derive(Clone, Copy)]
pub(crate) struct Search<'a> {
    pub(crate) alloc: Global,
    pub(crate) profile: &'a Profile,
    pub(crate) lasting: Lasting,
    pub(crate) pace: Pace,
}

impl<'a> Search<'a> {
    /// A search through so many exchanges, where a tracker has at most about so many spans.
    pub(crate) fn of(
        alloc: Global,
        profile: &'a Profile,
        lasting: Lasting,
        exchanges: usize,
        spans: MostSpans,
    ) -> Search<'a>
        ensures profile { result.profile ≡ profile.entry }
        ensures lasting { result.lasting ≡ lasting }
    {
        Search {
            alloc,
            profile,
            lasting,
            pace: Pace::of(exchanges, spans),
        }
    }
}
