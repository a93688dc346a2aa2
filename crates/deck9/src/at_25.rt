//! The calls at 25 frames a second, each beside one that takes a rate.
ghost use Rattle.std.specs.Prelude.{◌≡◌, ◌↔◌, IsTrue, None};
ghost use Rattle.deck9.specs.Run.{IsRun};

use crate::profile::Profile;
use crate::run::is_run_of;
use crate::state::{Hands, State};
use block9::Exchange;
use tc25::Rate;

impl Profile {
    /// [`Profile::at`] at 25 frames a second.
    pub fn of(hands: Hands) -> Profile
        ensures { result ≡ record { rate = Rate.Fps25; hands = hands; deck = None } }
    {
        Profile::at(Rate::Fps25, hands)
    }
}

/// [`is_run_of`] at 25 frames a second.
pub fn is_run(exchanges: &[Exchange], states: &[State], hands: Hands) -> bool
    ensures { IsTrue result ↔ IsRun (record { rate = Rate.Fps25; hands = hands; deck = None }) exchanges.now states.now }
{
    is_run_of(&Profile::of(hands), exchanges, states)
}
