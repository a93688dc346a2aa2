//! The calls at 25 frames a second, each beside one that takes a profile.
ghost use Rattle.std.specs.Prelude.{◌≡◌, ◌↔◌, IfOk, None};
ghost use Rattle.deck9.specs.State.{IsFirst};
ghost use Rattle.deck9.specs.declared.state.Register.{Register as ARegister};
ghost use Rattle.deck9.specs.declared.state.State.{State as AState};
ghost use Rattle.track9.specs.Presets.{count_of};
ghost use Rattle.track9.specs.Tracker.{Possible};

use crate::acting::Acting;
use crate::tracker::Tracker;
use deck9::Hands;
use sets25::TimeSet;
use std::alloc::{AllocError, Global};
use tc25::Rate;

impl<'a, S: TimeSet> Tracker<'a, S> {
    /// [`Tracker::of`] at 25 frames a second.
    pub fn new(alloc: Global, hands: Hands) -> Result<Self, AllocError>
        ensures states { IfOk result (λ t. (s : AState) → Possible t.states s ↔ IsFirst (record { rate = Rate.Fps25; hands = hands; deck = None }) s) }
        ensures profile { IfOk result (λ t. t.profile ≡ record { rate = Rate.Fps25; hands = hands; deck = None }) }
        ensures presets { IfOk result (λ t. (r : ARegister) → count_of r t.presets ≡ 0) }
    {
        Tracker::begin(alloc, Rate::Fps25, hands, Acting::none())
    }
}
