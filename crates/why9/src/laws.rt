//! The law of replies that contradict one another, the contract of a function that does nothing.
ghost use Rattle.std.specs.Prelude.{◌≡◌, ℕ, List};
ghost use Rattle.block9.specs.declared.exchange.Exchange.{Exchange};
ghost use Rattle.why9.specs.Contradiction.{IsContradiction};

use deck9::Profile;

/// Only one choice of replies that contradict one another is nearest to the break.
pub fn one_contradiction()
    ensures { (p : Profile) (es : List Exchange) (places others : List ℕ)
        → IsContradiction p es places → IsContradiction p es others → places ≡ others }
{}
