//! The law of what is known, the contract of a function that does nothing.
ghost use Rattle.std.specs.Prelude.{◌≡◌, List};
ghost use Rattle.block9.specs.declared.exchange.Exchange.{Exchange};
ghost use Rattle.deck9.specs.Knowledge.{IsKnowledge};
ghost use Rattle.deck9.specs.Run.{Ends, HasRun};

use deck9::{Knowledge, Profile};

/// Where there is a run, at most one thing is known of the states that runs end in.
pub fn one_knowledge()
    ensures { (p : Profile) (es : List Exchange) (k l : Knowledge)
        → HasRun p es → IsKnowledge (Ends p es) k → IsKnowledge (Ends p es) l → k ≡ l }
{}
