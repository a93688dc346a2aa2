//! What a view is handed of a capture: one event after another, and the end. Nothing here judges: what draws or writes needs this crate,
//! and none of those that judge.
#![tactic(auto)]

mod drawn;
mod moves;
mod seen;

pub use drawn::{Drawn, WhyNothing};
pub use moves::MoveSearch;
pub use seen::{Ending, ExplainedView, SeenBreak, SeenExchange, View, ViewOf};
