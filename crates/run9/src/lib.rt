//! A run of the deck that gives the replies of a capture.
//!
//! Where a state of the deck remains after the last exchange, some run leads to it. [`states_of_run`] finds one: the states
//! after each of the exchanges, going back from the end. Where hands are allowed on the panel it is one in which a hand moves
//! as seldom as it can, and changes no more than it has to. `is_run_of` of the crate `deck9` says whether such states are a run.
#![tactic(auto)]

mod before_hand;
mod fewest_hands;
mod pace;
mod panel;
mod search;
mod stretches;
mod touched_run;
mod way_back;

pub use fewest_hands::{fewest_moves, states_of_run};
pub use pace::MostSpans;
pub use touched_run::TouchedRun;
