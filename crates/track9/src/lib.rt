//! The set of all states that a deck could be in.
//!
//! What one deck does is said in the crate `deck9`. A `Tracker` takes the exchanges of a capture in turn. It keeps, never
//! listed, exactly the states in which some run of the deck that gives these replies could have left it.
#![tactic(auto)]

mod acting;
mod at_25;
mod deed;
mod entries;
mod following;
mod halves;
mod kept;
pub mod laws;
mod pairs;
mod part;
mod pattern;
mod presets;
mod start;
mod states;
mod tracker;

pub use following::Lasting;
pub use kept::Kept;
pub use start::Start;
pub use tracker::Tracker;
