//! Times of day in frames, at each frame rate.
#![tactic(auto)]

mod at_25;
mod laws;
mod rate;
mod time_code;

pub use laws::{labels, neighbours, readings};
pub use rate::Rate;
pub use time_code::TimeCode;
