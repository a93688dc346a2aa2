//! What a capture says of itself before anybody is blamed: its facts, and signs of what is wrong with the tap, the rate or the wires.
//!
//! [`write_info`] reads a capture and writes both. [`Signs`] takes one record after another and lists the signs, for what judges the
//! same capture besides. What a wire carries is cut into blocks by the wire alone, so that nothing here depends on a verdict.
#![tactic(auto)]

mod clocks;
mod cutter;
mod damage;
mod delays;
mod echo;
mod facts;
mod fits;
mod holes;
mod info;
mod label;
mod lost;
mod place;
mod rates;
mod running;
mod shorts;
mod sign;
mod sign_text;
mod signs;
mod silence;
mod step;
mod text;
mod told;
mod turns;
mod twice;
mod wire_counts;

pub use info::write_info;
pub use place::Place;
pub use rates::{Fitting, RateSeen};
pub use sign::{EchoSeen, Seeming, ShortSeen, Sign};
pub use signs::{MOST_SIGNS, Signs};
