//! Views of a capture: each is made of what its judging comes to, in one pass over the records, and none reads a report.
//!
//! A view is a value: who judges the capture hands it each event (`View` of `seen9`), and it writes what it makes of them.
#![tactic(auto)]

mod break_run;
mod by_itself;
mod called;
mod changes;
mod clock;
mod delay_counts;
mod delays;
mod digest;
mod field;
mod longest;
mod motion;
mod motion_text;
mod not_obeyed;
mod objects;
mod put_ending;
mod reason_words;
mod reply;
mod strength;
mod tally;
mod touches;
mod track;
mod transport;
mod worth;

pub use break_run::BreakRun;
pub use called::Called;
pub use changes::{Change, Changes};
pub use clock::{ClockFault, write_clock};
pub use delay_counts::DelayCounts;
pub use delays::Delays;
pub use digest::Digest;
pub use field::{FIELDS, Field, Value};
pub use longest::{Longest, WorthLine};
pub use motion::{Motion, MotionLine, Outcome};
pub use motion_text::MotionText;
pub use not_obeyed::NotObeyed;
pub use objects::{Json, write_json_run};
pub use reason_words::ReasonWords;
pub use reply::Reply;
pub use strength::{Strength, put_lapses};
pub use tally::Tally;
pub use touches::{Moment, Touch, Touched, Touches};
pub use track::Place;
