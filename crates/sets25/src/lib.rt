//! Sets of times of day, at each frame rate.
#![tactic(auto)]

mod direction;
mod held_spans;
mod laws;
mod list_set;
mod shared_set;
mod span;
mod span_list;
mod span_set;
mod spans;
mod time_set;

pub use laws::{memberships, span_counts};
pub use list_set::ListSet;
pub use shared_set::SharedSet;
pub use span_set::SpanSet;
pub use time_set::TimeSet;
