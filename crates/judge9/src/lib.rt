//! The judging of a capture: a verdict on its records, and the report of it.
//!
//! A [`Judging`] reads the records from a text and comes to one event after another: an exchange, a late reply, a record that breaks
//! a rule, the end. All else is a loop over these events: [`judge_for`] writes the report up to the first break, with a line for each
//! exchange where an explanation is asked for, or with why the verdict is a no; [`judge_parts_for`] goes on after each break; and
//! [`judge_with_run_for`] hands a run of the deck out with a yes, and `is_run_of` of the crate `deck9` says whether it is one. The
//! module `laws` states what holds of the definitions that their contracts cite.
#![tactic(auto)]

mod at_25;
mod beginning;
mod counts;
mod event;
mod feed;
mod follower;
mod judging;
mod kept;
pub mod laws;
mod report;
mod run_judging;
mod stage;
mod telling;
mod why;

pub use at_25::{judge, judge_with_run};
pub use counts::Counts;
pub use deck9::{is_run, is_run_of};
pub use event::{Break, Event};
pub use judging::Judging;
pub use kept::Kept;
pub use report::{judge_for, judge_parts_for};
pub use report9::{
    Beginning, Detail, Extent, JudgeError, RunVerdict, Scope, Totals, Verdict, View,
};
pub use run_judging::judge_with_run_for;
