//! The page of a capture: one HTML file of a whole session, without a script, that loads nothing.
//!
//! A [`Page`] is shown a judging over all parts, and each section takes what it needs of each event. Then the records are read a
//! second time, for the pictures of the breaks and for what the capture says of itself. All places are whole numbers, so that no float
//! is used. What is foreign, names of files and of sheets, is put escaped.
#![tactic(auto)]

mod again;
mod axis;
mod bins;
mod break_lanes;
mod breaks;
mod breaks_over_time;
mod charts;
mod cksum;
mod command;
mod delay_table;
mod doubts;
mod field_lane;
mod field_over_time;
mod folds;
mod following;
mod footer;
mod happened;
mod head;
mod html;
mod known;
mod look;
mod mode_lane;
mod mode_over_time;
mod name;
mod page;
mod runs;
mod session;
mod shown;
mod span;
mod style;
mod table;
mod touches;
mod traffic;

pub use page::{Advice, Page, PageOf};
