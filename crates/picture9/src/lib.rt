//! Pictures of a capture: the record that breaks a rule, with both wires over time around it, or the replies that contradict one
//! another, a row for each.
//!
//! A [`Choice`] is shown a judging, and keeps the break that is drawn; [`write_picture`] reads the records around it, and writes an SVG.
//! [`BreakPictures`] draws the first breaks of a capture for a page, of what somebody else judged and reads a second time.
//! All places are whole numbers of thousandths of a pixel, so that no float is used.
#![tactic(auto)]

mod around;
mod blocks;
mod break_pictures;
mod choice;
mod contradiction;
mod exchange_row;
mod layout;
mod look;
mod measure;
mod names;
mod picture;
mod reading;
mod sentence;
mod shapes;
mod spot;
mod text_rows;
mod ties;

pub use break_pictures::BreakPictures;
pub use choice::Choice;
pub use contradiction::put_known_before;
pub use exchange_row::{answered_of, asked_of, says_of};
pub use names::command_name;
pub use picture::{Wanted, write_picture};
