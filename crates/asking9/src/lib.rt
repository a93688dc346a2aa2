//! One capture, asked again: with each frame rate, without hands and with, and without the sheet and with it. And what explains a break
//! with the least that is assumed, so that it is said what to ask next.
#![tactic(auto)]

mod advice;
mod answer;
mod asking;
mod assumed;
mod came;
mod every_terms;
mod first_asked;
mod habit;
mod invalid_time;
mod judged_again;
mod lists;
mod next;
mod offer;
mod piece;
mod question;
mod search;
mod seen_rate;
mod terms;
mod time_told;
mod tried;

pub use advice::put_advice;
pub use answer::Answer;
pub use asking::answers_to;
pub use first_asked::FirstAsked;
pub use next::{ask_next, message_of};
pub use question::{Asked, Question, Unasked};
pub use seen_rate::signs_of;
pub use terms::Terms;
pub use tried::put_best;
