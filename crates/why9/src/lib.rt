//! Why no run of the deck gives the replies of a capture.
//!
//! Where an exchange is the first after which no state of the deck remains, its reply alone seldom says why.
//! [`contradicting_for`] finds which replies contradict one another: no deck can have given them together, whatever it
//! answered to everything else. Each of them is needed, and as near to the break as it can be: the module [`laws`] says that
//! this leaves no choice. [`could_show_for`] tells what the deck could show when it gave the last of them.
#![tactic(auto)]

mod could_show;
pub mod laws;
mod question;
mod search;

pub use could_show::could_show_for;
pub use search::contradicting_for;
