//! Reads a deck sheet: a TOML text that says what a deck does that the profile leaves open.
//!
//! ```toml
//! # an edit deck
//! [forgets]                  # at a command that it does not refuse
//! "20 61" = "nothing"
//! "20 62" = "motion"
//! [goals]                    # modes to which it may lead, or the deck goes on as it was
//! "20 65" = ["REC"]
//! [loses]                    # that it may clear by itself after a command, until another ends that
//! "20 0F" = "points"
//! [names]                    # of commands that are not listed
//! "20 61" = "FULL EE ON"
//! "20 65" = "EDIT ON"
//! [passes]                   # modes that it may also show on the way to a goal
//! REC = ["SHUTTLE", "JOG"]
//! [replies]                  # that it may also give to a command
//! "61 0A" = ["74 08", "78 08"]
//! "61 0C 10" = ["74 05"]       # to CURRENT TIME SENSE with this selector
//! [runs]                     # modes that it may show by itself after a command, until another ends that
//! "20 42" = ["PLAY", "REC"]
//! ```
//!
//! `specs/Sheet.antt` says what such a text means, over the toml library's own definition of a document. [`read_sheet`] gives
//! exactly that, or the first thing that is wrong, which a [`Refusal`] tells in one line.
#![tactic(auto)]

mod acts;
mod clash;
mod effects;
mod entries;
mod forgets;
mod goals;
mod head;
pub mod laws;
mod loses;
mod modes;
mod names;
mod passes;
mod quoted;
mod refusal;
mod replies;
mod runs;
mod said;
mod sheet;
mod sheets;
mod text;
mod union;

pub use clash::Clash;
pub use refusal::{EntryFault, ItemFault, Refusal, SheetError, TableName};
pub use sheets::{SheetsError, read_sheets};
