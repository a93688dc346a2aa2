//! The deck itself, one state at a time.
//!
//! A [`State`] is the commanded mode, the mode that the status shows, four registers, and whether the deck is in LOCAL and its
//! panel is on. It drifts between two exchanges; a command has an [`Effect`] on it, and a reply shows some of it ([`Sense`],
//! [`Status`]); and a run is a list of states that drifts and steps lead through. [`is_run`] says whether given states are
//! those of a run: a second opinion on the sets of states of the crate `track9`, which it does not use. The module
//! [`laws`] shows that the definitions of all this mean what was meant.
//!
//! What is known of a deck that could be in any of many states is told by a [`Knowledge`], and which modes it may show by a
//! [`ModeSet`].
//!
//! The modes, the effects, what a status shows and the drift are choices of these rules.
#![tactic(auto)]

mod at_25;
mod deck;
mod deck_ref;
mod drift;
mod effect;
mod forgets;
mod going;
mod hand_move;
mod knowledge;
pub mod laws;
mod local;
mod mode;
mod mode_set;
mod names;
mod profile;
mod run;
mod sense;
mod shows;
mod state;
mod status;
mod step;

pub use at_25::is_run;
pub use deck::{Deck, Forgotten};
pub use deck_ref::DeckRef;
pub use effect::{Change, Effect};
pub use going::{Going, Lost};
pub use hand_move::HandMove;
pub use knowledge::{Knowledge, Known, KnownEntry};
pub use local::may_ignore;
pub use mode::Mode;
pub use mode_set::ModeSet;
pub use profile::Profile;
pub use run::is_run_of;
pub use sense::Sense;
pub use state::{Entry, Hands, Register, State};
pub use status::{RegistersSet, Status};
