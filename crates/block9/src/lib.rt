//! Blocks of the protocol, and the pairing of commands and replies, one record at a time.
//!
//! A `Block` is what bytes on the line spell, and a `Command` is what a block of the controller means. A
//! `Pairer` takes the captured bytes in turn. It answers the `Step` that a record makes, and shows the
//! `Exchange`, a command with its reply, where the record completes one. Where the record breaks a rule it
//! answers a `Refusal`.
#![tactic(auto)]

mod at_25;
mod block;
mod command;
mod exchange;
pub mod laws;
mod line;
mod line_rules;
mod nak;
mod next_part;
mod open;
mod open_block;
mod pairer;
mod place;
mod reason;
mod refusal;
mod replies;
mod reply;
mod rules;
mod tail;

pub use at_25::reply_time_valid;
pub use block::Block;
pub use command::Command;
pub use exchange::{Exchange, records_in};
pub use line_rules::{LineRules, ReplyLimit};
pub use nak::NakBits;
pub use next_part::{begins_next_part, may_begin};
pub use open::Open;
pub use pairer::{Pairer, Step};
pub use reason::Reason;
pub use refusal::Refusal;
pub use replies::{NamedReplies, ReplyForm, TIME_SENSE, time_sense_with};
pub use reply::reply_time_valid_at;

/// The time that a byte takes on the line, in microseconds: eleven bits at 38,400 a second, rounded up.
pub const BYTE_TIME_US: u64 = 287;

/// The longest time between neighbouring records of one block, in microseconds.
///
/// The protocol manual's gap of 10 ms, and the time of a byte: a tap may stamp either edge of a byte.
pub const BYTE_GAP_US: u64 = 10_000 + BYTE_TIME_US;

/// The longest time from a command's last record to its reply's first one, in microseconds.
///
/// The protocol manual's 9 ms, and the time of a byte for the same reason as in [`BYTE_GAP_US`].
pub const REPLY_LIMIT_US: u64 = 9_000 + BYTE_TIME_US;
