//! What is answered to a capture where a run of the deck is asked for.

use block9::{Exchange, Reason};
use deck9::State;

/// The verdict on the records of a capture, and where it is a yes a run of the deck that gives its replies.
#[derive(Drop, PartialEq, Eq)]
pub enum RunVerdict {
    /// No row is bad, all records that are judged keep the rules, and the deck of this run gives exactly their replies.
    Yes {
        /// How many records were passed over before the first that was judged.
        past: u32,
        /// How many records were judged.
        records: u32,
        /// How many records come after the last complete exchange, at most 35.
        tail: u32,
        /// The complete exchanges that the records hold.
        exchanges: Vec<Exchange>,
        /// A run of the deck: one state after each exchange, in their order.
        states: Vec<State>,
    },
    /// A record breaks a rule. Later rows were not judged, and may be bad.
    No {
        /// The number of the first record that does, counted from 1: its data row.
        at: u32,
        /// The rule that it breaks, and the first of them where it breaks several.
        reason: Reason,
    },
}
