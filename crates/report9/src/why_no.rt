//! Why the verdict on a capture, or on a part of it, is a no.

use block9::{Exchange, Open, Reason};
use capture9::LineByte;
use deck9::{Knowledge, ModeSet};

/// An exchange, and the time at which it ended.
#[derive(Drop, PartialEq, Eq)]
pub struct EndedExchange {
    /// The exchange.
    pub exchange: Exchange,
    /// The time of its last record, in microseconds.
    pub end_us: u64,
}

/// Why a record breaks a rule: where it is one of blocks, pairing or timing the records that are open, or the exchange before where
/// none is, and where no run remains the replies that contradict one another.
#[derive(Drop, PartialEq, Eq)]
pub enum WhyNo {
    /// A record breaks a rule of blocks, pairing or timing. Later rows were not judged, and may be bad.
    Break {
        /// The number of the first record that does, counted from 1: its data row.
        at: u32,
        /// The rule that it breaks, and the first of them where it breaks several; never `Reason::NoRun`.
        reason: Reason,
        /// The records after the last complete exchange, without this one: those of a command, at most 18, and after them
        /// those of its reply, at most 17.
        tail: Vec<LineByte>,
        /// What these records are: what the command means, where it is complete, how many records are its own and how many its
        /// reply's, and how far the block has come that is not complete.
        open: Open,
        /// The last complete exchange, where no record is open: then it ends with the record before this one. None where one
        /// is open, and where there is no exchange.
        before: Option<EndedExchange>,
        /// The record that breaks the rule.
        breaking: LineByte,
    },
    /// A record ends an exchange with which no run of the deck remains.
    Contradiction {
        /// The number of the record, counted from 1: its data row.
        at: u32,
        /// The exchanges up to this record, which is the last one's last.
        exchanges: Vec<Exchange>,
        /// The places in this list, counted from 0 and in ascending order, of replies that no deck can have given
        /// together. The last of them is that of the last exchange.
        places: Vec<usize>,
        /// What was known of the deck when it gave the last reply, after the replies before it.
        known: Knowledge,
        /// The modes that it could then show.
        shown: ModeSet,
    },
}
