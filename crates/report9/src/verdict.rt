//! What is asked of a judging, and the verdict that it answers.

use crate::detail::Detail;
use block9::Reason;

/// The verdict on the records of a capture.
#[derive(Clone, Copy, PartialEq, Eq)]
pub enum Verdict {
    /// No row is bad, all records that are judged keep the rules, and some run of the deck gives exactly their replies. A
    /// capture of which no record is judged is one of these.
    Yes {
        /// How many records were judged: all but those that were passed over before the first.
        records: u32,
        /// How many complete exchanges they hold: a command and its reply each.
        exchanges: u32,
        /// How many records come after the last complete exchange, at most 35: those of a command whose reply
        /// is unfinished yet, with what there is of the reply, or of a command that is unfinished itself.
        tail: u32,
    },
    /// A record breaks a rule. Later rows were not judged, and may be bad.
    No {
        /// The number of the first record that does, counted from 1: its data row.
        at: u32,
        /// The rule that it breaks, and the first of them where it breaks several.
        reason: Reason,
    },
}

/// How far a capture is judged.
#[derive(Clone, Copy, PartialEq, Eq)]
pub enum Extent {
    /// Up to the first record that breaks a rule. A late reply breaks one.
    FirstBreak,
    /// All of it, part by part: after a record that breaks a rule the judging goes on where the next part begins. A late reply
    /// breaks a rule too, and ends no part.
    WholeCapture,
}

/// With which record of a capture its judging begins.
#[derive(Clone, Copy, PartialEq, Eq)]
pub enum Beginning {
    /// With the first.
    FirstRecord,
    /// With the first that may begin a command. Those before it are passed over, and the records keep their numbers.
    FirstCommand,
}

/// How much of a capture is judged.
#[derive(Clone, Copy, PartialEq, Eq)]
pub struct Scope {
    /// How far.
    pub extent: Extent,
    /// From where.
    pub beginning: Beginning,
}

/// What is written of what was judged, besides the last line.
#[derive(Clone, Copy, PartialEq, Eq)]
pub enum View {
    /// The line of each break.
    Verdict,
    /// A line for each exchange, told so, with what is then known of the deck, and the line of each break.
    Explain(Detail),
    /// Why each record that breaks a rule does, and the line of its break.
    Why,
}
