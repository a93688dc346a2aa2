//! What a judging comes to, one event after another.

use block9::Reason;
use capture9::LineByte;

/// A record that breaks a rule.
#[derive(Clone, Copy, PartialEq, Eq)]
pub struct Break {
    /// The rule, and the first of them where it breaks several.
    pub reason: Reason,
    /// The record: where no run of the deck remains, the last one of the exchange with which none does.
    pub record: LineByte,
    /// Whether the record begins a late reply, whatever rule it breaks.
    pub late: bool,
}

/// What a judging comes to next.
#[derive(Clone, Copy, PartialEq, Eq)]
pub enum Event {
    /// A complete exchange, whose reply some run of the deck gives after those before it. The judging shows it up to the next
    /// event.
    Exchange,
    /// A late reply, which begins with this record: the reply limit is left aside, so the part goes on, unless the record breaks
    /// another rule, which is the next event.
    LateReply(LineByte),
    /// A record that breaks a rule, and ends the part.
    Break(Break),
    /// The end: of the rows or, where the first break is as far as it goes, behind that.
    End,
}
