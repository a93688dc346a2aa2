//! Which reasons are in doubt: a sign of the capture says that something else than the deck or the controller may be at fault. The signs
//! alone say so. Which reasons come up does not: late replies alone are those of a tap or of a deck.

use block9::Reason;
use info9::{MOST_SIGNS, Seeming, Sign};

/// The signs that a capture shows, as far as they put reasons in doubt.
#[derive(Clone, Copy)]
pub(crate) struct Doubts {
    signs: [Option<Sign>; MOST_SIGNS],
}

impl Doubts {
    /// What these signs put in doubt.
    pub(crate) fn of(signs: &[Option<Sign>; MOST_SIGNS]) -> Doubts {
        Doubts { signs: *signs }
    }

    /// The signs.
    pub(crate) fn signs(&self) -> &[Option<Sign>] {
        &self.signs
    }

    /// What puts a reason in doubt, as a sentence of the page: by the first sign that does.
    pub(crate) fn sentence(&self, reason: Reason) -> Option<&'static str> {
        for sign in self.signs {
            let doubt = sign.and_then(|sign| doubt_by(&sign.what, reason));
            if doubt.is_some() {
                return doubt;
            }
        }
        None
    }
}

/// The sentence of a sign, where it puts this reason in doubt, or says who is at fault.
pub(crate) fn doubt_by(what: &Seeming, reason: Reason) -> Option<&'static str> {
    let (is_doubted, sentence) = match what {
        Seeming::WiresSwapped { .. } => (
            true,
            "In doubt: the two wires seem to be swapped. Swap them before any of this is believed.",
        ),
        Seeming::Echo(_) => (
            true,
            "In doubt: what one wire carries comes on the other too. Take the second copy out before any of this is believed.",
        ),
        Seeming::WrittenTwice { .. } | Seeming::CloseBytes { .. } => (
            is_of_bytes(reason),
            "In doubt: bytes come closer than a line carries them, so the logger made them, and a break there is not the sender's.",
        ),
        Seeming::Hole { .. } => (
            is_of_bytes(reason) || is_of_time(reason),
            "In doubt at a hole: for a time the logger wrote nothing, and a break there is nobody's. <code>ninecheck info</code> says where.",
        ),
        Seeming::BeginsInside => (
            is_of_beginning(reason),
            "In doubt within the first five records: the capture begins inside traffic. Ask again with <code>--sync</code>.",
        ),
        Seeming::CollectsBytes { .. } => (
            is_of_time(reason) || reason == Reason::CommandBeforeReply,
            "In doubt: the tap collects bytes before it stamps them, so its times are not those of the line.",
        ),
        Seeming::CoarseTimes { .. } => (
            is_of_time(reason),
            "In doubt where the time is near its limit: all times of the capture come in coarse steps.",
        ),
        Seeming::TwoClocks { .. } => (
            is_between_wires(reason),
            "In doubt: the two wires do not share a clock, so a time from the one to the other says nothing.",
        ),
        Seeming::WrongRate { .. } => (
            is_of_rate(reason),
            "In doubt: the times fit another frame rate: what to look at first, above, says which.",
        ),
        Seeming::OneBehind { .. } => (
            reason == Reason::WrongReply,
            "In doubt: replies fit the command before theirs. One was lost or is one too many, and this follows from it.",
        ),
        Seeming::Silence { .. } => (
            reason == Reason::NoReply,
            "In doubt: for a time the deck was silent, off or out of reach. That is one fault, and not one a command.",
        ),
        Seeming::SentShort(_) => (
            is_of_lost_byte(reason),
            "The same block comes a byte short most times, so its sender is at fault, and not the tap. <code>ninecheck info</code> names it.",
        ),
        Seeming::LostBytes { .. } => (
            is_of_lost_byte(reason),
            "In doubt: the tap or the line lost a byte, and a break there is not the sender's.",
        ),
    };
    is_doubted.then_some(sentence)
}

/// Whether a capture that begins inside traffic often has it at its beginning.
fn is_of_beginning(reason: Reason) -> bool {
    matches!(
        reason,
        Reason::ReplyWithoutCommand
            | Reason::ReplyInsideCommand
            | Reason::WrongGroup
            | Reason::WrongSum
    )
}

/// Whether it is found by a time that is too long.
fn is_of_time(reason: Reason) -> bool {
    matches!(
        reason,
        Reason::LateReply | Reason::NoReply | Reason::ByteGap
    )
}

/// Whether it is found by a time from one wire to the other.
fn is_between_wires(reason: Reason) -> bool {
    matches!(
        reason,
        Reason::LateReply | Reason::NoReply | Reason::CommandBeforeReply
    )
}

/// Whether it depends on the frame rate.
fn is_of_rate(reason: Reason) -> bool {
    matches!(
        reason,
        Reason::InvalidCommandTime | Reason::InvalidReplyTime | Reason::NoRun
    )
}

/// Whether a byte too many, or bytes that are missing, may end in it.
fn is_of_bytes(reason: Reason) -> bool {
    is_of_lost_byte(reason)
        || matches!(
            reason,
            Reason::ReplyWithoutCommand | Reason::WrongGroup | Reason::ByteGap
        )
}

/// Whether a byte that is lost mostly ends in it.
fn is_of_lost_byte(reason: Reason) -> bool {
    matches!(
        reason,
        Reason::CommandInsideReply | Reason::ReplyInsideCommand | Reason::WrongSum
    )
}
