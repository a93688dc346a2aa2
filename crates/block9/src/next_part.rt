//! Which record may begin a command, and which one begins the next part of a capture after a break.
ghost use Rattle.std.specs.Prelude.{◌≡◌};
ghost use Rattle.block9.specs.NextPart.{begins_next_part, may_begin, takes_up_at};

use crate::{BYTE_GAP_US, Reason};
use capture9::{LineByte, Wire};

/// Whether a record that comes after `last` may be the first of a command: it comes on the controller's wire, and after a record
/// of the deck or after the byte gap. The first record of a capture never may: nobody knows what came before it. That is a choice
/// of these rules.
pub fn may_begin(last: Option<LineByte>, next: LineByte) -> bool
    ensures { result ≡ may_begin last next }
{
    let Some(last) = last else {
        return false;
    };
    match (next.wire, last.wire) {
        (Wire::Deck, _) => false,
        (Wire::Controller, Wire::Deck) => true,
        (Wire::Controller, Wire::Controller) => {
            next.time_us.saturating_sub(last.time_us) > BYTE_GAP_US
        }
    }
}

/// Whether the record that breaks a rule for this reason is itself the first of the next part.
pub fn begins_next_part(reason: Reason, breaking: LineByte) -> bool
    ensures { result ≡ begins_next_part reason breaking }
{
    match breaking.wire {
        Wire::Deck => false,
        Wire::Controller => takes_up_at(reason),
    }
}

/// Whether a part begins at a record that breaks a rule for this reason on the controller's wire: the controller sends a
/// command though a reply is still to come or to end, or though its last block did not end.
fn takes_up_at(reason: Reason) -> bool
    ensures { result ≡ takes_up_at reason }
{
    matches!(
        reason,
        Reason::CommandBeforeReply | Reason::NoReply | Reason::CommandInsideReply | Reason::ByteGap
    )
}
