//! Why a pairer refuses a record.

use crate::reason::Reason;

/// Why a [`crate::Pairer`] refuses a record.
#[derive(Clone, Copy, PartialEq, Eq)]
pub struct Refusal {
    /// The rule that the record breaks.
    pub reason: Reason,
    /// Whether the record begins a reply later than [`crate::REPLY_LIMIT_US`] after its command, whatever rule it breaks:
    /// a late reply may have a wrong group besides.
    pub late: bool,
}

impl Refusal {
    ghost use Rattle.std.specs.Prelude.{◌≡◌, false};

    /// That of a record which begins no late reply.
    #[inline(always)]
    pub(crate) fn of(reason: Reason) -> Refusal
        ensures { result ≡ record { reason = reason; late = false } }
    {
        Refusal {
            reason,
            late: false,
        }
    }
}
