//! The laws of the definitions that contracts cite, each the contract of a function that does nothing, and what
//! the public constants are.
ghost use Rattle.std.specs.Prelude.{◌≡◌, ◌+◌, ◌-◌, ◌*◌, ◌<◌, ◌≤◌, ℕ, None, Some, List, [], ◌∷◌, ◌++◌, Contains, codes};
ghost use Rattle.block9.specs.Command.{command_of, fits};
ghost use Rattle.block9.specs.Exchange.{Cut, IsKept, IsTail};
ghost use Rattle.block9.specs.Line.{byte_gap, byte_time, last_time, reply_limit};
ghost use Rattle.block9.specs.Nak.{nak_bits};
ghost use Rattle.block9.specs.Reason.{IsReason};
ghost use Rattle.block9.specs.Replies.{NamesNoMore, Named, TakesNoMore, forms_for, takes, time_sense};

use crate::block::Block;
use crate::command::Command;
use crate::exchange::Exchange;
use crate::line_rules::LineRules;
use crate::nak::NakBits;
use crate::reason::Reason;
use crate::replies::TIME_SENSE;
use crate::{BYTE_GAP_US, BYTE_TIME_US, REPLY_LIMIT_US};
use capture9::LineByte;
use tc25::Rate;

/// Where a tail with a next record, which is not earlier, does not keep the rules, there is a reason; and there
/// is none where it keeps them.
pub fn some_reason_applies()
    ensures some { (rules : LineRules) (tail : List LineByte) (next : LineByte) → IsTail rules tail → last_time tail ≤ next.time_us
        → ¬ IsKept rules (tail ++ next ∷ []) → (reason : Reason) × IsReason rules tail next reason }
    ensures broken { (rules : LineRules) (tail : List LineByte) (next : LineByte) (reason : Reason) → IsTail rules tail
        → IsReason rules tail next reason → ¬ IsKept rules (tail ++ next ∷ []) }
{}

/// Where no replies are named a command takes exactly those that fit it. Where each command takes no fewer than before, records that
/// kept the rules still keep them, and are cut alike. It takes no fewer where each form that was named for it still is, and a command
/// that is not listed where nothing is named for it any more.
pub fn named_replies()
    ensures none { (block : Block) (command : Command) (reply : Block) → takes None block command reply ≡ fits command reply }
    ensures named { (rate : Rate) (less more : Named)
        → ((block : Block) (command : Command) → command_of rate block ≡ Some command → NamesNoMore command (forms_for less block) (forms_for more block))
        → TakesNoMore rate less more }
    ensures more { (rules : LineRules) (more : Named) (records : List LineByte) (exchanges : List Exchange) (tail : List LineByte)
        → TakesNoMore rules.rate rules.replies more → Cut rules records exchanges tail → Cut (record rules { replies = more }) records exchanges tail }
{}

/// At most one reason is the reason.
pub fn at_most_one_reason()
    ensures { (rules : LineRules) (tail : List LineByte) (next : LineByte) (reason other : Reason)
        → IsReason rules tail next reason → IsReason rules tail next other → reason ≡ other }
{}

/// The public constants are those of the definitions, and the time of a byte is eleven bits at 38,400 a second,
/// rounded up.
pub fn limits()
    ensures byte_time { BYTE_TIME_US ≡ byte_time }
    ensures byte_gap { BYTE_GAP_US ≡ byte_gap }
    ensures reply_limit { REPLY_LIMIT_US ≡ reply_limit }
    ensures not_below { 11 * 1000000 ≤ byte_time * 38400 }
    ensures rounded_up { (byte_time - 1) * 38400 < 11 * 1000000 }
    ensures time_sense { TIME_SENSE ≡ time_sense }
{}

/// Each public bit of a NAK is the one that the definitions give its name.
pub fn nak_names()
    ensures undefined { Contains nak_bits (codes "undefined", NakBits.UNDEFINED.0) }
    ensures checksum { Contains nak_bits (codes "checksum", NakBits.CHECKSUM.0) }
    ensures parity { Contains nak_bits (codes "parity", NakBits.PARITY.0) }
    ensures overrun { Contains nak_bits (codes "overrun", NakBits.OVERRUN.0) }
    ensures framing { Contains nak_bits (codes "framing", NakBits.FRAMING.0) }
    ensures timeout { Contains nak_bits (codes "timeout", NakBits.TIMEOUT.0) }
{}
