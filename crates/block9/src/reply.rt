//! The replies of the deck: their kinds, by their first two bytes, and the times in them.
ghost use Rattle.std.specs.Prelude.{◌≡◌};
ghost use Rattle.block9.specs.Command.{is_one_of, is_reply_time_valid, is_status, is_time, time_code_heads, timer_heads};

use crate::block::Block;
use crate::command::Command;
use tc25::Rate;

/// The first two bytes of an acknowledgement.
pub(crate) const ACK: u32 = 0x10_01;

/// The first two bytes of a NAK.
pub(crate) const NAK: u32 = 0x11_12;

/// Whether these are the first two bytes of a timer's time, whose bytes are free.
fn is_timer(head: u32) -> bool
    ensures { result ≡ is_one_of timer_heads head }
{
    matches!(head, 0x74_00 | 0x74_01)
}

/// Whether these are the first two bytes of a time code, which has to be valid.
fn is_time_code(head: u32) -> bool
    ensures { result ≡ is_one_of time_code_heads head }
{
    matches!(head, 0x74_04 | 0x74_06 | 0x74_14 | 0x74_16)
}

/// Whether a reply has a time: a timer's, or a time code.
pub(crate) fn is_time(reply: &Block) -> bool
    ensures { result ≡ is_time reply.now }
{
    let head = reply.head();
    is_timer(head) || is_time_code(head)
}

/// Whether a reply has status data, no more than `most` of them.
pub(crate) fn is_status(reply: &Block, most: u8) -> bool
    ensures { result ≡ is_status most reply.now }
{
    reply.group == 7 && reply.code == 0x20 && reply.bytes.len() <= usize::from(most)
}

/// Whether the time in a reply is valid at a rate, where it has to be; true where there is none to judge.
///
/// It has to be in the replies to CURRENT TIME SENSE, but for a timer's.
#[tactic(auto, unfolding(crate::specs::Command::is_reply_time_valid))]
pub fn reply_time_valid_at(rate: Rate, command: &Command, reply: &Block) -> bool
    ensures { result ≡ is_reply_time_valid rate command.now reply.now }
{
    match command {
        Command::CurrentTimeSense { .. } if is_time_code(reply.head()) => {
            reply.time_at(rate).is_some()
        }
        _ => true,
    }
}
