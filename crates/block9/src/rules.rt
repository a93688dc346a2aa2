//! The rules of a record: which of them it breaks, by the wire whose turn it is, its time, its group, the gap inside a block,
//! the sum, and what the complete block means. What each reason says is in `specs/Reason.antt`.
ghost use Rattle.std.specs.Prelude.{◌≡◌, ◌≢◌, ◌≤◌, ◌<◌, true, None, Some, IfNone, IfOk, IfErr, IfSome};
ghost use Rattle.block9.specs.Command.{command_of};
ghost use Rattle.block9.specs.Line.{allows, last_time};
ghost use Rattle.block9.specs.Working.Inside.{IsTurned, Stands, place_at};
ghost use Rattle.block9.specs.Working.Table.{early_fault, is_late, is_soon, place_of, reply_fault, wire_fault};

use crate::block::Block;
use crate::command::Command;
use crate::line::last_time;
use crate::line_rules::{LineRules, ReplyLimit};
use crate::open_block::OpenBlock;
use crate::place::Place;
use crate::reason::Reason;
use crate::reply::reply_time_valid_at;
use crate::{BYTE_GAP_US, REPLY_LIMIT_US};
use capture9::{LineByte, Wire};
use tc25::Rate;

/// What a record that breaks no rule makes of the block at the tail's end.
#[derive(Clone, Copy)]
pub(crate) enum Turned {
    /// The block is open with the record; `late`: it is a reply that begins with this record, after the reply limit.
    Open { block: OpenBlock, late: bool },
    /// The record is the block's last one.
    Last,
}

/// What the record makes of the block at the tail's end, or the first rule that it breaks by the wire, the time, the group or
/// the gap. Most records go on with a block on its wire: of them the gap alone is tested.
#[inline(always)]
pub(crate) fn turn(
    limit: ReplyLimit,
    block: OpenBlock,
    tail: &[LineByte],
    line_byte: LineByte,
) -> Result<Turned, Reason>
    requires stands { Stands tail.now block }
    requires later { last_time tail.now ≤ line_byte.time_us }
    ensures ok { IfOk result (λ turned. (early_fault limit (place_of tail.now) tail.now line_byte ≡ None) × IsTurned tail.now block line_byte turned) }
    ensures err { IfErr result (λ reason. early_fault limit (place_of tail.now) tail.now line_byte ≡ Some reason) }
{
    if line_byte.wire != block.wire {
        let soon = is_soon(tail, line_byte);
        if let Some(reason) = wire_fault(block.place(), line_byte.wire, soon) {
            return Err(reason);
        }
    }
    if block.left == 0 {
        return begin(limit, block, tail, line_byte);
    }
    if line_byte.time_us - tail[tail.len() - 1].time_us > BYTE_GAP_US {
        return Err(Reason::ByteGap);
    }
    match block.longer(line_byte.byte) {
        Some(longer) => Ok(Turned::Open {
            block: longer,
            late: false,
        }),
        None => Ok(Turned::Last),
    }
}

/// What a record on the wire whose turn it is begins, or the rule that it breaks as the first one of its block: its time, its
/// group.
#[inline(always)]
fn begin(
    limit: ReplyLimit,
    block: OpenBlock,
    tail: &[LineByte],
    line_byte: LineByte,
) -> Result<Turned, Reason>
    requires stands { Stands tail.now block }
    requires later { last_time tail.now ≤ line_byte.time_us }
    requires first { block.left ≡ 0 }
    requires turn { wire_fault (place_at block) line_byte.wire (is_soon tail.now line_byte) ≡ None }
    ensures ok { IfOk result (λ turned. (early_fault limit (place_of tail.now) tail.now line_byte ≡ None) × IsTurned tail.now block line_byte turned) }
    ensures err { IfErr result (λ reason. early_fault limit (place_of tail.now) tail.now line_byte ≡ Some reason) }
{
    // as `is_late`, of a block that is not begun: the wire whose turn it is tells the place
    let late = match block.wire {
        Wire::Controller => false,
        Wire::Deck => !is_soon(tail, line_byte),
    };
    if late && limit == ReplyLimit::Counts {
        return Err(Reason::LateReply);
    }
    if !allows(block.wire, line_byte.byte / 16) {
        return Err(Reason::WrongGroup);
    }
    Ok(Turned::Open {
        block: block.begun(line_byte.byte),
        late,
    })
}

/// Whether the record begins a late reply, whatever rule it breaks: it comes on the deck's wire after a complete command, of whose
/// reply no record came yet, and after the reply limit.
pub(crate) fn is_late(block: OpenBlock, tail: &[LineByte], line_byte: LineByte) -> bool
    requires stands { Stands tail.now block }
    requires later { last_time tail.now ≤ line_byte.time_us }
    ensures { result ≡ is_late (place_of tail.now) tail.now line_byte }
{
    match (block.place(), line_byte.wire) {
        (Place::AfterCommand, Wire::Deck) => !is_soon(tail, line_byte),
        _ => false,
    }
}

/// Whether the record comes within the reply limit after the last one of the tail.
fn is_soon(tail: &[LineByte], line_byte: LineByte) -> bool
    requires { last_time tail.now ≤ line_byte.time_us }
    ensures { result ≡ is_soon tail.now line_byte }
{
    line_byte.time_us - last_time(tail) <= REPLY_LIMIT_US
}

/// A record on the wire whose turn it is not. `soon`: it comes within the reply limit.
fn wire_fault(place: Place, wire: Wire, soon: bool) -> Option<Reason>
    ensures { result ≡ wire_fault place wire soon }
{
    match (place, wire) {
        (Place::Idle, Wire::Deck) => Some(Reason::ReplyWithoutCommand),
        (Place::InCommand, Wire::Deck) => Some(Reason::ReplyInsideCommand),
        (Place::AfterCommand, Wire::Controller) if soon => Some(Reason::CommandBeforeReply),
        (Place::AfterCommand, Wire::Controller) => Some(Reason::NoReply),
        (Place::InReply, Wire::Controller) => Some(Reason::CommandInsideReply),
        _ => None,
    }
}

/// Whether blocks of this group may come on the wire. The protocol has groups 1 and 7 for the deck, and
/// 0, 2, 4 and 6 for the controller; these rules take every other group on both wires.
fn allows(wire: Wire, group: u8) -> bool
    requires { group < 16 }
    ensures { result ≡ allows wire group }
{
    match wire {
        Wire::Controller => !matches!(group, 1 | 7),
        Wire::Deck => !matches!(group, 0 | 2 | 4 | 6),
    }
}

/// A last byte that is not the sum of the bytes before it.
#[inline(always)]
pub(crate) fn sum_fault(block: OpenBlock, byte: u8) -> Option<Reason>
    ensures none { IfNone result (block.sum ≡ byte) }
    ensures some { IfSome result (λ reason. (reason ≡ Reason.WrongSum) × (block.sum ≢ byte)) }
{
    (block.sum != byte).then_some(Reason::WrongSum)
}

/// What a complete command means, or the rule that it breaks: its time is not valid.
#[inline(always)]
pub(crate) fn meaning(rate: Rate, block: &Block) -> Result<Command, Reason>
    ensures ok { IfOk result (λ c. command_of rate block.now ≡ Some c) }
    ensures err { IfErr result (λ reason. (reason ≡ Reason.InvalidCommandTime) × (command_of rate block.now ≡ None)) }
{
    Command::of_at(rate, block).ok_or(Reason::InvalidCommandTime)
}

/// A complete reply that its command, of this block, does not take, or with a time that is not valid.
#[inline(always)]
pub(crate) fn reply_fault(
    rules: &LineRules,
    block: &Block,
    command: &Command,
    reply: &Block,
) -> Option<Reason>
    ensures { result ≡ reply_fault rules.now block.now (Some command.now) reply.now }
{
    if !rules.replies.takes(block, command, reply) {
        return Some(Reason::WrongReply);
    }
    if !reply_time_valid_at(rules.rate, command, reply) {
        return Some(Reason::InvalidReplyTime);
    }
    None
}
