//! Why a record breaks the protocol.
ghost use Rattle.std.specs.Prelude.{◌≡◌};

use crate::{BYTE_GAP_US, REPLY_LIMIT_US};

/// The rule that a record breaks.
///
/// Where a record breaks several rules, the first of these counts: the wire whose turn it is, the time,
/// the group, the sum, the command's time, the kind of the reply, the reply's time, the deck's behaviour.
#[derive(Clone, Copy, PartialEq, Eq)]
pub enum Reason {
    /// B1: the first byte of a block has a group that its wire does not allow.
    WrongGroup,
    /// B2: the last byte of a block is not the sum of the bytes before it.
    WrongSum,
    /// B3: a record comes more than [`crate::BYTE_GAP_US`] after the one before it in its block.
    ByteGap,
    /// P1: the deck sends where no command is begun.
    ReplyWithoutCommand,
    /// P2: the deck sends inside a command.
    ReplyInsideCommand,
    /// P3: the controller sends before the reply, within the reply limit.
    CommandBeforeReply,
    /// P4: the controller sends inside a reply.
    CommandInsideReply,
    /// P5: the reply is of no kind that its command may have.
    WrongReply,
    /// P6: the command's time is not valid.
    InvalidCommandTime,
    /// P7: the reply's time is not valid.
    InvalidReplyTime,
    /// L1: the reply begins more than [`crate::REPLY_LIMIT_US`] after the command.
    LateReply,
    /// L2: no reply came within the reply limit, and the controller sends again.
    NoReply,
    /// M1: no run of the deck gives the replies so far. A [`crate::Pairer`] knows nothing of the deck and
    /// never answers this.
    NoRun,
}

impl Reason {
    ghost use Rattle.block9.specs.Reason.{limit_of, name_of, text_of};

    /// The time after the record before that the rule measures by, in microseconds: [`BYTE_GAP_US`] for a gap inside a
    /// block, [`REPLY_LIMIT_US`] for the reply's limit. `None` for a rule that measures no time.
    pub fn limit_us(self) -> Option<u64>
        ensures { result ≡ limit_of self }
    {
        match self {
            Reason::ByteGap => Some(BYTE_GAP_US),
            Reason::CommandBeforeReply | Reason::LateReply | Reason::NoReply => {
                Some(REPLY_LIMIT_US)
            }
            _ => None,
        }
    }

    /// The short name that a report gives: a letter and a digit.
    pub fn name<'a>(self) -> &'a str
        ensures { result.now ≡ name_of self }
    {
        match self {
            Reason::WrongGroup => "B1",
            Reason::WrongSum => "B2",
            Reason::ByteGap => "B3",
            Reason::ReplyWithoutCommand => "P1",
            Reason::ReplyInsideCommand => "P2",
            Reason::CommandBeforeReply => "P3",
            Reason::CommandInsideReply => "P4",
            Reason::WrongReply => "P5",
            Reason::InvalidCommandTime => "P6",
            Reason::InvalidReplyTime => "P7",
            Reason::LateReply => "L1",
            Reason::NoReply => "L2",
            Reason::NoRun => "M1",
        }
    }

    /// The reason in words.
    pub fn text<'a>(self) -> &'a str
        ensures { result.now ≡ text_of self }
    {
        match self {
            Reason::WrongGroup => "wrong group for this wire",
            Reason::WrongSum => "wrong sum",
            Reason::ByteGap => "gap inside a block",
            Reason::ReplyWithoutCommand => "reply without a command",
            Reason::ReplyInsideCommand => "reply before the end of the command",
            Reason::CommandBeforeReply => "command before the reply",
            Reason::CommandInsideReply => "command inside a reply",
            Reason::WrongReply => "wrong kind of reply",
            Reason::InvalidCommandTime => "invalid time in a command",
            Reason::InvalidReplyTime => "invalid time in a reply",
            Reason::LateReply => "late reply",
            Reason::NoReply => "no reply",
            Reason::NoRun => "no run remains",
        }
    }
}
