//! Where the open records stand between a command and its reply.

/// Where a tail stands: the records since the last complete exchange.
#[derive(Clone, Copy, PartialEq, Eq)]
pub(crate) enum Place {
    /// No command is begun.
    Idle,
    /// Inside a command.
    InCommand,
    /// A command is complete, and no reply is begun.
    AfterCommand,
    /// Inside a reply.
    InReply,
}
