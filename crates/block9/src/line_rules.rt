//! What the records of a line are judged by.

use crate::replies::NamedReplies;
use tc25::Rate;

/// Whether a reply that begins after the reply limit, [`crate::REPLY_LIMIT_US`], breaks a rule.
#[derive(Clone, Copy, PartialEq, Eq)]
pub enum ReplyLimit {
    /// It does, and the record with which it begins is refused.
    Counts,
    /// It does not: that the reply is late is told, and it is taken as if it had come in time.
    LeftAside,
}

/// What the records of a line are judged by.
#[derive(Drop)]
pub struct LineRules<'a> {
    /// The rate at which times are read.
    pub rate: Rate,
    /// Whether the reply limit counts.
    pub reply_limit: ReplyLimit,
    /// The replies that commands take beside those of the tables.
    pub replies: NamedReplies<'a>,
}
