//! What is open after the records that a pairer was fed.

use crate::command::Command;

/// What is open from a command's first record to its reply's last one, as a pairer knows it.
#[derive(Clone, Copy, PartialEq, Eq)]
pub struct Open {
    /// What the command means, where it is complete.
    pub command: Option<Command>,
    /// How many records of the command came.
    pub asked: usize,
    /// How many records of its reply came.
    pub answered: usize,
    /// How many records the block has that is begun and not complete, its checksum included; 0 where none is.
    pub wanted: usize,
    /// The sum of that block's bytes so far, modulo 256; 0 where none is.
    pub sum: u8,
}
