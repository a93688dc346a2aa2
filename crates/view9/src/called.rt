//! What reports call a command.

use block9::Exchange;
use deck9::Profile;
use report9::{TextBuffer, put_head};
use std::alloc::AllocError;

/// What a command is called. Two that are called the same have the same text.
#[derive(Clone, Copy, PartialEq, Eq, Hash)]
pub enum Called<'a> {
    /// By its name.
    Name(&'a [u8]),
    /// By the first two bytes of its block, as one number, where it has no name.
    Head(u32),
}

impl<'a> Called<'a> {
    /// What the command of an exchange is called.
    pub fn of(profile: &'a Profile, exchange: &Exchange) -> Called<'a> {
        match profile.name_of(&exchange.command) {
            Some(name) => Called::Name(name),
            None => Called::Head(exchange.block.head()),
        }
    }

    /// Puts its text.
    pub fn put(self, line: &mut Vec<u8>) -> Result<(), AllocError> {
        match self {
            Called::Name(name) => line.put(name),
            Called::Head(head) => put_head(line, head),
        }
    }
}
