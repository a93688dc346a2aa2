//! The block that is open at the end of a tail, as a pairer counts it.

use crate::place::Place;
use capture9::Wire;

/// What a pairer keeps of the block that is open at the end of its tail, so that it reads no record again before the block's end.
#[derive(Clone, Copy, PartialEq, Eq)]
pub(crate) struct OpenBlock {
    /// The wire whose turn it is: the controller's for a command, the deck's for its reply.
    pub(crate) wire: Wire,
    /// How many records of the block are still to come, and 0 where it is not begun.
    pub(crate) left: u8,
    /// The sum of the bytes of its records so far, modulo 256, where it is begun.
    pub(crate) sum: u8,
}

impl OpenBlock {
    ghost use Rattle.std.specs.Prelude.{◌≡◌, ◌≢◌};
    ghost use Rattle.block9.specs.Working.Inside.{grown, next_of, place_at, to_come};

    /// A block on this wire that is not begun.
    pub(crate) fn to_come(wire: Wire) -> OpenBlock
        ensures { result ≡ to_come wire }
    {
        OpenBlock {
            wire,
            left: 0,
            sum: 0,
        }
    }

    /// Where the tail stands that has this block open at its end.
    pub(crate) fn place(self) -> Place
        ensures { result ≡ place_at self }
    {
        match (self.wire, self.left) {
            (Wire::Controller, 0) => Place::Idle,
            (Wire::Controller, _) => Place::InCommand,
            (Wire::Deck, 0) => Place::AfterCommand,
            (Wire::Deck, _) => Place::InReply,
        }
    }

    /// The block with its first byte, from which on it is known how many records it has.
    pub(crate) fn begun(self, byte: u8) -> OpenBlock
        requires { self.left ≡ 0 }
        ensures { result ≡ grown self byte }
    {
        OpenBlock {
            wire: self.wire,
            left: byte % 16 + 2,
            sum: byte,
        }
    }

    /// The begun block with one byte more, or none where that is its last.
    pub(crate) fn longer(self, byte: u8) -> Option<OpenBlock>
        requires { self.left ≢ 0 }
        ensures { result ≡ next_of self byte }
    {
        if self.left == 1 {
            return None;
        }
        Some(OpenBlock {
            wire: self.wire,
            left: self.left - 1,
            sum: self.sum.wrapping_add(byte),
        })
    }
}
