//! The signs that a capture shows, and what each means.

use crate::place::Place;
use crate::rates::{Fitting, RateSeen};
use crate::sign_text::put_seen;
use crate::text::put_fitting;
use capture9::Wire;
use report9::{put_count, put_text};
use std::alloc::AllocError;
use tc25::Rate;

/// Something in a capture to look at before anybody is blamed.
#[derive(Clone, Copy, PartialEq, Eq)]
pub struct Sign {
    /// The record that it names.
    pub at: Place,
    /// What was seen.
    pub what: Seeming,
}

/// An echo of a wire.
#[derive(Clone, Copy, PartialEq, Eq)]
pub struct EchoSeen {
    /// The wire whose bytes come on the other too.
    pub wire: Wire,
    /// How many of them do.
    pub bytes: u64,
    /// How many it carries.
    pub of: u64,
    /// How much later they come at most, in microseconds.
    pub most_us: u64,
}

/// A block that its sender sends short.
#[derive(Clone, Copy, PartialEq, Eq)]
pub struct ShortSeen {
    /// The wire that carries it.
    pub wire: Wire,
    /// Its first two bytes.
    pub head: [u8; 2],
    /// How many of its bytes come before the one that is missing.
    pub place: u8,
    /// How often it is short.
    pub blocks: u64,
    /// How often it comes from then on.
    pub of: u64,
}

/// What was seen. Times are in microseconds.
#[derive(Clone, Copy, PartialEq, Eq)]
pub enum Seeming {
    /// Blocks of a deck's groups come on the controller's wire, and of a controller's on the deck's: so many of each.
    WiresSwapped {
        controller: u64,
        deck: u64,
    },
    /// The capture begins inside a block, or with a reply.
    BeginsInside,
    /// The bytes of a wire come on the other wire too.
    Echo(EchoSeen),
    /// For so long neither wire carries a byte, from inside one block to inside another: the longest of so many.
    Hole {
        us: u64,
        holes: u64,
    },
    /// The bytes of so many blocks come closer than a byte lasts, the closest so far apart.
    CollectsBytes {
        least_us: u64,
        blocks: u64,
    },
    /// A byte comes again so long after itself, and the sum of its block is right without it: the first of so many.
    WrittenTwice {
        byte: u8,
        us: u64,
        bytes: u64,
    },
    /// So many bytes come closer to the one before them than a byte lasts, the closest so close.
    CloseBytes {
        least_us: u64,
        bytes: u64,
    },
    /// All times are whole multiples of this step after the first.
    CoarseTimes {
        step_us: u64,
    },
    /// The least delay of a reply moves from the one to the other.
    TwoClocks {
        from_us: u64,
        to_us: u64,
    },
    /// The rate that is asked with does not fit, and these do.
    WrongRate {
        asked: Rate,
        seen: RateSeen,
        fits: Fitting,
    },
    /// So many replies fit the command before theirs and not their own, of so many that fit one alone.
    OneBehind {
        replies: u64,
        of: u64,
    },
    /// So many commands in a row have no reply, from the beginning of the first to that of the next command after them.
    Silence {
        commands: u32,
        from_us: u64,
        to_us: u64,
    },
    /// The same block lacks a byte at the same place most times that it comes.
    SentShort(ShortSeen),
    /// A block ends early, and its sum is right with this byte after that record, or before the block: the first of so many.
    LostBytes {
        byte: u8,
        after: Option<Place>,
        blocks: u64,
    },
}

impl Sign {
    /// Puts its line, with a line feed. An error comes where the line has to grow and is refused.
    pub fn put(&self, line: &mut Vec<u8>) -> Result<(), AllocError> {
        put_text(line, "look at: ")?;
        self.put_told(line)?;
        put_text(line, "\n")
    }

    /// Puts what it is, where it is, what was seen and what that means. An error comes where the line has to grow and is refused.
    pub fn put_told(&self, line: &mut Vec<u8>) -> Result<(), AllocError> {
        let (name, meaning) = self.what.words();
        put_text(line, name)?;
        put_count(line, ", at record ", u64::from(self.at.record))?;
        put_text(line, ": ")?;
        put_seen(line, &self.what)?;
        put_text(line, "; ")?;
        put_text(line, meaning)?;
        if let Seeming::WrongRate { fits, .. } = self.what {
            put_fitting(line, fits)?;
        }
        Ok(())
    }
}

impl Seeming {
    /// Whether it blames the tap, the logger or the wires for what breaks there. A block that is sent short is its sender's, and another
    /// rate is nobody's; where a deck is silent, or replies come one command behind, the capture does not tell who is at fault.
    pub fn blames_tap(&self) -> bool {
        match self {
            Seeming::WiresSwapped { .. }
            | Seeming::BeginsInside
            | Seeming::Echo(_)
            | Seeming::Hole { .. }
            | Seeming::CollectsBytes { .. }
            | Seeming::WrittenTwice { .. }
            | Seeming::CloseBytes { .. }
            | Seeming::CoarseTimes { .. }
            | Seeming::TwoClocks { .. }
            | Seeming::LostBytes { .. } => true,
            Seeming::WrongRate { .. }
            | Seeming::OneBehind { .. }
            | Seeming::Silence { .. }
            | Seeming::SentShort(_) => false,
        }
    }

    /// What it is called, and what it means or what to do about it.
    pub fn words(&self) -> (&'static str, &'static str) {
        match self {
            Seeming::WiresSwapped { .. } => (
                "the wires are swapped",
                "swap C and D before anything is judged",
            ),
            Seeming::Echo(_) => (
                "an echo",
                "tap each wire at its sender, or take the second copy out, before anything is judged",
            ),
            Seeming::Hole { .. } => (
                "a hole in both wires",
                "the logger wrote nothing there, and what breaks there is nobody's",
            ),
            Seeming::BeginsInside => ("begins inside traffic", "ask with --sync"),
            Seeming::CollectsBytes { .. } => (
                "the tap collects bytes",
                "L1, L2, P3 and B3 say nothing here",
            ),
            Seeming::WrittenTwice { .. } => (
                "a byte written twice",
                "the logger wrote it twice, and what breaks there is not the sender's",
            ),
            Seeming::CloseBytes { .. } => (
                "bytes too close",
                "no line carries them so, and what breaks there is not the sender's",
            ),
            Seeming::CoarseTimes { .. } => (
                "coarse times",
                "limits near 9 and 10 ms say nothing here",
            ),
            Seeming::TwoClocks { .. } => (
                "two clocks",
                "the wires do not share a clock, so L1, L2 and P3 say nothing here",
            ),
            Seeming::WrongRate { .. } => ("rate", "ask with "),
            Seeming::OneBehind { .. } => (
                "replies one command behind",
                "a reply was lost or is one too many, and P5 follows from that",
            ),
            Seeming::Silence { .. } => (
                "silence",
                "the deck is off or out of reach, or its wire is not tapped",
            ),
            Seeming::SentShort(_) => (
                "a block sent short",
                "a tap loses bytes at random, so its sender sends it so",
            ),
            Seeming::LostBytes { .. } => (
                "lost bytes",
                "the tap or the line lost it, and what breaks there is not the sender's",
            ),
        }
    }
}
