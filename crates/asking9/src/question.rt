//! What is asked again of a capture.

use crate::assumed::{Assumed, Sheet};
use block9::Reason;
use deck9::Hands;
use program9::Broken;
use report9::Scope;
use std::alloc::AllocError;
use tc25::Rate;

/// A capture, and what it was asked with.
#[derive(Clone, Copy)]
pub struct Question<'q> {
    /// Its text.
    pub text: &'q [u8],
    /// How far it was judged, and from where on.
    pub scope: Scope,
    /// The rate that it was asked with.
    pub rate: Rate,
    /// Whether hands were allowed.
    pub hands: Hands,
    /// The texts of the sheets that it was asked with.
    pub sheets: &'q [Vec<u8>],
}

impl Question<'_> {
    /// What it was asked with.
    pub(crate) fn own(&self) -> Assumed {
        Assumed {
            rate: self.rate,
            sheet: Sheet::Own,
            hands: self.hands,
        }
    }
}

/// Where a part of a capture begins.
#[derive(Clone, Copy, PartialEq, Eq)]
pub(crate) enum PartStart {
    /// Where the judging of the capture does.
    Capture,
    /// With this record.
    At(u32),
    /// With this record or behind it: it breaks the part before.
    FromBreak(u32),
}

/// A break after which there is something to ask, and the part that it ends.
#[derive(Clone, Copy)]
pub struct Asked {
    /// The record.
    pub broken: Broken,
    pub(crate) start: PartStart,
}

impl Asked {
    /// That of a judging to the first break.
    pub fn of_first(broken: Broken) -> Asked {
        Asked {
            broken,
            start: PartStart::Capture,
        }
    }
}

/// Whether a record breaks a rule by a time that is not valid.
pub(crate) fn is_of_time(broken: Broken) -> bool {
    broken.reason == Reason::InvalidCommandTime || broken.reason == Reason::InvalidReplyTime
}

/// Nothing can be said: memory was refused, the capture is not kept, or too much of it would have to be judged.
#[derive(Clone, Copy, PartialEq, Eq)]
pub struct Unasked;

impl From<AllocError> for Unasked {
    fn from(_: AllocError) -> Unasked {
        Unasked
    }
}
