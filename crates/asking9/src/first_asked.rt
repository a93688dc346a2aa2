//! The first break of a capture after which there is something to ask, where it is judged over all parts.

use crate::came::{End, first_end};
use crate::piece::Piece;
use crate::question::{Asked, PartStart, Question, Unasked};
use deck9::Profile;
use program9::{Broken, is_worth_asking, text_again};
use report9::{JudgeError, Stretch};
use seen9::{SeenBreak, SeenExchange, View, ViewOf};
use show9::show;
use std::alloc::Global;
use std::io::Read;

/// What is followed of a judging to find it.
#[derive(Drop)]
pub struct FirstAsked {
    /// The break, once it came.
    pub found: Option<Asked>,
    /// Where the part begins that is judged.
    start: PartStart,
    /// Whether that is known by an exchange of it.
    is_begun: bool,
}

impl FirstAsked {
    /// Before anything was judged.
    pub fn new() -> FirstAsked {
        FirstAsked {
            found: None,
            start: PartStart::Capture,
            is_begun: false,
        }
    }

    /// Takes the next exchange: the first of a part tells where it begins.
    pub fn take_exchange(&mut self, seen: &SeenExchange<'_>) {
        if !self.is_begun {
            self.start = PartStart::At(seen.first);
            self.is_begun = true;
        }
    }

    /// Takes the next break, which is no late reply.
    pub fn take_break(&mut self, broken: &SeenBreak) {
        if self.found.is_none() && is_worth_asking(broken.reason) {
            self.found = Some(Asked {
                broken: Broken {
                    at: broken.at,
                    reason: broken.reason,
                },
                start: self.start,
            });
        }
        self.start = PartStart::FromBreak(broken.at);
        self.is_begun = false;
    }
}

impl View for FirstAsked {
    fn exchange(&mut self, seen: &SeenExchange<'_>) -> Result<(), JudgeError> {
        self.take_exchange(seen);
        Ok(())
    }

    /// Once it is found the judging ends, as after a write that failed.
    fn broken(&mut self, broken: &SeenBreak) -> Result<(), JudgeError> {
        self.take_break(broken);
        match self.found {
            Some(_) => Err(JudgeError::Write),
            None => Ok(()),
        }
    }
}

/// The first break of a capture that is judged over all parts; none where there is nothing to ask after any. Most often it is the first of
/// all, and judging to that costs less.
pub(crate) fn first_asked<R: Read + Drop>(
    alloc: Global,
    question: &Question<'_>,
    profile: &Profile,
) -> Result<Option<Asked>, Unasked> {
    let whole = Piece::whole(question.text, question.scope.beginning);
    match first_end::<R>(alloc, whole, profile)? {
        End::Broken(broken) if is_worth_asking(broken.reason) => Ok(Some(Asked::of_first(broken))),
        End::Yes => Ok(None),
        _ => first_shown::<R>(alloc, question, profile),
    }
}

/// The same, of all that is shown of the parts.
fn first_shown<R: Read + Drop>(
    alloc: Global,
    question: &Question<'_>,
    profile: &Profile,
) -> Result<Option<Asked>, Unasked> {
    let mut first = FirstAsked::new();
    let of = ViewOf {
        scope: question.scope,
        stretch: Stretch::ALL,
        profile,
    };
    match show(alloc, text_again::<R>(question.text), &mut first, of) {
        Err(JudgeError::OutOfMemory) => Err(Unasked),
        _ => Ok(first.found),
    }
}
