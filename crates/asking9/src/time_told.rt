//! The time that is not valid at a break, as its bytes.

use crate::piece::Piece;
use crate::question::{Asked, Question, Unasked, is_of_time};
use block9::{Open, Reason};
use capture9::LineByte;
use deck9::Profile;
use report9::{Beginning, Extent, JudgeError, Scope, Stretch, WhyNo};
use seen9::{ExplainedView, View, ViewOf};
use show9::show_explained;
use std::alloc::Global;
use std::io::Read;

/// So many records before a break hold the whole block that breaks.
const NEAR: u32 = 64;

/// The time that is not valid at the record that breaks, where that is why, by the records right before it.
pub(crate) fn time_at<R: Read + Drop>(
    alloc: Global,
    question: &Question<'_>,
    asked: &Asked,
) -> Result<Option<[u8; 4]>, Unasked> {
    let at = asked.broken.at;
    if !is_of_time(asked.broken) {
        return Ok(None);
    }
    let first = at.saturating_sub(NEAR).max(1);
    let beginning = if first == 1 {
        question.scope.beginning
    } else {
        Beginning::FirstCommand
    };
    match Piece::between(question.text, first, at, beginning) {
        Some(near) => last_time::<R>(alloc, near, question),
        None => Ok(None),
    }
}

/// The last time of a piece that is not valid.
fn last_time<R: Read + Drop>(
    alloc: Global,
    near: Piece<'_>,
    question: &Question<'_>,
) -> Result<Option<[u8; 4]>, Unasked> {
    let profile = Profile::at(question.rate, question.hands);
    let of = ViewOf {
        scope: Scope {
            extent: Extent::WholeCapture,
            beginning: near.beginning,
        },
        stretch: Stretch::ALL,
        profile: &profile,
    };
    let mut last = LastTime { bytes: None };
    match show_explained(alloc, near.reader::<R>(), &mut last, of) {
        Err(JudgeError::OutOfMemory) => Err(Unasked),
        _ => Ok(last.bytes),
    }
}

/// The last time that was not valid.
#[derive(Drop)]
struct LastTime {
    bytes: Option<[u8; 4]>,
}

impl View for LastTime {}

impl ExplainedView for LastTime {
    fn why(&mut self, why: WhyNo, _is_shown: bool) -> Result<(), JudgeError> {
        self.bytes = time_of(&why);
        Ok(())
    }
}

/// The time of a break, where it is not valid.
fn time_of(why: &WhyNo) -> Option<[u8; 4]> {
    match why {
        WhyNo::Break {
            reason: Reason::InvalidCommandTime | Reason::InvalidReplyTime,
            tail,
            open,
            ..
        } => time_in(tail.as_slice(), open),
        _ => None,
    }
}

/// The bytes of the time in the block that is open: behind the first two.
fn time_in(tail: &[LineByte], open: &Open) -> Option<[u8; 4]> {
    let before = if open.answered == 0 { 0 } else { open.asked };
    let time = tail.get(before..)?.get(2..6)?;
    Some([time[0].byte, time[1].byte, time[2].byte, time[3].byte])
}
