//! Which break of a capture is drawn.

use block9::Reason;
use report9::{Extent, JudgeError, WhyNo};
use seen9::{ExplainedView, View};

/// The break that ended a part.
#[derive(Clone, Copy)]
pub(crate) struct PartEnd {
    /// The number of the record.
    pub(crate) at: u32,
    pub(crate) reason: Reason,
}

/// The break of a capture that is drawn, as a view that is also told why records break rules: the first, or the one at a record.
#[derive(Drop)]
pub struct Choice {
    /// The record at which the break is asked for; none where the first is.
    pub(crate) wanted: Option<u32>,
    /// Whether there is a break.
    pub(crate) is_broken: bool,
    /// The one that is drawn.
    pub(crate) why: Option<WhyNo>,
    /// The break that ended the part before it.
    pub(crate) before: Option<PartEnd>,
    /// The record that ends the part in which it is.
    ended_at: Option<u32>,
}

impl View for Choice {}

impl ExplainedView for Choice {
    fn why(&mut self, why: WhyNo, _is_shown: bool) -> Result<(), JudgeError> {
        let (at, reason) = match &why {
            WhyNo::Break { at, reason, .. } => (*at, *reason),
            WhyNo::Contradiction { at, .. } => (*at, Reason::NoRun),
        };
        self.is_broken = true;
        let is_late = reason == Reason::LateReply;
        if self.why.is_some() {
            if !is_late && self.ended_at.is_none() {
                self.ended_at = Some(at);
            }
        } else if self.wanted.unwrap_or(at) == at {
            self.why = Some(why);
        } else if !is_late {
            self.before = Some(PartEnd { at, reason });
        }
        Ok(())
    }
}

impl Choice {
    /// Of no break yet, of which the one at this record is wanted; the first where there is none.
    pub fn new(wanted: Option<u32>) -> Choice {
        Choice {
            wanted,
            is_broken: false,
            why: None,
            before: None,
            ended_at: None,
        }
    }

    /// The last record that was judged of the part in which the chosen break is, at this record by this reason. A late reply ends no
    /// part where the whole capture is judged.
    pub(crate) fn judged_to(&self, extent: Extent, at: u32, reason: Reason) -> u32 {
        match (extent, reason) {
            (Extent::WholeCapture, Reason::LateReply) => self.ended_at.unwrap_or(u32::MAX),
            _ => at,
        }
    }
}
