//! What a view is handed of a capture, one event after another.

use block9::{Command, Exchange, Reason};
use deck9::{Going, Knowledge, Profile};
use report9::{JudgeError, Scope, Stretch, Totals, Verdict, WhyNo};

/// An exchange, as it was seen on the line.
#[derive(Drop)]
pub struct SeenExchange<'a> {
    /// The number of its first record, counted from 1.
    pub first: u32,
    /// The number of its last record.
    pub last: u32,
    /// The time of its last record, in microseconds. That of the first is the exchange's own.
    pub end_us: u64,
    /// The command and the reply.
    pub exchange: &'a Exchange,
    /// What was known of the deck before it; none where nothing was: before the first exchange of a part.
    pub before: Option<Knowledge>,
    /// What is known of the deck after it.
    pub after: Knowledge,
    /// What the deck could do by itself before it: before the first exchange of a part, all that its sheet names.
    pub going_before: Going,
    /// What the deck may do by itself after it.
    pub going: Going,
    /// Whether it lies in the stretch that is shown.
    pub is_shown: bool,
}

/// A record that breaks a rule, and ends its part: nothing is known of the deck from here on. Or where a capture is judged over all
/// parts: a record with which a reply begins too late. Its part goes on.
#[derive(Clone, Copy, PartialEq, Eq)]
pub struct SeenBreak {
    /// The number of the record.
    pub at: u32,
    /// Its time, in microseconds.
    pub time_us: u64,
    /// The rule.
    pub reason: Reason,
    /// The command that is open, where its block is whole.
    pub open: Option<Command>,
    /// Where the rule is the reply limit: the time since the command's last record, in microseconds.
    pub delay_us: Option<u64>,
    /// Whether it lies in the stretch that is shown.
    pub is_shown: bool,
}

/// What a judging comes to in the end.
#[derive(Clone, Copy, PartialEq, Eq)]
pub enum Ending {
    /// The verdict, of a judging that ends at the first break. Of a no the view was told as a break.
    Verdict(Verdict),
    /// The totals, of a judging that goes on after each break.
    Totals(Totals),
}

/// What a view is made of: how far a capture is judged, what is shown of it, and what its deck is taken for.
#[derive(Clone, Copy)]
pub struct ViewOf<'a> {
    /// How far it is judged, and from where on.
    pub scope: Scope,
    /// What is shown of it.
    pub stretch: Stretch,
    /// What the deck is taken for.
    pub profile: &'a Profile,
}

/// Something that is made of the events of a capture. It passes over those that it does not name. After an error it is told of nothing
/// more.
pub trait View {
    /// An exchange came, with which a state of the deck remains.
    fn exchange(&mut self, _seen: &SeenExchange<'_>) -> Result<(), JudgeError> {
        Ok(())
    }

    /// A reply began too late, and its part goes on, unless the same record breaks another rule: that is told next.
    fn late(&mut self, _late: &SeenBreak) -> Result<(), JudgeError> {
        Ok(())
    }

    /// A record broke a rule, and ends a part.
    fn broken(&mut self, _broken: &SeenBreak) -> Result<(), JudgeError> {
        Ok(())
    }

    /// The judging came to its end.
    fn end(&mut self, _ending: &Ending) -> Result<(), JudgeError> {
        Ok(())
    }
}

/// A view that is also told why a record breaks a rule.
pub trait ExplainedView: View {
    /// Why the late reply or the break came that the view is told of next, and whether that lies in the stretch that is shown.
    fn why(&mut self, why: WhyNo, is_shown: bool) -> Result<(), JudgeError>;
}
