//! A span: the frames from a first to a last one, within a day.

ghost use Rattle.std.specs.Prelude.{◌≡◌, ◌≤◌, ◌<◌};
ghost use Rattle.tc25.specs.Day.{longest_day};
ghost use Rattle.sets25.specs.Spans.{in_span};
ghost use Rattle.sets25.specs.Working.SpanMoves.{point, shifted_span, widened_span};

use crate::direction::Direction;
use tc25::Rate;

/// The frames from `first` to `last`, both included.
#[derive(Clone, Copy, PartialEq, Eq)]
pub(crate) struct Span {
    pub(crate) first: u32,
    pub(crate) last: u32,
}

impl Span {
    /// The span of one frame.
    pub(crate) fn of(frame: u32) -> Span
        ensures { result ≡ point frame }
    {
        Span {
            first: frame,
            last: frame,
        }
    }

    /// Whether a frame is in the span.
    pub(crate) fn contains(self, frame: u32) -> bool
        ensures { result ≡ in_span frame self }
    {
        self.first <= frame && frame <= self.last
    }

    /// The span one frame on or back. What leaves the day is cut off.
    pub(crate) fn shifted(self, direction: Direction, rate: Rate) -> Span
        requires ordered { self.first ≤ self.last }
        requires in_day { self.last < longest_day }
        ensures { result ≡ shifted_span rate direction self }
    {
        match direction {
            Direction::Next => Span {
                first: self.first + 1,
                last: (self.last + 1).min(rate.last_frame()),
            },
            Direction::Prev => Span {
                first: self.first.saturating_sub(1),
                last: self.last.saturating_sub(1),
            },
        }
    }

    /// The span with the neighbour on one side, where that is in the day.
    pub(crate) fn widened(self, direction: Direction, rate: Rate) -> Span
        requires { self.last < longest_day }
        ensures { result ≡ widened_span rate direction self }
    {
        match direction {
            Direction::Next => Span {
                first: self.first,
                last: (self.last + 1).min(rate.last_frame()),
            },
            Direction::Prev => Span {
                first: self.first.saturating_sub(1),
                last: self.last,
            },
        }
    }
}
