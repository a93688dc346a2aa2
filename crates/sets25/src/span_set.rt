//! A set of times as a sorted list of spans.

ghost use Rattle.sets25.specs.HeldSpans.{spans_held};
ghost use Rattle.sets25.specs.Spans.{AreSpansOfDay, AreSpansOfDay-prop, IsCanonical, IsCanonical-prop};

use crate::direction::Direction;
use crate::held_spans::HeldSpans;
use crate::span::Span;
use crate::time_set::TimeSet;
use std::alloc::{AllocError, Global};
use tc25::{Rate, TimeCode};

/// A set of times as its spans, in ascending order. One of at most one span takes no memory.
///
/// Each span begins at least two frames above the end of the one before, so a set has one list of
/// spans. The last frame of the day and frame 0 are in one span only where that is the whole day.
#[derive(Drop)]
pub struct SpanSet {
    alloc: Global,
    spans: HeldSpans,
    rate: Rate,
    ghost canonical: { IsCanonical 0 (spans_held spans) } by { IsCanonical-prop 0 (spans_held spans) },
    ghost of_day: { AreSpansOfDay rate (spans_held spans) } by { AreSpansOfDay-prop rate (spans_held spans) },
}

impl SpanSet {
    ghost use Rattle.std.specs.Prelude.{◌≡◌, IfOk};
    ghost use Rattle.std.specs.FinSet as set;
    ghost use Rattle.sets25.specs.SpanSet.{members_of};
    ghost use Rattle.sets25.specs.Times.{span_count};

    /// The number of spans: of members that are frame 0 or whose frame before is no member.
    ///
    /// Takes no memory.
    pub fn spans(&self) -> usize
        ensures { result ≡ span_count (members_of self.now) }
    {
        self.spans.len()
    }

    /// Where its memory comes from.
    pub(crate) fn allocator(&self) -> Global {
        self.alloc
    }

    /// The set with the members of another one, of times of the same day.
    pub(crate) fn with_all(self, other: &SpanSet) -> Result<SpanSet, AllocError>
        requires { other.now.rate ≡ self.rate }
        ensures members { IfOk result (λ s. members_of s ≡ set.union (members_of self) (members_of other.now)) }
        ensures rate { IfOk result (λ s. s.rate ≡ self.rate) }
    {
        let SpanSet {
            alloc,
            mut spans,
            rate,
        } = self;
        spans.add_all(alloc, &other.spans)?;
        Ok(SpanSet { alloc, spans, rate })
    }
}

impl TimeSet for SpanSet {
    ghost use Rattle.std.specs.Prelude.{◌≡◌, ◌<◌, ℕ, true};
    ghost use Rattle.std.specs.FinSet as set;
    ghost use Rattle.tc25.specs.Day.{day};
    ghost use Rattle.sets25.specs.SpanSet.{members_of};
    ghost use Rattle.sets25.specs.Working.TimesWhere.{times_where_below};

    ghost members = { members_of };

    ghost own_rate = { λ s. s.rate };

    fn none_at(alloc: Global, rate: Rate) -> Self {
        SpanSet {
            alloc,
            spans: HeldSpans::none(),
            rate,
        }
    }

    fn all_at(alloc: Global, rate: Rate) -> Result<Self, AllocError> {
        let day = Span {
            first: 0,
            last: rate.last_frame(),
        };
        Ok(SpanSet {
            alloc,
            spans: HeldSpans::one(day),
            rate,
        })
    }

    fn one_at(alloc: Global, rate: Rate, time: TimeCode) -> Result<Self, AllocError> {
        let frame = time.frames();
        if frame >= rate.frames_in_day() {
            return Ok(SpanSet::none_at(alloc, rate));
        }
        Ok(SpanSet {
            alloc,
            spans: HeldSpans::one(Span::of(frame)),
            rate,
        })
    }

    fn rate(&self) -> Rate {
        self.rate
    }

    fn contains(&self, time: TimeCode) -> bool {
        self.spans.contains(time.frames())
    }

    fn is_empty(&self) -> bool {
        self.spans.is_empty()
    }

    fn only(&self) -> Option<TimeCode> {
        let Some(span) = self.spans.only() else {
            return None;
        };
        if span.first == span.last {
            TimeCode::from_frames_at(self.rate, span.first)
        } else {
            None
        }
    }

    fn least(&self) -> Option<TimeCode> {
        match self.spans.first() {
            Some(span) => TimeCode::from_frames_at(self.rate, span.first),
            None => None,
        }
    }

    fn shift_next(&mut self) -> Result<(), AllocError> {
        self.spans.shift(self.alloc, Direction::Next, self.rate)
    }

    fn shift_prev(&mut self) -> Result<(), AllocError> {
        self.spans.shift(self.alloc, Direction::Prev, self.rate)
    }

    fn widen_next(&mut self) -> Result<(), AllocError> {
        self.spans.widen(self.alloc, Direction::Next, self.rate)
    }

    fn widen_prev(&mut self) -> Result<(), AllocError> {
        self.spans.widen(self.alloc, Direction::Prev, self.rate)
    }

    fn add(&mut self, time: TimeCode) -> Result<(), AllocError> {
        let frame = time.frames();
        if frame >= self.rate.frames_in_day() {
            return Ok(());
        }
        self.spans.add(self.alloc, frame)
    }

    fn keep_only(&mut self, time: TimeCode) -> Result<(), AllocError> {
        self.spans.keep_only(time.frames());
        Ok(())
    }

    fn copy(&self) -> Result<Self, AllocError> {
        Ok(SpanSet {
            alloc: self.alloc,
            spans: self.spans.copy()?,
            rate: self.rate,
        })
    }

    ghost below_day = { λ s. times_where_below _ _ };
}
