//! The spans of a set, which take no memory where there is at most one.

ghost use Rattle.std.specs.Prelude.{◌≡◌, ◌<◌, ◌==◌, ◌||◌, ℕ, [], ◌∷◌, if◌then◌else◌, length, slice_get, IfOk, OnOk, OnErr};
ghost use Rattle.sets25.specs.declared.held_spans.HeldSpans.TheVariants.{AtMostOne};
ghost use Rattle.tc25.specs.Day.{day, longest_day};
ghost use Rattle.sets25.specs.HeldSpans.{spans_held};
ghost use Rattle.sets25.specs.SpanList.{spans_of};
ghost use Rattle.sets25.specs.Spans.{AreSpansOfDay, is_covered, IsCanonical};
ghost use Rattle.sets25.specs.Working.Moves.{moved_from};
ghost use Rattle.sets25.specs.Working.ShortLists.{only_span};
ghost use Rattle.sets25.specs.Working.SpanLists.{with_frame};
ghost use Rattle.sets25.specs.Working.SpanMoves.{point};

use crate::direction::Direction;
use crate::span::Span;
use crate::span_list::SpanList;
use std::alloc::{AllocError, Global};
use std::mem::replace;
use tc25::Rate;

/// Spans in ascending order. Nearly all sets have one, and most others none.
#[derive(Drop)]
pub(crate) enum HeldSpans {
    AtMostOne(Option<Span>),
    List(SpanList),
}

impl HeldSpans {
    /// No span.
    pub(crate) fn none() -> HeldSpans
        ensures { spans_held result ≡ [] }
    {
        HeldSpans::AtMostOne(None)
    }

    /// One span.
    pub(crate) fn one(span: Span) -> HeldSpans
        ensures { spans_held result ≡ span ∷ [] }
    {
        HeldSpans::AtMostOne(Some(span))
    }

    /// Whether there is no span.
    pub(crate) fn is_empty(&self) -> bool
        ensures { result ≡ (length (spans_held self.now) == 0) }
    {
        match self {
            HeldSpans::AtMostOne(span) => span.is_none(),
            HeldSpans::List(list) => list.is_empty(),
        }
    }

    /// The number of spans.
    pub(crate) fn len(&self) -> usize
        requires { IsCanonical 0 (spans_held self.now) }
        ensures { result ≡ length (spans_held self.now) }
    {
        match self {
            HeldSpans::AtMostOne(Some(_)) => 1,
            HeldSpans::AtMostOne(None) => 0,
            HeldSpans::List(list) => list.len(),
        }
    }

    /// The first span, if there is one.
    pub(crate) fn first(&self) -> Option<Span>
        ensures { result ≡ slice_get (spans_held self.now) 0 }
    {
        match self {
            HeldSpans::AtMostOne(span) => *span,
            HeldSpans::List(list) => list.first(),
        }
    }

    /// The span, if there is exactly one.
    pub(crate) fn only(&self) -> Option<Span>
        ensures { result ≡ only_span (spans_held self.now) }
    {
        match self {
            HeldSpans::AtMostOne(span) => *span,
            HeldSpans::List(list) => list.only(),
        }
    }

    /// Whether a frame is in a span.
    pub(crate) fn contains(&self, frame: u32) -> bool
        requires { IsCanonical 0 (spans_held self.now) }
        ensures { result ≡ is_covered frame (spans_held self.now) }
    {
        match self {
            HeldSpans::AtMostOne(Some(span)) => span.contains(frame),
            HeldSpans::AtMostOne(None) => false,
            HeldSpans::List(list) => list.contains(frame),
        }
    }

    /// A copy.
    pub(crate) fn copy(&self) -> Result<HeldSpans, AllocError>
        ensures { IfOk result (λ held. spans_held held ≡ spans_held self.now) }
    {
        match self {
            HeldSpans::AtMostOne(span) => Ok(HeldSpans::AtMostOne(*span)),
            HeldSpans::List(list) => Ok(HeldSpans::List(list.copy()?)),
        }
    }

    /// Keeps one frame alone, where it is in a span, and else nothing. Takes no memory.
    pub(crate) fn keep_only(&mut self, frame: u32)
        requires { IsCanonical 0 (spans_held self.old) }
        ensures { spans_held self.new ≡ (if is_covered frame (spans_held self.old) then point frame ∷ [] else []) }
    {
        let kept = if self.contains(frame) {
            HeldSpans::one(Span::of(frame))
        } else {
            HeldSpans::none()
        };
        drop(replace(self, kept));
    }

    /// Adds a frame: to a span that it touches, or as a span of its own.
    pub(crate) fn add(&mut self, alloc: Global, frame: u32) -> Result<(), AllocError>
        requires canonical { IsCanonical 0 (spans_held self.old) }
        requires in_day { frame < longest_day }
        ensures canonical { IsCanonical 0 (spans_held self.new) }
        ensures ok { OnOk result (spans_held self.new ≡ with_frame frame (spans_held self.old)) }
        ensures err { OnErr result (spans_held self.new ≡ spans_held self.old) }
    {
        let mut list = self.take_list(alloc)?;
        let added = list.add(frame);
        drop(replace(self, HeldSpans::List(list)));
        added
    }

    /// Adds the frames of others. Where memory is refused, it may have added some of them.
    pub(crate) fn add_all(&mut self, alloc: Global, other: &HeldSpans) -> Result<(), AllocError>
        requires canonical { IsCanonical 0 (spans_held self.old) }
        requires others { IsCanonical 0 (spans_held other.now) }
        ensures canonical { IsCanonical 0 (spans_held self.new) }
        ensures ok { OnOk result ((f : ℕ) → is_covered f (spans_held self.new) ≡ (is_covered f (spans_held other.now) || is_covered f (spans_held self.old))) }
    {
        let mut list = self.take_list(alloc)?;
        let added = match other {
            HeldSpans::AtMostOne(Some(span)) => list.add_span(*span),
            HeldSpans::AtMostOne(None) => Ok(()),
            HeldSpans::List(other) => list.add_all(other),
        };
        drop(replace(self, HeldSpans::List(list)));
        added
    }

    /// Moves each frame by one, round the day.
    #[inline(always)] // the loop over the spans is then one for each direction
    pub(crate) fn shift(
        &mut self,
        alloc: Global,
        direction: Direction,
        rate: Rate,
    ) -> Result<(), AllocError>
        requires canonical { IsCanonical 0 (spans_held self.old) }
        requires of_day { AreSpansOfDay rate (spans_held self.old) }
        ensures canonical { IsCanonical 0 (spans_held self.new) }
        ensures of_day { AreSpansOfDay rate (spans_held self.new) }
        ensures ok { OnOk result ((f : ℕ) → f < day rate → is_covered f (spans_held self.new) ≡ is_covered (moved_from rate direction f) (spans_held self.old)) }
        ensures err { OnErr result (spans_held self.new ≡ spans_held self.old) }
    {
        if let HeldSpans::AtMostOne(Some(span)) = self {
            if !span.contains(direction.edge(rate)) {
                *span = span.shifted(direction, rate);
                return Ok(());
            }
            if span.contains(direction.far_edge(rate)) {
                return Ok(()); // it is the whole day
            }
        }
        let mut list = self.take_list(alloc)?;
        let shifted = list.shift(direction, rate);
        drop(replace(self, HeldSpans::List(list)));
        shifted
    }

    /// Adds the neighbour of each frame, round the day.
    #[inline(always)] // the loop over the spans is then one for each direction
    pub(crate) fn widen(
        &mut self,
        alloc: Global,
        direction: Direction,
        rate: Rate,
    ) -> Result<(), AllocError>
        requires canonical { IsCanonical 0 (spans_held self.old) }
        requires of_day { AreSpansOfDay rate (spans_held self.old) }
        ensures canonical { IsCanonical 0 (spans_held self.new) }
        ensures of_day { AreSpansOfDay rate (spans_held self.new) }
        ensures ok { OnOk result ((f : ℕ) → f < day rate → is_covered f (spans_held self.new) ≡ (is_covered f (spans_held self.old) || is_covered (moved_from rate direction f) (spans_held self.old))) }
        ensures err { OnErr result (spans_held self.new ≡ spans_held self.old) }
    {
        if let HeldSpans::AtMostOne(Some(span)) = self {
            if !span.contains(direction.edge(rate)) || span.contains(direction.far_edge(rate)) {
                *span = span.widened(direction, rate);
                return Ok(());
            }
        }
        let mut list = self.take_list(alloc)?;
        let widened = list.widen(direction, rate);
        drop(replace(self, HeldSpans::List(list)));
        widened
    }

    /// Takes the spans out as a list. Where memory is refused, they stay.
    fn take_list(&mut self, alloc: Global) -> Result<SpanList, AllocError>
        ensures ok { IfOk result (λ list. spans_of list ≡ spans_held self.old) }
        ensures err { OnErr result (self.new ≡ self.old) }
    {
        match replace(self, HeldSpans::none()) {
            HeldSpans::List(list) => Ok(list),
            HeldSpans::AtMostOne(span) => {
                let list = list_of(alloc, span);
                if list.is_err() {
                    *self = HeldSpans::AtMostOne(span);
                }
                list
            }
        }
    }
}

/// A list of at most one span.
fn list_of(alloc: Global, span: Option<Span>) -> Result<SpanList, AllocError>
    ensures { IfOk result (λ list. spans_of list ≡ spans_held (AtMostOne span)) }
{
    match span {
        Some(span) => Ok(SpanList::from_spans(Vec::from_slice(alloc, &[span])?)),
        None => Ok(SpanList::from_spans(Vec::new(alloc))),
    }
}
