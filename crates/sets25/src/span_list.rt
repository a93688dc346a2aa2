//! A list of spans, kept in short lists, so that a span is put among many others by a move of few.

ghost use Rattle.std.specs.Prelude.{◌≡◌, ◌≤◌, ◌<◌, ◌+◌, ◌++◌, ◌==◌, ◌||◌, ℕ, [], ◌∷◌, if◌then◌else◌, length, take, drop, slice_get, slice_index_or, slice_set, IfOk, OnOk, OnErr, List, MatchOption};
ghost use Rattle.tc25.specs.Day.{day, longest_day};
ghost use Rattle.sets25.specs.ShortLists.{end_to_end, lists_in, AllFilled, AllFilled-prop};
ghost use Rattle.sets25.specs.Spans.{AreSpansOfDay, in_span, is_covered, IsCanonical, IsSpan};
ghost use Rattle.sets25.specs.Working.Moves.{moved_from};
ghost use Rattle.sets25.specs.Working.ShortLists.{begin_of, ended_at, meet, only_span, IsListPlace};
ghost use Rattle.sets25.specs.Working.SpanLists.{with_frame};
ghost use Rattle.sets25.specs.Working.SpanMoves.{point};
ghost use Rattle.sets25.specs.declared.span.Span.{Span};

use crate::direction::Direction;
use crate::span::Span;
use crate::spans;
use std::alloc::{AllocError, Global};
use tc25::Rate;

/// A list of so many spans is cut in halves before one more is added to it.
///
/// A vector doubles its room, so one whose length is a power of two has no room unused.
const LONGEST: usize = 512;

/// Spans in ascending order: those of one list, and then those of each of the rest.
///
/// Most sets have few spans, and so one list. How the spans are cut into lists matters for speed alone.
#[derive(Drop)]
pub(crate) struct SpanList {
    first: Vec<Span>,
    rest: Vec<Vec<Span>>,
    ghost begun: { 0 < length rest.items → 0 < length first.items },
    ghost filled: { AllFilled (lists_in rest.items) } by { AllFilled-prop (lists_in rest.items) },
}

impl SpanList {
    ghost use Rattle.sets25.specs.SpanList.{lists_of, spans_of};

    /// These spans, in one list.
    pub(crate) fn from_spans(spans: Vec<Span>) -> SpanList
        ensures { spans_of result ≡ spans.items }
    {
        let rest = Vec::new(*spans.allocator());
        SpanList { first: spans, rest }
    }

    /// Whether there is no span.
    pub(crate) fn is_empty(&self) -> bool
        ensures { result ≡ (length (spans_of self.now) == 0) }
    {
        self.first.is_empty()
    }

    /// The number of spans. It takes a step for each list.
    pub(crate) fn len(&self) -> usize
        requires { IsCanonical 0 (spans_of self.now) }
        ensures { result ≡ length (spans_of self.now) }
    {
        let mut count = self.first.len();
        for list in &self.rest {
            count += list.len();
        }
        count
    }

    /// The first span, if there is one.
    pub(crate) fn first(&self) -> Option<Span>
        ensures { result ≡ slice_get (spans_of self.now) 0 }
    {
        match self.first.first() {
            Some(span) => Some(*span),
            None => None,
        }
    }

    /// The span, if there is exactly one.
    pub(crate) fn only(&self) -> Option<Span>
        ensures { result ≡ only_span (spans_of self.now) }
    {
        if self.first.len() == 1 && self.rest.is_empty() {
            Some(self.first[0])
        } else {
            None
        }
    }

    /// Whether a frame is in a span.
    pub(crate) fn contains(&self, frame: u32) -> bool
        requires { IsCanonical 0 (spans_of self.now) }
        ensures { result ≡ is_covered frame (spans_of self.now) }
    {
        let place = self.place_of(frame);
        spans::contains(self.list(place), frame)
    }

    /// A copy, in short lists of the same lengths.
    pub(crate) fn copy(&self) -> Result<SpanList, AllocError>
        ensures { IfOk result (λ l. lists_of l ≡ lists_of self.now) }
    {
        let alloc = *self.first.allocator();
        let first = Vec::from_slice(alloc, &self.first)?;
        let mut rest = Vec::with_capacity(alloc, self.rest.len())?;
        for list in &self.rest {
            rest.push(Vec::from_slice(alloc, list)?)?;
        }
        Ok(SpanList { first, rest })
    }

    /// Adds a frame: to a span that it touches, or as a span of its own.
    pub(crate) fn add(&mut self, frame: u32) -> Result<(), AllocError>
        requires canonical { IsCanonical 0 (spans_of self.old) }
        requires in_day { frame < longest_day }
        ensures canonical { IsCanonical 0 (spans_of self.new) }
        ensures ok { OnOk result (spans_of self.new ≡ with_frame frame (spans_of self.old)) }
        ensures err { OnErr result (spans_of self.new ≡ spans_of self.old) }
    {
        let full = self.place_of(frame);
        self.cut(full)?;
        let place = self.place_of(frame);
        self.add_at(place, frame)?;
        self.join(place);
        Ok(())
    }

    /// Adds the frames of a span. Where memory is refused, it may have added some of them.
    pub(crate) fn add_span(&mut self, span: Span) -> Result<(), AllocError>
        requires canonical { IsCanonical 0 (spans_of self.old) }
        requires in_day { IsSpan span }
        ensures canonical { IsCanonical 0 (spans_of self.new) }
        ensures ok { OnOk result ((f : ℕ) → is_covered f (spans_of self.new) ≡ (in_span f span || is_covered f (spans_of self.old))) }
    {
        for frame in span.first..span.last + 1 {
            self.add(frame)?;
        }
        Ok(())
    }

    /// Adds the frames of another list. Where memory is refused, it may have added some of them.
    pub(crate) fn add_all(&mut self, other: &SpanList) -> Result<(), AllocError>
        requires canonical { IsCanonical 0 (spans_of self.old) }
        requires others { IsCanonical 0 (spans_of other.now) }
        ensures canonical { IsCanonical 0 (spans_of self.new) }
        ensures ok { OnOk result ((f : ℕ) → is_covered f (spans_of self.new) ≡ (is_covered f (spans_of other.now) || is_covered f (spans_of self.old))) }
    {
        for span in &other.as_one()? {
            self.add_span(*span)?;
        }
        Ok(())
    }

    /// Moves each frame by one, round the day.
    #[inline(always)] // the loop over the spans is then one for each direction
    pub(crate) fn shift(&mut self, direction: Direction, rate: Rate) -> Result<(), AllocError>
        requires canonical { IsCanonical 0 (spans_of self.old) }
        requires of_day { AreSpansOfDay rate (spans_of self.old) }
        ensures canonical { IsCanonical 0 (spans_of self.new) }
        ensures of_day { AreSpansOfDay rate (spans_of self.new) }
        ensures ok { OnOk result ((f : ℕ) → f < day rate → is_covered f (spans_of self.new) ≡ is_covered (moved_from rate direction f) (spans_of self.old)) }
        ensures err { OnErr result (spans_of self.new ≡ spans_of self.old) }
    {
        self.gather()?;
        spans::shift(&mut self.first, direction, rate)
    }

    /// Adds the neighbour of each frame, round the day.
    #[inline(always)] // the loop over the spans is then one for each direction
    pub(crate) fn widen(&mut self, direction: Direction, rate: Rate) -> Result<(), AllocError>
        requires canonical { IsCanonical 0 (spans_of self.old) }
        requires of_day { AreSpansOfDay rate (spans_of self.old) }
        ensures canonical { IsCanonical 0 (spans_of self.new) }
        ensures of_day { AreSpansOfDay rate (spans_of self.new) }
        ensures ok { OnOk result ((f : ℕ) → f < day rate → is_covered f (spans_of self.new) ≡ (is_covered f (spans_of self.old) || is_covered (moved_from rate direction f) (spans_of self.old))) }
        ensures err { OnErr result (spans_of self.new ≡ spans_of self.old) }
    {
        self.gather()?;
        spans::widen(&mut self.first, direction, rate)
    }

    /// The place of the list that a frame goes into: of the last that begins at the frame or before,
    /// or of the first. The list at place 0 is `first`, and at place `n` the one before `rest[n]`.
    fn place_of(&self, frame: u32) -> usize
        requires { IsCanonical 0 (spans_of self.now) }
        ensures { IsListPlace frame (lists_of self.now) result }
    {
        self.rest.partition_point(|list| begin_of(list) <= frame)
    }

    /// The list at a place.
    fn list(&self, place: usize) -> &[Span]
        requires { place ≤ length self.now.rest.items }
        ensures { result.now ≡ slice_index_or (lists_of self.now) place [] }
    {
        match place.checked_sub(1) {
            Some(index) => &self.rest[index],
            None => &self.first,
        }
    }

    /// The spans of all lists in one.
    #[inline(never)] // else a shift of one list is long
    fn as_one(&self) -> Result<Vec<Span>, AllocError>
        requires { IsCanonical 0 (spans_of self.now) }
        ensures { IfOk result (λ v. v.items ≡ spans_of self.now) }
    {
        let mut all = Vec::with_capacity(*self.first.allocator(), self.len())?;
        all.extend_from_slice(&self.first)?;
        for list in &self.rest {
            all.extend_from_slice(list)?;
        }
        Ok(all)
    }

    /// Puts all spans into one list.
    fn gather(&mut self) -> Result<(), AllocError>
        requires { IsCanonical 0 (spans_of self.old) }
        ensures same { spans_of self.new ≡ spans_of self.old }
        ensures one { OnOk result (self.new.rest.items ≡ []) }
    {
        if self.rest.is_empty() {
            return Ok(());
        }
        self.first = self.as_one()?;
        self.rest.clear();
        Ok(())
    }

    /// Cuts the list at a place in halves, if it is long.
    fn cut(&mut self, place: usize) -> Result<(), AllocError>
        requires { place ≤ length self.old.rest.items }
        ensures { spans_of self.new ≡ spans_of self.old }
    {
        let list = self.list(place);
        if list.len() < LONGEST {
            return Ok(());
        }
        let half = list.len() / 2;
        let upper = Vec::from_slice(*self.first.allocator(), &list[half..])?;
        self.rest.insert(place, upper)?;
        self.shorten(place, half);
        Ok(())
    }

    /// Keeps the first spans of the list at a place.
    fn shorten(&mut self, place: usize, count: usize)
        requires at { place ≤ length self.old.rest.items }
        requires some { (0 < count) × (count ≤ length (slice_index_or (lists_of self.old) place [])) }
        ensures { lists_of self.new ≡ slice_set (lists_of self.old) place (take count (slice_index_or (lists_of self.old) place [])) }
    {
        match place.checked_sub(1) {
            Some(index) => shorten(&mut self.rest[index], count),
            None => shorten(&mut self.first, count),
        }
    }

    /// Adds a frame to the list at a place.
    fn add_at(&mut self, place: usize, frame: u32) -> Result<(), AllocError>
        requires at { place ≤ length self.old.rest.items }
        requires canonical { IsCanonical 0 (slice_index_or (lists_of self.old) place []) }
        requires in_day { frame < longest_day }
        ensures ok { OnOk result (lists_of self.new ≡ slice_set (lists_of self.old) place (with_frame frame (slice_index_or (lists_of self.old) place []))) }
        ensures err { OnErr result (lists_of self.new ≡ lists_of self.old) }
    {
        match place.checked_sub(1) {
            Some(index) => spans::add(&mut self.rest[index], frame),
            None => spans::add(&mut self.first, frame),
        }
    }

    /// Joins the last span of the list at a place to the first of the next list, where they touch.
    fn join(&mut self, place: usize)
        requires at { place ≤ length self.old.rest.items }
        requires canonical { IsCanonical 0 (slice_index_or (lists_of self.old) place []) }
        requires some { 0 < length (slice_index_or (lists_of self.old) place []) }
        ensures { spans_of self.new ≡ end_to_end (take place (lists_of self.old)) ++ meet (slice_index_or (lists_of self.old) place []) (end_to_end (drop (place + 1) (lists_of self.old))) }
    {
        if place < self.rest.len() {
            if let Some(last) = meeting(self.list(place), self.list(place + 1)) {
                self.end_at(place, last);
                self.drop_first(place);
            }
        }
    }

    /// Lets the last span of the list at a place end at a frame.
    fn end_at(&mut self, place: usize, last: u32)
        requires at { place ≤ length self.old.rest.items }
        ensures { lists_of self.new ≡ slice_set (lists_of self.old) place (ended_at last (slice_index_or (lists_of self.old) place [])) }
    {
        match place.checked_sub(1) {
            Some(index) => end_at(&mut self.rest[index], last),
            None => end_at(&mut self.first, last),
        }
    }

    /// Drops the first span of `rest[index]`, and the list where that was all.
    fn drop_first(&mut self, index: usize)
        requires { index < length self.old.rest.items }
        ensures { spans_of self.new ≡ end_to_end (take (index + 1) (lists_of self.old)) ++ drop 1 (end_to_end (drop (index + 1) (lists_of self.old))) }
    {
        if self.rest[index].len() == 1 {
            self.rest.remove(index);
        } else {
            self.rest[index].remove(0);
        }
    }
}

/// Where a list begins, or 0 where it is empty.
fn begin_of(list: &[Span]) -> u32
    ensures { result ≡ begin_of list.now }
{
    match list.first() {
        Some(span) => span.first,
        None => 0,
    }
}

/// Where the last span of a list touches the first of the next, the frame at which that one ends.
fn meeting(list: &[Span], next: &[Span]) -> Option<u32>
    requires canonical { IsCanonical 0 list.now }
    requires some { (0 < length list.now) × (0 < length next.now) }
    ensures { (spans : List Span) → MatchOption result (meet list.now (next.now ++ spans) ≡ list.now ++ (next.now ++ spans)) (λ last. meet list.now (next.now ++ spans) ≡ ended_at last list.now ++ drop 1 (next.now ++ spans)) }
{
    let last = list[list.len() - 1];
    let first = next[0];
    if first.first <= last.last + 1 {
        Some(first.last)
    } else {
        None
    }
}

/// Keeps the first spans of a list, and gives back the room of the others.
fn shorten(list: &mut Vec<Span>, count: usize)
    ensures { list.new.items ≡ take count list.old.items }
{
    list.truncate(count);
    list.shrink_to_fit();
}

/// Lets the last span of a list end at a frame.
fn end_at(list: &mut Vec<Span>, last: u32)
    ensures { list.new.items ≡ ended_at last list.old.items }
{
    if let Some(index) = list.len().checked_sub(1) {
        list[index].last = last;
    }
}
