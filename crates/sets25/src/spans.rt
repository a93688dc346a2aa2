//! Lists of spans in canonical form: the work of a `SpanSet`, in place.

ghost use Rattle.std.specs.Prelude.{◌≡◌, ◌≤◌, ◌<◌, ◌+◌, ◌++◌, ◌||◌, ℕ, false, [], ◌∷◌, if◌then◌else◌, length, map, take, drop, vec_len, vec_capacity, OnOk, OnErr};
ghost use Rattle.tc25.specs.Day.{day, longest_day};
ghost use Rattle.sets25.specs.Working.Moves.{moved_from};
ghost use Rattle.sets25.specs.Working.SpanMoves.{point, shifted_span, widened_span};
ghost use Rattle.sets25.specs.Spans.{AreSpansOfDay, is_covered, IsSpan, IsCanonical};
ghost use Rattle.sets25.specs.Working.SpanLists.{IsPlace, glue, joined, with_frame, without_edge};

use crate::direction::Direction;
use crate::span::Span;
use std::alloc::AllocError;
use tc25::Rate;

/// Whether a frame is in a span of the list.
pub(crate) fn contains(spans: &[Span], frame: u32) -> bool
    requires { IsCanonical 0 spans.now }
    ensures { result ≡ is_covered frame spans.now }
{
    let index = place_of(spans, frame);
    index < spans.len() && spans[index].first <= frame
}

/// Adds a frame: to a span that it touches, or as a span of its own.
pub(crate) fn add(spans: &mut Vec<Span>, frame: u32) -> Result<(), AllocError>
    requires canonical { IsCanonical 0 spans.old.items }
    requires in_day { frame < longest_day }
    ensures canonical { IsCanonical 0 spans.new.items }
    ensures ok { OnOk result (spans.new.items ≡ with_frame frame spans.old.items) }
    ensures err { OnErr result (spans.new.items ≡ spans.old.items) }
    ensures full { OnErr result (vec_capacity spans.old ≤ vec_len spans.old) }
    ensures apart { OnErr result ((f : ℕ) → frame ≤ f + 1 → f ≤ frame + 1 → is_covered f spans.old.items ≡ false) }
{
    let index = place_of(spans, frame.saturating_sub(1));
    if index < spans.len() && spans[index].first <= frame + 1 {
        let span = spans[index];
        let grown = Span {
            first: span.first.min(frame),
            last: span.last.max(frame),
        };
        put_joined(spans, index, grown);
    } else {
        spans.insert(index, Span::of(frame))?;
    }
    Ok(())
}

/// The index of the first span that ends at `frame` or later, by binary search.
fn place_of(spans: &[Span], frame: u32) -> usize
    requires { IsCanonical 0 spans.now }
    ensures { IsPlace frame spans.now result }
{
    spans.partition_point(|span| span.last < frame)
}

/// Replaces a span, and joins it to the one after it where they touch.
fn put_joined(spans: &mut Vec<Span>, index: usize, span: Span)
    requires in_list { index < length spans.old.items }
    requires in_day { span.last < longest_day }
    ensures { spans.new.items ≡ take index spans.old.items ++ glue span (drop (index + 1) spans.old.items) }
{
    if index + 1 < spans.len() && spans[index + 1].first <= span.last + 1 {
        let after = spans.remove(index + 1);
        spans[index] = Span {
            first: span.first,
            last: after.last,
        };
    } else {
        spans[index] = span;
    }
}

/// Moves each frame by one, round the day.
pub(crate) fn shift(
    spans: &mut Vec<Span>,
    direction: Direction,
    rate: Rate,
) -> Result<(), AllocError>
    requires canonical { IsCanonical 0 spans.old.items }
    requires of_day { AreSpansOfDay rate spans.old.items }
    ensures canonical { IsCanonical 0 spans.new.items }
    ensures of_day { AreSpansOfDay rate spans.new.items }
    ensures ok { OnOk result ((f : ℕ) → f < day rate → is_covered f spans.new.items ≡ is_covered (moved_from rate direction f) spans.old.items) }
    ensures err { OnErr result (spans.new.items ≡ spans.old.items) }
{
    if !contains(spans, direction.edge(rate)) {
        shift_within(spans, direction, rate);
        return Ok(());
    }
    let far_edge = direction.far_edge(rate);
    if !contains(spans, far_edge) {
        spans.reserve(1)?;
    }
    shift_within(spans, direction, rate);
    add(spans, far_edge)
}

/// Adds the neighbour of each frame, round the day.
pub(crate) fn widen(
    spans: &mut Vec<Span>,
    direction: Direction,
    rate: Rate,
) -> Result<(), AllocError>
    requires canonical { IsCanonical 0 spans.old.items }
    requires of_day { AreSpansOfDay rate spans.old.items }
    ensures canonical { IsCanonical 0 spans.new.items }
    ensures of_day { AreSpansOfDay rate spans.new.items }
    ensures ok { OnOk result ((f : ℕ) → f < day rate → is_covered f spans.new.items ≡ (is_covered f spans.old.items || is_covered (moved_from rate direction f) spans.old.items)) }
    ensures err { OnErr result (spans.new.items ≡ spans.old.items) }
{
    if !contains(spans, direction.edge(rate)) || contains(spans, direction.far_edge(rate)) {
        widen_within(spans, direction, rate);
        return Ok(());
    }
    spans.reserve(1)?;
    widen_within(spans, direction, rate);
    add(spans, direction.far_edge(rate))
}

/// Moves each frame by one. A frame that would leave the day is let go.
fn shift_within(spans: &mut Vec<Span>, direction: Direction, rate: Rate)
    requires canonical { IsCanonical 0 spans.old.items }
    requires of_day { AreSpansOfDay rate spans.old.items }
    ensures shifted { spans.new.items ≡ map (shifted_span rate direction) (without_edge rate direction spans.old.items) }
    ensures of_day { AreSpansOfDay rate spans.new.items }
    ensures len { vec_len spans.new ≤ vec_len spans.old }
    ensures capacity { vec_capacity spans.new ≡ vec_capacity spans.old }
{
    drop_edge(spans, direction, rate);
    shift_all(spans.as_mut_slice(), direction, rate);
}

/// Adds the neighbour of each frame, where that is within the day.
fn widen_within(spans: &mut Vec<Span>, direction: Direction, rate: Rate)
    requires canonical { IsCanonical 0 spans.old.items }
    requires of_day { AreSpansOfDay rate spans.old.items }
    ensures widened { spans.new.items ≡ joined (map (widened_span rate direction) spans.old.items) }
    ensures of_day { AreSpansOfDay rate spans.new.items }
    ensures len { vec_len spans.new ≤ vec_len spans.old }
    ensures capacity { vec_capacity spans.new ≡ vec_capacity spans.old }
{
    let kept = widen_all(spans.as_mut_slice(), direction, rate);
    spans.truncate(kept);
}

/// Drops the span, if there is one, that would wholly leave the day.
fn drop_edge(spans: &mut Vec<Span>, direction: Direction, rate: Rate)
    requires canonical { IsCanonical 0 spans.old.items }
    requires of_day { AreSpansOfDay rate spans.old.items }
    ensures dropped { spans.new.items ≡ without_edge rate direction spans.old.items }
    ensures canonical { IsCanonical 0 spans.new.items }
    ensures len { vec_len spans.new ≤ vec_len spans.old }
    ensures capacity { vec_capacity spans.new ≡ vec_capacity spans.old }
{
    let count = spans.len();
    if count == 0 {
        return;
    }
    match direction {
        Direction::Next => {
            if spans[count - 1].first == rate.last_frame() {
                spans.truncate(count - 1);
            }
        }
        Direction::Prev => {
            if spans[0].last == 0 {
                spans.remove(0);
            }
        }
    }
}

/// Moves each span by one frame.
fn shift_all(spans: &mut [Span], direction: Direction, rate: Rate)
    requires { IsCanonical 0 spans.old }
    ensures { spans.new ≡ map (shifted_span rate direction) spans.old }
{
    for span in spans.iter_mut() {
        *span = span.shifted(direction, rate);
    }
}

/// Widens each span by one frame and joins those that then touch.
///
/// Answers how many spans are left, at the front of the slice.
fn widen_all(spans: &mut [Span], direction: Direction, rate: Rate) -> usize
    requires { IsCanonical 0 spans.old }
    ensures fits { result ≤ length spans.new }
    ensures widened { take result spans.new ≡ joined (map (widened_span rate direction) spans.old) }
{
    if spans.is_empty() {
        return 0;
    }
    let mut current = spans[0].widened(direction, rate);
    let mut kept = 0;
    for index in 1..spans.len() {
        let span = spans[index].widened(direction, rate);
        if span.first <= current.last + 1 {
            current.last = span.last;
        } else {
            spans[kept] = current;
            kept += 1;
            current = span;
        }
    }
    spans[kept] = current;
    kept + 1
}
