//! Tests of sets: each call on examples of each kind, and the two plain kinds side by side.

use crate::tests::same;
use sets25::{ListSet, SpanSet, TimeSet};
use std::alloc::{AllocError, Global};
use std::process::Abort;
use std::test::Fail;
use tc25::TimeCode;

/// Frames round midnight and round noon, at which sets are compared.
pub(super) const FRAMES: [u32; 24] = [
    0, 1, 2, 3, 4, 5, 6, 7, 8, 9, 1_079_998, 1_079_999, 1_080_000, 1_080_001, 1_080_002, 2_159_991,
    2_159_992, 2_159_993, 2_159_994, 2_159_995, 2_159_996, 2_159_997, 2_159_998, 2_159_999,
];

/// A call that changes a set.
#[derive(Clone, Copy, Debug)]
pub(super) enum Call {
    ShiftNext,
    ShiftPrev,
    WidenNext,
    WidenPrev,
    Add(u32),
    KeepOnly(u32),
}

/// A set before and after a call, and the number of its spans then.
#[derive(Clone, Copy)]
struct Example {
    before: &'static [u32],
    call: Call,
    after: &'static [u32],
    spans: usize,
}

fn examples() -> [Example; 12] {
    [
        Example {
            before: &[5],
            call: Call::Add(7),
            after: &[5, 7],
            spans: 2,
        },
        Example {
            before: &[5, 7],
            call: Call::Add(6),
            after: &[5, 6, 7],
            spans: 1,
        },
        Example {
            before: &[5, 7],
            call: Call::Add(7),
            after: &[5, 7],
            spans: 2,
        },
        Example {
            before: &[1, 3],
            call: Call::WidenNext,
            after: &[1, 2, 3, 4],
            spans: 1,
        },
        Example {
            before: &[2, 4],
            call: Call::WidenPrev,
            after: &[1, 2, 3, 4],
            spans: 1,
        },
        Example {
            before: &[0],
            call: Call::WidenPrev,
            after: &[0, 2_159_999],
            spans: 2,
        },
        Example {
            before: &[2_159_999],
            call: Call::WidenNext,
            after: &[0, 2_159_999],
            spans: 2,
        },
        Example {
            before: &[2_159_998, 2_159_999],
            call: Call::ShiftNext,
            after: &[0, 2_159_999],
            spans: 2,
        },
        Example {
            before: &[0, 1],
            call: Call::ShiftPrev,
            after: &[0, 2_159_999],
            spans: 2,
        },
        Example {
            before: &[0, 2_159_999],
            call: Call::ShiftNext,
            after: &[0, 1],
            spans: 1,
        },
        Example {
            before: &[5, 7],
            call: Call::KeepOnly(6),
            after: &[],
            spans: 0,
        },
        Example {
            before: &[5, 6, 7],
            call: Call::KeepOnly(6),
            after: &[6],
            spans: 1,
        },
    ]
}

pub(super) fn time(frame: u32) -> TimeCode {
    TimeCode::from_frames(frame).unwrap_or_default()
}

pub(super) fn make_call<S: TimeSet>(set: &mut S, call: Call) -> Result<(), AllocError> {
    match call {
        Call::ShiftNext => set.shift_next(),
        Call::ShiftPrev => set.shift_prev(),
        Call::WidenNext => set.widen_next(),
        Call::WidenPrev => set.widen_prev(),
        Call::Add(frame) => set.add(time(frame)),
        Call::KeepOnly(frame) => set.keep_only(time(frame)),
    }
}

pub(super) fn set_of<S: TimeSet>(alloc: Global, frames: &[u32]) -> Result<S, AllocError> {
    let mut set = S::none(alloc);
    for frame in frames {
        set.add(time(*frame))?;
    }
    Ok(set)
}

/// Whether the members at the frames that are compared are the given ones.
pub(super) fn has_only<S: TimeSet>(set: &S, frames: &[u32]) -> bool {
    for frame in FRAMES {
        if set.contains(time(frame)) != frames.contains(&frame) {
            return false;
        }
    }
    true
}

fn follows_examples<S: TimeSet>(rt: &impl Abort, alloc: Global) -> Result<(), AllocError> {
    for example in examples() {
        let mut set: S = set_of(alloc, example.before)?;
        same(
            rt,
            has_only(&set, example.before),
            true,
            ("before", example.call),
        );
        make_call(&mut set, example.call)?;
        same(
            rt,
            has_only(&set, example.after),
            true,
            ("after", example.call),
        );
        same(rt, set.is_empty(), example.after.is_empty(), example.call);
    }
    Ok(())
}

/// Holds that a set has no other members at the frames that are compared, which time is its only one, and which its least.
pub(super) fn holds<S: TimeSet>(
    rt: &impl Abort,
    set: &S,
    frames: &[u32],
    only: Option<u32>,
    least: Option<u32>,
) {
    same(rt, has_only(set, frames), true, frames);
    same(rt, set.only(), only.map(time), frames);
    same(rt, set.least(), least.map(time), frames);
    same(rt, set.is_empty(), frames.is_empty(), frames);
}

/// A set of one time, at both ends of the day, of two times, and of none.
fn knows_one_time<S: TimeSet>(rt: &impl Abort, alloc: Global) -> Result<(), AllocError> {
    for frame in [0, 1_080_000, 2_159_999] {
        holds(
            rt,
            &S::one(alloc, time(frame))?,
            &[frame],
            Some(frame),
            Some(frame),
        );
    }
    for (frames, least) in [([2_159_999, 0], 0), ([8, 9], 8)] {
        holds(
            rt,
            &set_of::<S>(alloc, &frames)?,
            &frames,
            None,
            Some(least),
        );
    }
    holds(rt, &S::none(alloc), &[], None, None);
    Ok(())
}

fn copies<S: TimeSet>(rt: &impl Abort, alloc: Global) -> Result<(), AllocError> {
    let mut set: S = set_of(alloc, &[5, 7])?;
    let copy = set.copy()?;
    set.add(time(6))?;
    same(rt, has_only(&copy, &[5, 7]), true, "the copy");
    same(rt, has_only(&set, &[5, 6, 7]), true, "the set itself");
    let all = S::all(alloc)?.copy()?;
    same(rt, has_only(&all, &FRAMES), true, "the whole day");
    Ok(())
}

/// The whole day, which each call but `keep_only` leaves whole.
fn keeps_the_whole_day<S: TimeSet>(rt: &impl Abort, alloc: Global) -> Result<(), AllocError> {
    let calls = [
        Call::ShiftNext,
        Call::ShiftPrev,
        Call::WidenNext,
        Call::WidenPrev,
        Call::Add(7),
    ];
    let mut set = S::all(alloc)?;
    for call in calls {
        make_call(&mut set, call)?;
        holds(rt, &set, &FRAMES, None, Some(0));
    }
    set.keep_only(time(2_159_999))?;
    holds(rt, &set, &[2_159_999], Some(2_159_999), Some(2_159_999));
    Ok(())
}

/// Every time but the last, as a set made one time after the other.
fn all_but_the_last<S: TimeSet>(alloc: Global) -> Result<S, AllocError> {
    let mut set = S::none(alloc);
    for frame in 0..2_159_999 {
        set.add(time(frame))?;
    }
    Ok(set)
}

fn fills_the_day<S: TimeSet>(rt: &impl Abort, alloc: Global) -> Result<(), AllocError> {
    let mut set: S = all_but_the_last(alloc)?;
    set.widen_next()?;
    holds(rt, &set, &FRAMES, None, Some(0));
    Ok(())
}

/// The examples of each kind of set.
pub(super) fn is_a_set<S: TimeSet>(rt: &impl Abort, alloc: Global) -> Result<(), AllocError> {
    follows_examples::<S>(rt, alloc)?;
    knows_one_time::<S>(rt, alloc)?;
    copies::<S>(rt, alloc)?;
    keeps_the_whole_day::<S>(rt, alloc)?;
    fills_the_day::<S>(rt, alloc)
}

#[test]
fn lists(rt: HostRuntime) -> Result<(), Fail> {
    is_a_set::<ListSet>(&rt, rt.alloc())?;
    Ok(())
}

#[test]
fn spans(rt: HostRuntime) -> Result<(), Fail> {
    is_a_set::<SpanSet>(&rt, rt.alloc())?;
    let mut set: SpanSet = all_but_the_last(rt.alloc())?;
    same(&rt, set.spans(), 1, "all but the last");
    set.widen_next()?;
    same(&rt, set.spans(), 1, "all but the last, widened");
    set.shift_prev()?;
    same(&rt, set.spans(), 1, "all but the last, widened and shifted");
    Ok(())
}

#[test]
fn counts_spans(rt: HostRuntime) -> Result<(), Fail> {
    for example in examples() {
        let mut set: SpanSet = set_of(rt.alloc(), example.before)?;
        make_call(&mut set, example.call)?;
        same(&rt, set.spans(), example.spans, example.call);
    }
    let copy = set_of::<SpanSet>(rt.alloc(), &[5, 7])?.copy()?;
    same(&rt, copy.spans(), 2, "a copy");
    Ok(())
}

/// How many frames a set of many spans has: enough for several lists.
const MANY: u32 = 2_000;

/// Each fourth frame from one on, in no order.
fn fourth_frame(turn: u32, from: u32) -> TimeCode {
    time(turn % MANY * 1_201 % MANY * 4 + from % 4)
}

pub(super) fn add_fourths<S: TimeSet>(set: &mut S, from: u32) -> Result<(), AllocError> {
    for turn in 0..MANY {
        set.add(fourth_frame(turn, from))?;
    }
    Ok(())
}

/// Whether the members, as far as frame 7,999, are each fourth frame from one on.
pub(super) fn has_fourths<S: TimeSet>(set: &S, from: u32) -> bool {
    for turn in 0..MANY {
        for other in 0..4 {
            if set.contains(fourth_frame(turn, other)) != (other == from) {
                return false;
            }
        }
    }
    true
}

#[test]
fn many_spans(rt: HostRuntime) -> Result<(), Fail> {
    let mut set = SpanSet::none(rt.alloc());
    add_fourths(&mut set, 0)?;
    same(&rt, set.spans(), 2_000, "added");
    same(&rt, has_fourths(&set, 0), true, "added");
    let copy = set.copy()?;
    set.shift_next()?;
    same(&rt, set.spans(), 2_000, "shifted");
    same(&rt, has_fourths(&set, 1), true, "shifted");
    add_fourths(&mut set, 3)?;
    same(&rt, set.spans(), 4_000, "added to a shifted one");
    set.widen_prev()?;
    same(&rt, set.spans(), 1, "widened");
    same(&rt, copy.spans(), 2_000, "a copy");
    same(&rt, has_fourths(&copy, 0), true, "a copy");
    Ok(())
}

#[test]
fn many_spans_that_meet(rt: HostRuntime) -> Result<(), Fail> {
    let mut set = SpanSet::none(rt.alloc());
    add_fourths(&mut set, 1)?;
    add_fourths(&mut set, 3)?;
    same(&rt, set.spans(), 4_000, "two of four");
    same(&rt, set.least(), Some(time(1)), "two of four");
    same(&rt, set.only(), None, "two of four");
    add_fourths(&mut set, 2)?;
    same(&rt, set.spans(), 2_000, "three of four");
    let mut one = set.copy()?;
    add_fourths(&mut set, 0)?;
    same(&rt, set.spans(), 1, "all");
    add_fourths(&mut one, 2)?;
    one.keep_only(time(4_001))?;
    same(&rt, one.only(), Some(time(4_001)), "one of many");
    one.keep_only(time(4_000))?;
    same(&rt, one.is_empty(), true, "none");
    Ok(())
}

/// A call from a drawn number, mostly one that adds or moves.
pub(super) fn call_from(drawn: u32) -> Call {
    let frame = FRAMES[(drawn >> 8) as usize % 24];
    match drawn >> 28 {
        0 | 1 => Call::ShiftNext,
        2 | 3 => Call::ShiftPrev,
        4 | 5 => Call::WidenNext,
        6 | 7 => Call::WidenPrev,
        8 => Call::KeepOnly(frame),
        _ => Call::Add(frame),
    }
}

/// Holds that two sets answer the same.
pub(super) fn agree<S: TimeSet, T: TimeSet>(rt: &impl Abort, one: &S, other: &T, turn: (u32, u32)) {
    for frame in FRAMES {
        let time = time(frame);
        same(rt, one.contains(time), other.contains(time), (turn, frame));
    }
    same(rt, one.is_empty(), other.is_empty(), turn);
    same(rt, one.only(), other.only(), turn);
    same(rt, one.least(), other.least(), turn);
}

#[test]
fn both_kinds_agree(rt: HostRuntime) -> Result<(), Fail> {
    let mut spans = SpanSet::none(rt.alloc());
    let mut list = ListSet::none(rt.alloc());
    let mut drawn = 2_463_534_242u32;
    for turn in 0..500 {
        drawn = drawn.wrapping_mul(1_664_525).wrapping_add(1_013_904_223);
        let call = call_from(drawn);
        make_call(&mut spans, call)?;
        make_call(&mut list, call)?;
        agree(&rt, &spans, &list, (0, turn));
    }
    Ok(())
}
