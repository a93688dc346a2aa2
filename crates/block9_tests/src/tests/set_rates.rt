//! Sets of times at each rate, by hand: round midnight, whose frame is another at each, and what is no time of the day.

use crate::tests::same;
use sets25::{ListSet, SharedSet, SpanSet, TimeSet};
use std::alloc::{AllocError, Global};
use std::process::Abort;
use std::test::Fail;
use tc25::{Rate, TimeCode};

/// Each rate, and the last frame of its day.
const LAST_FRAMES: [(Rate, u32); 4] = [
    (Rate::Fps24, 2_073_599),
    (Rate::Fps25, 2_159_999),
    (Rate::Fps30, 2_591_999),
    (Rate::DropFrame, 2_589_407),
];

/// A time of the longest day.
fn time(frame: u32) -> TimeCode {
    TimeCode::from_frames_at(Rate::Fps30, frame).unwrap_or_default()
}

/// Holds which of frame 0 and of the last two of the day are members, and the rate.
fn holds<S: TimeSet>(rt: &impl Abort, set: &S, rate: Rate, last: u32, members: [bool; 3]) {
    let [has_first, has_before_last, has_last] = members;
    same(
        rt,
        set.contains(time(0)),
        has_first,
        (rate.word(), "frame 0"),
    );
    let before_last = time(last.saturating_sub(1));
    same(
        rt,
        set.contains(before_last),
        has_before_last,
        (rate.word(), "the last but one"),
    );
    same(
        rt,
        set.contains(time(last)),
        has_last,
        (rate.word(), "the last"),
    );
    same(rt, set.rate(), rate, (rate.word(), "its rate"));
}

/// The last two frames of the day, moved over midnight and back, and widened over it.
fn goes_over_midnight<S: TimeSet>(
    rt: &impl Abort,
    alloc: Global,
    rate: Rate,
    last: u32,
) -> Result<(), AllocError> {
    let mut set = S::one_at(alloc, rate, time(last))?;
    same(rt, set.only(), Some(time(last)), (rate.word(), "the last"));
    set.add(time(last.saturating_sub(1)))?;
    holds(rt, &set, rate, last, [false, true, true]);
    set.shift_next()?;
    holds(rt, &set, rate, last, [true, false, true]);
    same(rt, set.least(), Some(time(0)), (rate.word(), "shifted"));
    set.shift_prev()?;
    holds(rt, &set, rate, last, [false, true, true]);
    set.widen_next()?;
    holds(rt, &set, rate, last, [true, true, true]);
    set.keep_only(time(last))?;
    holds(rt, &set, rate, last, [false, false, true]);
    set.shift_next()?;
    set.widen_prev()?;
    holds(rt, &set, rate, last, [true, false, true]);
    Ok(())
}

/// The whole day has no time of a longer one, and none can be added to a set.
fn has_times_of_its_day_alone<S: TimeSet>(
    rt: &impl Abort,
    alloc: Global,
    rate: Rate,
    last: u32,
) -> Result<(), AllocError> {
    let all = S::all_at(alloc, rate)?;
    holds(rt, &all, rate, last, [true, true, true]);
    let Some(outside) = TimeCode::from_frames_at(Rate::Fps30, last.saturating_add(1)) else {
        return Ok(());
    };
    same(
        rt,
        all.contains(outside),
        false,
        (rate.word(), "of the whole day"),
    );
    let mut set = S::none_at(alloc, rate);
    set.add(outside)?;
    same(rt, set.is_empty(), true, (rate.word(), "after an addition"));
    set.add(time(last))?;
    set.add(outside)?;
    same(
        rt,
        set.only(),
        Some(time(last)),
        (rate.word(), "of one time"),
    );
    let one = S::one_at(alloc, rate, outside)?;
    same(
        rt,
        one.is_empty(),
        true,
        (rate.word(), "of that time alone"),
    );
    set.keep_only(outside)?;
    same(rt, set.is_empty(), true, (rate.word(), "kept of one time"));
    holds(rt, &set, rate, last, [false, false, false]);
    Ok(())
}

/// A copy, and a copy of that one, go round the same day as the set.
fn copies_keep_the_rate<S: TimeSet>(
    rt: &impl Abort,
    alloc: Global,
    rate: Rate,
    last: u32,
) -> Result<(), AllocError> {
    let set = S::one_at(alloc, rate, time(last))?;
    let mut copy = set.copy()?;
    holds(rt, &copy, rate, last, [false, false, true]);
    copy.shift_next()?;
    holds(rt, &copy, rate, last, [true, false, false]);
    copy.add(time(last))?;
    let mut second = copy.copy()?;
    second.shift_prev()?;
    holds(rt, &second, rate, last, [false, true, true]);
    holds(rt, &copy, rate, last, [true, false, true]);
    holds(rt, &set, rate, last, [false, false, true]);
    holds(
        rt,
        &S::none_at(alloc, rate).copy()?,
        rate,
        last,
        [false, false, false],
    );
    holds(
        rt,
        &S::all_at(alloc, rate)?.copy()?,
        rate,
        last,
        [true, true, true],
    );
    Ok(())
}

fn is_a_set_at_each_rate<S: TimeSet>(rt: &impl Abort, alloc: Global) -> Result<(), AllocError> {
    for (rate, last) in LAST_FRAMES {
        goes_over_midnight::<S>(rt, alloc, rate, last)?;
        has_times_of_its_day_alone::<S>(rt, alloc, rate, last)?;
        copies_keep_the_rate::<S>(rt, alloc, rate, last)?;
    }
    same(rt, S::none(alloc).rate(), Rate::Fps25, "the empty set");
    same(rt, S::all(alloc)?.rate(), Rate::Fps25, "the whole day");
    same(rt, S::one(alloc, time(0))?.rate(), Rate::Fps25, "one time");
    Ok(())
}

#[test]
fn lists(rt: HostRuntime) -> Result<(), Fail> {
    is_a_set_at_each_rate::<ListSet>(&rt, rt.alloc())?;
    Ok(())
}

#[test]
fn shared(rt: HostRuntime) -> Result<(), Fail> {
    is_a_set_at_each_rate::<SharedSet>(&rt, rt.alloc())?;
    Ok(())
}

#[test]
fn spans(rt: HostRuntime) -> Result<(), Fail> {
    is_a_set_at_each_rate::<SpanSet>(&rt, rt.alloc())?;
    for (rate, last) in LAST_FRAMES {
        let mut set = SpanSet::one_at(rt.alloc(), rate, time(last))?;
        set.widen_next()?;
        same(
            &rt,
            set.spans(),
            2,
            (rate.word(), "two spans meet at midnight"),
        );
        set.shift_next()?;
        same(
            &rt,
            set.spans(),
            1,
            (rate.word(), "one span after midnight"),
        );
        set.shift_prev()?;
        same(&rt, set.spans(), 2, (rate.word(), "two spans again"));
        let day = SpanSet::all_at(rt.alloc(), rate)?;
        same(&rt, day.spans(), 1, (rate.word(), "the whole day"));
    }
    Ok(())
}
