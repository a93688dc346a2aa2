//! Tests of the set that shares with its copies: the examples of the other kinds, and copies that have a base.

use crate::tests::same;
use crate::tests::time_sets::{
    add_fourths, agree, call_from, has_fourths, holds, is_a_set, make_call, set_of, time,
};
use sets25::{SharedSet, SpanSet, TimeSet};
use std::alloc::{AllocError, Global};
use std::process::Abort;
use std::test::Fail;

#[test]
fn shared(rt: HostRuntime) -> Result<(), Fail> {
    is_a_set::<SharedSet>(&rt, rt.alloc())?;
    Ok(())
}

/// A copy of a set of 2,000 spans, which has a base: each fourth frame from one on.
fn with_base(alloc: Global, from: u32) -> Result<SharedSet, AllocError> {
    let mut set = SharedSet::none(alloc);
    add_fourths(&mut set, from)?;
    set.copy()
}

/// Holds what a set answers whose members are each fourth frame from one on.
fn holds_fourths(rt: &impl Abort, set: &SharedSet, from: u32, case: &str) {
    same(rt, has_fourths(set, from), true, case);
    same(rt, set.least(), Some(time(from)), case);
    same(rt, set.only(), None, case);
    same(rt, set.is_empty(), false, case);
}

#[test]
fn moves_a_base(rt: HostRuntime) -> Result<(), Fail> {
    let mut set = with_base(rt.alloc(), 1)?;
    holds_fourths(&rt, &set, 1, "copied");
    set.shift_next()?;
    holds_fourths(&rt, &set, 2, "shifted");
    let mut set = set.copy()?;
    set.shift_prev()?;
    holds_fourths(&rt, &set, 1, "shifted back");
    let mut widened = set.copy()?;
    widened.widen_next()?;
    set.shift_next()?;
    add_fourths(&mut set, 1)?;
    let mut other = set.copy()?;
    other.widen_prev()?;
    for frame in 0..8_000 {
        let turn = frame % 4;
        let case = (frame, "widened");
        same(
            &rt,
            widened.contains(time(frame)),
            turn == 1 || turn == 2,
            case,
        );
        same(&rt, other.contains(time(frame)), turn < 3, case);
    }
    Ok(())
}

#[test]
fn adds_beside_a_base(rt: HostRuntime) -> Result<(), Fail> {
    let mut set = with_base(rt.alloc(), 1)?;
    set.add(time(7_999))?;
    set.add(time(1))?;
    same(&rt, set.least(), Some(time(1)), "the least is shared");
    same(&rt, set.only(), None, "of many and one");
    same(&rt, set.contains(time(7_999)), true, "its own");
    set.add(time(0))?;
    same(&rt, set.least(), Some(time(0)), "the least is its own");
    add_fourths(&mut set, 0)?;
    let set = set.copy()?;
    for frame in 0..8_001 {
        let known = frame < 8_000 && (frame % 4 < 2 || frame == 7_999);
        same(&rt, set.contains(time(frame)), known, frame);
    }
    Ok(())
}

#[test]
fn keeps_one_of_a_base(rt: HostRuntime) -> Result<(), Fail> {
    let set = with_base(rt.alloc(), 1)?;
    let mut shared = set.copy()?;
    shared.keep_only(time(4_001))?;
    holds(&rt, &shared, &[4_001], Some(4_001), Some(4_001));
    let mut own = set.copy()?;
    own.add(time(9))?;
    own.add(time(8))?;
    own.keep_only(time(8))?;
    holds(&rt, &own, &[8], Some(8), Some(8));
    let mut none = set.copy()?;
    none.keep_only(time(8))?;
    holds(&rt, &none, &[], None, None);
    holds_fourths(&rt, &set, 1, "the set itself");
    Ok(())
}

/// A set and its copy change each for itself.
fn part_ways(
    rt: &impl Abort,
    set: &mut SharedSet,
    frame: u32,
    later: u32,
) -> Result<(), AllocError> {
    let mut copy = set.copy()?;
    set.add(time(frame))?;
    same(rt, set.contains(time(frame)), true, "the set");
    same(rt, copy.contains(time(frame)), false, "the copy");
    copy.add(time(later))?;
    same(rt, set.contains(time(later)), false, "the set");
    same(rt, copy.contains(time(later)), true, "the copy");
    Ok(())
}

#[test]
fn copies_part_ways(rt: HostRuntime) -> Result<(), Fail> {
    let mut small: SharedSet = set_of(rt.alloc(), &[5, 7])?;
    part_ways(&rt, &mut small, 6, 9)?;
    holds(&rt, &small, &[5, 6, 7], None, Some(5));
    let mut large = SharedSet::none(rt.alloc());
    add_fourths(&mut large, 1)?;
    part_ways(&rt, &mut large, 6, 8)?;
    let first = with_base(rt.alloc(), 1)?;
    let mut second = first.copy()?;
    part_ways(&rt, &mut second, 6, 8)?;
    second.shift_next()?;
    holds_fourths(&rt, &first, 1, "the first copy");
    let third = first.copy()?;
    drop(first);
    holds_fourths(&rt, &third, 1, "a copy that is left alone");
    Ok(())
}

#[test]
fn agrees_with_spans(rt: HostRuntime) -> Result<(), Fail> {
    let mut drawn = 2_463_534_242u32;
    for round in 0..20 {
        let mut shared = with_base(rt.alloc(), 1)?;
        let mut spans = SpanSet::none(rt.alloc());
        add_fourths(&mut spans, 1)?;
        for turn in 0..20 {
            drawn = drawn.wrapping_mul(1_664_525).wrapping_add(1_013_904_223);
            let call = call_from(drawn);
            make_call(&mut shared, call)?;
            make_call(&mut spans, call)?;
            shared = shared.copy()?;
            agree(&rt, &shared, &spans, (round, turn));
        }
    }
    Ok(())
}
