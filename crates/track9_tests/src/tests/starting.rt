//! Trackers of a deck of which some fields are known: just these are known of it, whichever they are.

use super::{known, same};
use deck9::{Entry, Hands, Knowledge, Known, KnownEntry, Mode, Profile};
use sets25::{ListSet, SpanSet, TimeSet};
use std::alloc::{AllocError, Global};
use std::process::Abort;
use std::test::Fail;
use tc25::{Rate, TimeCode};
use track9::{Start, Tracker};

/// All that can be known: a deck that was commanded to PLAY.
fn playing(entry: &Entry, local: bool) -> Start {
    Start {
        goal: Some(Mode::Play),
        shown: Some(Mode::Stop),
        ins: Some(*entry),
        outs: Some(Entry::Clear),
        ains: Some(Entry::At(TimeCode::default())),
        aouts: Some(*entry),
        local: Some(local),
    }
}

/// A field, where a bit is 1.
fn kept<T: Copy>(field: Option<T>, bits: u32, bit: u32) -> Option<T> {
    if bits & bit == 0 { None } else { field }
}

/// Of a start the fields whose bits are 1, in the order in which they stand.
fn part_of(start: &Start, bits: u32) -> Start {
    Start {
        goal: kept(start.goal, bits, 1),
        shown: kept(start.shown, bits, 2),
        ins: kept(start.ins, bits, 4),
        outs: kept(start.outs, bits, 8),
        ains: kept(start.ains, bits, 16),
        aouts: kept(start.aouts, bits, 32),
        local: kept(start.local, bits, 64),
    }
}

fn mode_known(mode: Option<Mode>) -> Known<Mode> {
    match mode {
        Some(mode) => Known::Is(mode),
        None => Known::Unknown,
    }
}

fn entry_known(entry: &Option<Entry>) -> KnownEntry {
    match entry {
        Some(Entry::Clear) => KnownEntry::Clear,
        Some(Entry::At(time)) => KnownEntry::At(*time),
        None => KnownEntry::Unknown,
    }
}

/// What is known of a deck with this start, which nobody touches.
fn expected(start: &Start) -> Knowledge {
    Knowledge {
        goal: mode_known(start.goal),
        shown: mode_known(start.shown),
        ins: entry_known(&start.ins),
        outs: entry_known(&start.outs),
        ains: entry_known(&start.ains),
        aouts: entry_known(&start.aouts),
        local: match start.local {
            Some(local) => Known::Is(local),
            None => Known::Unknown,
        },
        panel: Known::Is(false),
    }
}

fn agree<S: TimeSet>(
    rt: &impl Abort,
    alloc: Global,
    rate: Rate,
    start: &Start,
) -> Result<(), AllocError> {
    let profile = Profile::at(rate, Hands::None);
    let tracker: Tracker<S> = Tracker::starting(alloc, &profile, start)?;
    let known = known(rt, &tracker);
    drop(tracker);
    same(rt, known, expected(start), rate.word());
    Ok(())
}

/// Whichever of the seven fields are known.
fn agree_on_parts(
    rt: &impl Abort,
    alloc: Global,
    rate: Rate,
    start: &Start,
) -> Result<(), AllocError> {
    for bits in 0..128 {
        let part = part_of(start, bits);
        agree::<SpanSet>(rt, alloc, rate, &part)?;
        agree::<ListSet>(rt, alloc, rate, &part)?;
    }
    Ok(())
}

#[test]
fn fields_that_are_known(rt: HostRuntime) -> Result<(), Fail> {
    let noon = TimeCode::from_frames(1_080_000).unwrap_or_default();
    for rate in [Rate::Fps25, Rate::DropFrame] {
        agree_on_parts(&rt, rt.alloc(), rate, &playing(&Entry::At(noon), true))?;
        agree_on_parts(&rt, rt.alloc(), rate, &playing(&Entry::Clear, false))?;
    }
    Ok(())
}
