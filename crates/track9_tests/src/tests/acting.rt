//! Decks that act by themselves: exchanges with them by hand, and whether a run of the deck remains.

mod rows;

use super::own_deck::profile_of;
use super::plain_deck::Sheet;
use super::sent::*;
use super::*;
use deck9::{Forgotten, Lost, Mode, Profile};
use rows::{GOES_ON, LOSES, RUNS};
use sets25::{ListSet, SpanSet};
use std::alloc::Global;
use std::test::Fail;
use track9::Lasting;

/// What both decks below forget at AUTO EDIT and at FULL EE ON.
const NAMED: &[(u32, Forgotten)] = &[(0x20_42, Forgotten::Nothing), (0x20_61, Forgotten::Nothing)];

/// A deck that runs an edit by itself after AUTO EDIT, and clears IN and OUT by itself after EJECT.
const ACTS: Sheet<'static> = Sheet {
    named: NAMED,
    goals: &[],
    ways: &[],
    runs: &[
        (0x20_42, Mode::Jog),
        (0x20_42, Mode::Play),
        (0x20_42, Mode::Rec),
        (0x20_42, Mode::Shuttle),
    ],
    loses: &[(0x20_0F, Lost::Points)],
};

/// A deck that does nothing by itself, and is like that one else.
const RESTS: Sheet<'static> = Sheet {
    named: NAMED,
    goals: &[],
    ways: &[],
    runs: &[],
    loses: &[],
};

/// What the tracker takes: an exchange, one of which the reply is not believed, or one that ends nothing of what goes on.
#[derive(Clone, Copy, Debug)]
enum Taken {
    Exchange(Sent),
    Unknown(Sent),
    Throughout(Sent),
}

/// Whether hands are allowed, exchanges, one more, and whether a run of the deck that acts remains after that, and one of the deck that
/// rests. Before that the deck that acts has one.
type ActingRow = (Hands, &'static [Taken], Sent, bool, bool);

/// Takes an exchange that ends nothing of what may be going on.
fn take_as_lasting<S: TimeSet>(
    rt: &impl Abort,
    tracker: &mut Tracker<S>,
    sent: Sent,
) -> Result<bool, AllocError> {
    let (command, reply) = exchange(rt, sent);
    let block = Block::from_bytes(sent.0).expect(rt, "a block");
    tracker.take_as(&complete(&command, block, &reply), Lasting::Throughout)
}

/// Takes it, whatever remains.
fn take_one<S: TimeSet>(
    rt: &impl Abort,
    tracker: &mut Tracker<S>,
    taken: Taken,
) -> Result<(), AllocError> {
    match taken {
        Taken::Exchange(sent) => {
            take(rt, tracker, sent)?;
        }
        Taken::Unknown(sent) => {
            let (command, reply) = exchange(rt, sent);
            let block = Block::from_bytes(sent.0).expect(rt, "a block");
            tracker.take_unknown(&complete(&command, block, &reply))?;
        }
        Taken::Throughout(sent) => {
            take_as_lasting(rt, tracker, sent)?;
        }
    }
    Ok(())
}

/// Takes what comes before the last of a row, and then that.
fn judge<S: TimeSet>(
    rt: &impl Abort,
    tracker: &mut Tracker<S>,
    before: &[Taken],
    last: Sent,
    is_left: bool,
    remains: bool,
) -> Result<(), AllocError> {
    for taken in before {
        take_one(rt, tracker, *taken)?;
    }
    same(rt, is_left && !tracker.remains(), false, before);
    take_leaving(rt, tracker, last, remains, "the last")
}

fn judge_with<S: TimeSet>(
    rt: &impl Abort,
    alloc: Global,
    profile: &Profile,
    row: &ActingRow,
    is_left: bool,
    remains: bool,
) -> Result<(), AllocError> {
    let (_, before, last, _, _) = *row;
    let mut tracker: Tracker<S> = Tracker::of(alloc, profile)?;
    let result = judge(rt, &mut tracker, before, last, is_left, remains);
    drop(tracker);
    result
}

fn judge_row<S: TimeSet>(
    rt: &impl Abort,
    alloc: Global,
    row: &ActingRow,
) -> Result<(), AllocError> {
    let (hands, _, _, acting, resting) = *row;
    let profile = profile_of(alloc, hands, &ACTS)?;
    judge_with::<S>(rt, alloc, &profile, row, true, acting)?;
    let profile = profile_of(alloc, hands, &RESTS)?;
    judge_with::<S>(rt, alloc, &profile, row, false, resting)
}

fn judge_rows<S: TimeSet>(rt: &impl Abort, alloc: Global) -> Result<(), AllocError> {
    for rows in [RUNS, LOSES, GOES_ON] {
        for row in rows {
            judge_row::<S>(rt, alloc, row)?;
        }
    }
    Ok(())
}

#[test]
fn lists(rt: HostRuntime) -> Result<(), Fail> {
    judge_rows::<ListSet>(&rt, rt.alloc())?;
    Ok(())
}

#[test]
fn spans(rt: HostRuntime) -> Result<(), Fail> {
    judge_rows::<SpanSet>(&rt, rt.alloc())?;
    Ok(())
}
