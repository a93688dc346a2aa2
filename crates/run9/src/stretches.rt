//! The stretches between two moves of a hand, and what each hand keeps: as much as the exchanges behind its move allow.
//!
//! All of this is found on sets of states, forward, before any state is chosen. It is not proved: `is_run_of` is asked whether
//! what comes of it is a run.

ghost use Rattle.std.specs.Prelude.{IfOk};
ghost use Rattle.track9.specs.Following.{FollowsFrom};

use crate::search::Search;
use block9::Exchange;
use sets25::SharedSet;
use std::alloc::AllocError;
use track9::{Kept, Lasting, Start, Tracker};

/// A stretch of a deck that nobody touches. A hand before it may have begun all that the deck does by itself, so that lasts throughout.
#[derive(Drop)]
pub(crate) struct Stretch<'a, 'e> {
    /// Its exchanges.
    pub(crate) exchanges: &'e [Exchange],
    /// What the hand before it kept. Nothing comes of that of the first stretch.
    pub(crate) kept: Kept,
    /// The states in which it may begin.
    pub(crate) first: Tracker<'a, SharedSet>,
}

/// How many fields there are to keep.
const FIELDS: usize = 7;

/// One field more is kept, by its place in their order. Local comes first: in LOCAL the deck may ignore the commands that would
/// change the other fields.
fn with_field(kept: &Kept, place: usize) -> Kept {
    let mut more = *kept;
    match place {
        0 => more.local = true,
        1 => more.ins = true,
        2 => more.outs = true,
        3 => more.ains = true,
        4 => more.aouts = true,
        5 => more.goal = true,
        _ => more.shown = true,
    }
    more
}

impl<'a> Search<'a> {
    /// The stretches that go through these exchanges, in their order: what a hand keeps is settled before a later one is asked.
    pub(crate) fn stretches<'e>(
        &self,
        parts: &[&'e [Exchange]],
    ) -> Result<Vec<Stretch<'a, 'e>>, AllocError> {
        let mut stretches: Vec<Stretch> = Vec::new(self.alloc);
        for exchanges in parts {
            let next = match stretches.last() {
                Some(before) => stretch_behind(before, exchanges)?,
                None => self.first_stretch(exchanges)?,
            };
            stretches.push(next)?;
        }
        Ok(stretches)
    }

    /// The first stretch: it may begin in every state.
    fn first_stretch<'e>(&self, exchanges: &'e [Exchange]) -> Result<Stretch<'a, 'e>, AllocError> {
        Ok(Stretch {
            exchanges,
            kept: Kept::default(),
            first: Tracker::starting(self.alloc, self.profile, &Start::default())?,
        })
    }
}

impl<'a, 'e> Stretch<'a, 'e> {
    /// The states in which it may end.
    pub(crate) fn last(&self) -> Result<Tracker<'a, SharedSet>, AllocError>
        ensures { IfOk result (FollowsFrom Lasting.Throughout self.now.first self.now.exchanges.now) }
    {
        let mut last = self.first.snapshot()?;
        match last.follow_as(self.exchanges, Lasting::Throughout) {
            Ok(()) => Ok(last),
            Err(error) => {
                drop(last);
                Err(error)
            }
        }
    }
}

/// The stretch behind another one, with a hand between them that keeps what it can.
fn stretch_behind<'a, 'e>(
    before: &Stretch<'a, 'e>,
    exchanges: &'e [Exchange],
) -> Result<Stretch<'a, 'e>, AllocError> {
    let found = drifted(before.last()?)?;
    let behind = stretch_from(&found, exchanges);
    drop(found);
    behind
}

/// The stretch behind a hand that finds the deck in one of these states, and keeps what it can.
fn stretch_from<'a, 'e>(
    found: &Tracker<'a, SharedSet>,
    exchanges: &'e [Exchange],
) -> Result<Stretch<'a, 'e>, AllocError> {
    let kept = kept_by_hand(found, exchanges)?;
    Ok(Stretch {
        exchanges,
        kept,
        first: found.touched(&kept)?,
    })
}

/// The states after a drift.
pub(crate) fn drifted<'a>(
    mut tracker: Tracker<'a, SharedSet>,
) -> Result<Tracker<'a, SharedSet>, AllocError> {
    match tracker.drift() {
        Ok(()) => Ok(tracker),
        Err(error) => {
            drop(tracker);
            Err(error)
        }
    }
}

/// What a hand keeps that finds the deck in one of these states: in turn each field with which the exchanges behind its move have
/// a run of a deck that nobody touches, together with the fields kept before it.
fn kept_by_hand(found: &Tracker<SharedSet>, exchanges: &[Exchange]) -> Result<Kept, AllocError> {
    let mut kept = Kept::default();
    for place in 0..FIELDS {
        let tried = with_field(&kept, place);
        let mut tracker = found.touched(&tried)?;
        let has_run = goes_on(&mut tracker, exchanges);
        drop(tracker);
        if has_run? {
            kept = tried;
        }
    }
    Ok(kept)
}

/// Whether a state remains of the tracker's after these exchanges.
fn goes_on(tracker: &mut Tracker<SharedSet>, exchanges: &[Exchange]) -> Result<bool, AllocError> {
    for exchange in exchanges {
        if !tracker.take_as(exchange, Lasting::Throughout)? {
            return Ok(false);
        }
    }
    Ok(tracker.remains())
}
