//! What the deck could show when it gave a reply after which no run of the deck remains.
ghost use Rattle.std.specs.Prelude.{◌≡◌, ◌↔◌, IfOk};
ghost use Rattle.deck9.specs.Going.{on_at_first};
ghost use Rattle.deck9.specs.State.{IsFirst};
ghost use Rattle.deck9.specs.declared.state.State.{State as AState};
ghost use Rattle.track9.specs.Tracker.{Possible};
ghost use Rattle.why9.specs.Contradiction.{BreaksAtLast};
ghost use Rattle.why9.specs.Shown.{CouldShow};

use block9::Exchange;
use deck9::{Knowledge, ModeSet, Profile};
use sets25::SpanSet;
use std::alloc::{AllocError, Global};
use track9::Tracker;

/// What was known of a deck that is taken for this, and which modes it could show, when it gave the last of these replies: after
/// a run of the exchanges before it, and a drift.
///
/// The exchanges have to be those of a capture up to the first after which no state remains. An error comes where memory is
/// refused.
pub fn could_show_for(
    alloc: Global,
    profile: &Profile,
    exchanges: &[Exchange],
) -> Result<(Knowledge, ModeSet), AllocError>
    requires breaks { BreaksAtLast profile.now exchanges.now }
    ensures { IfOk result (λ told. CouldShow profile.now exchanges.now told.0 told.1) }
{
    let mut tracker = Tracker::of(alloc, profile)?;
    let told = shown_after(&mut tracker, profile, exchanges);
    drop(tracker);
    told
}

/// What was known of the deck, and which modes it could show, by a tracker that has taken nothing yet.
fn shown_after(
    tracker: &mut Tracker<SpanSet>,
    profile: &Profile,
    exchanges: &[Exchange],
) -> Result<(Knowledge, ModeSet), AllocError>
    requires breaks { BreaksAtLast profile.now exchanges.now }
    requires states { (s : AState) → Possible tracker.old.states s ↔ IsFirst profile.now s }
    requires profile { tracker.old.profile ≡ profile.now }
    requires going { tracker.old.going ≡ on_at_first profile.now.deck }
    ensures { IfOk result (λ told. CouldShow profile.now exchanges.now told.0 told.1) }
{
    tracker.follow(&exchanges[..exchanges.len() - 1])?;
    tracker.drift()?;
    Ok((tracker.knowledge(), tracker.shown()))
}
