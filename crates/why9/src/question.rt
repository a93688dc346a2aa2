//! What the search asks: whether some run believes the replies from one place on.
ghost use Rattle.std.specs.Prelude.{◌≡◌, ◌↔◌, ◌++◌, IfOk, IsTrue, OnOk, length, nat_le, true};
ghost use Rattle.deck9.specs.Contradict.{MayGo};
ghost use Rattle.deck9.specs.Going.{goes_on};
ghost use Rattle.deck9.specs.Step.{AreReached};
ghost use Rattle.deck9.specs.declared.state.State.{State as AState};
ghost use Rattle.track9.specs.Tracker.{Possible};
ghost use Rattle.why9.specs.Working.{ArePassed, HasBelievingFrom};

use block9::Exchange;
use sets25::SpanSet;
use std::alloc::AllocError;
use track9::Tracker;

/// Whether some run from the tracker's states, with what may be going on there, passes the first exchanges, and believes the
/// replies of all others.
///
/// The tracker stays as it is.
pub(crate) fn leaves_a_run(
    tracker: &Tracker<SpanSet>,
    passed: &[Exchange],
    believed: &[Exchange],
) -> Result<bool, AllocError>
    ensures { IfOk result (λ b. IsTrue b ↔ HasBelievingFrom tracker.now.profile tracker.now.going (Possible tracker.now.states) (nat_le (length passed.now)) (passed.now ++ believed.now)) }
{
    let mut copy = tracker.snapshot()?;
    let leaves = pass_and_believe(&mut copy, passed, believed);
    drop(copy);
    leaves
}

/// The same, by a tracker that takes these exchanges itself.
fn pass_and_believe(
    tracker: &mut Tracker<SpanSet>,
    passed: &[Exchange],
    believed: &[Exchange],
) -> Result<bool, AllocError>
    ensures { IfOk result (λ b. IsTrue b ↔ HasBelievingFrom tracker.old.profile tracker.old.going (Possible tracker.old.states) (nat_le (length passed.now)) (passed.now ++ believed.now)) }
{
    pass_all(tracker, passed)?;
    believe_all(tracker, believed)
}

/// Passes these exchanges: takes the command of each alone, since its reply is not believed.
pub(crate) fn pass_all(
    tracker: &mut Tracker<SpanSet>,
    exchanges: &[Exchange],
) -> Result<(), AllocError>
    ensures passed { OnOk result (ArePassed tracker.old.profile tracker.old.going (Possible tracker.old.states) exchanges.now tracker.new.going (Possible tracker.new.states)) }
    ensures profile { OnOk result (tracker.new.profile ≡ tracker.old.profile) }
{
    for exchange in exchanges {
        tracker.take_unknown(exchange)?;
    }
    Ok(())
}

/// Believes the replies of these exchanges, and answers whether some run does. It ends as soon as none does.
///
/// A NAK leaves the state and what may be going on, and its drift is part of the next, so NAKs are skipped.
fn believe_all(tracker: &mut Tracker<SpanSet>, exchanges: &[Exchange]) -> Result<bool, AllocError>
    ensures { IfOk result (λ b. IsTrue b ↔ HasBelievingFrom tracker.old.profile tracker.old.going (Possible tracker.old.states) (λ k. true) exchanges.now) }
{
    for exchange in exchanges {
        if exchange.reply.is_nak() {
            continue;
        }
        if !believe(tracker, exchange)? {
            return Ok(false);
        }
    }
    Ok(tracker.remains())
}

/// Takes an exchange and believes its reply, and answers whether a state remains.
pub(crate) fn believe(
    tracker: &mut Tracker<SpanSet>,
    exchange: &Exchange,
) -> Result<bool, AllocError>
    ensures reached { IfOk result (λ b. AreReached (Possible tracker.old.states) (MayGo tracker.old.profile tracker.old.going true exchange.now) (Possible tracker.new.states)) }
    ensures remains { IfOk result (λ b. IsTrue b ↔ ((s : AState) × Possible tracker.new.states s)) }
    ensures profile { IfOk result (λ b. tracker.new.profile ≡ tracker.old.profile) }
    ensures going { IfOk result (λ b. tracker.new.going ≡ goes_on tracker.old.profile true exchange.now tracker.old.going) }
{
    tracker.take(exchange)
}
