//! What a hand leaves of a set of states that keeps some fields: each part is a product again.
//!
//! What was made is dropped by name where memory is refused, as in `states.rt`.
ghost use Rattle.std.specs.Prelude.{◌≡◌, IfOk, if◌then◌else◌, not};
ghost use Rattle.track9.specs.Tracker.{in_local};
ghost use Rattle.track9.specs.Working.Touched.{halves_touched, states_touched, touched_from};

use crate::halves::Halves;
use crate::kept::Kept;
use crate::part::Part;
use crate::states::States;
use sets25::TimeSet;
use std::alloc::{AllocError, Global};

impl<S: TimeSet> States<S> {
    /// The states after a move of a hand, in a set of their own.
    pub(crate) fn touched(&self, alloc: Global, kept: &Kept) -> Result<States<S>, AllocError>
        ensures { IfOk result (λ v. v ≡ states_touched kept.now self.now) }
    {
        let off = self.off.touched(alloc, kept)?;
        let Some(on) = &self.on else {
            return Ok(States { off, on: None });
        };
        match touched_boxed(alloc, on, kept) {
            Ok(on) => Ok(States { off, on: Some(on) }),
            Err(error) => {
                drop(off);
                Err(error)
            }
        }
    }
}

/// The same of those with the panel on, in another box.
fn touched_boxed<S: TimeSet>(
    alloc: Global,
    states: &Box<Halves<S>>,
    kept: &Kept,
) -> Result<Box<Halves<S>>, AllocError>
    ensures { IfOk result (λ b. b.value ≡ halves_touched kept.now states.now.value) }
{
    let touched = states.touched(alloc, kept)?;
    Ok(Box::new(alloc, touched)?)
}

impl<S: TimeSet> Halves<S> {
    /// The states after a move of a hand, in a set of their own.
    fn touched(&self, alloc: Global, kept: &Kept) -> Result<Halves<S>, AllocError>
        ensures { IfOk result (λ h. h ≡ halves_touched kept.now self.now) }
    {
        let remote = self.touched_from(alloc, kept, false)?;
        match self.touched_from(alloc, kept, true) {
            Ok(local) => Ok(Halves { remote, local }),
            Err(error) => {
                drop(remote);
                Err(error)
            }
        }
    }

    /// Those of them with this value of local: where local is not kept they come from those with the other.
    fn touched_from(&self, alloc: Global, kept: &Kept, local: bool) -> Result<Part<S>, AllocError>
        ensures { IfOk result (λ p. p ≡ touched_from kept.now self.now local) }
    {
        let before = if kept.local { local } else { !local };
        self.part(before).touched(alloc, kept)
    }
}
