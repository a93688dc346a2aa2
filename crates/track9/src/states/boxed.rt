//! States with the panel on, in a box of their own: where hands are not allowed they take no room. The box is made once, and a
//! command puts new states into it.
ghost use Rattle.std.specs.Prelude.{◌≡◌, IfOk, true};
ghost use Rattle.track9.specs.Working.States.{all_or_none};

use crate::halves::Halves;
use sets25::TimeSet;
use std::alloc::{AllocError, Global};
use tc25::Rate;

/// All of them.
pub(super) fn all_boxed<S: TimeSet>(alloc: Global, rate: Rate) -> Result<Box<Halves<S>>, AllocError>
    ensures { IfOk result (λ b. b.value ≡ all_or_none rate true) }
{
    let all = Halves::all_or_none(alloc, rate, true)?;
    Ok(Box::new(alloc, all)?)
}

/// The same ones, in another box.
pub(super) fn copy_boxed<S: TimeSet>(states: &Box<Halves<S>>) -> Result<Box<Halves<S>>, AllocError>
    ensures { IfOk result (λ b. b.value ≡ states.now.value) }
{
    let copy = states.copy()?;
    Ok(Box::new(*Box::allocator(states), copy)?)
}
