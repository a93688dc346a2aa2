//! What the deck may do by itself from here on, put to the end of a line.
ghost use Rattle.std.specs.Prelude.{◌≡◌, ◌++◌, OnOk};
ghost use Rattle.report9.specs.Explanation.{text_of_going, text_of_losses, text_of_runs};

use crate::exchange_bytes::modes::put_modes;
use crate::pieces::put_text;
use deck9::{Going, Lost, ModeSet};
use std::alloc::AllocError;

/// Puts the modes that the deck may show and the registers that it may clear, and nothing where there are none.
pub(crate) fn put_going(line: &mut Vec<u8>, going: Going) -> Result<(), AllocError>
    ensures { OnOk result (line.new.items ≡ line.old.items ++ text_of_going going) }
{
    put_runs(line, going.modes)?;
    put_text(line, losses(going.lost))
}

/// Puts the modes that the deck may show, if there are any.
fn put_runs(line: &mut Vec<u8>, modes: ModeSet) -> Result<(), AllocError>
    ensures { OnOk result (line.new.items ≡ line.old.items ++ text_of_runs modes) }
{
    if !modes.is_some() {
        return Ok(());
    }
    put_text(line, ", may run ")?;
    put_modes(line, modes)
}

/// The registers that the deck may clear, as they are told.
#[tactic(auto, unfolding(crate::specs::Explanation::text_of_losses))]
fn losses<'a>(lost: Lost) -> &'a str
    ensures { result.now ≡ text_of_losses lost }
{
    match lost {
        Lost::NoRegister => "",
        Lost::Points => ", may lose in|out",
        Lost::AllRegisters => ", may lose in|out|ain|aout",
    }
}
