//! The modes of a set, named in a row.
ghost use Rattle.std.specs.Prelude.{◌≡◌, ◌++◌, [], codes, OnOk};
ghost use Rattle.deck9.specs.Mode.{every_mode, name_of};
ghost use Rattle.deck9.specs.ModeSet.{has};
ghost use Rattle.report9.specs.ExchangeBytes.{text_of_modes};
ghost use Rattle.report9.specs.Row.{in_a_row, names_of};

use crate::pieces::put_text;
use crate::row::put_chosen;
use deck9::{Mode, ModeSet};
use std::alloc::AllocError;

/// Puts the names of the modes with bars between them, and `none` where there is none.
#[tactic(auto, using(crate::proofs::Words::some_any), unfolding(crate::specs::ExchangeBytes::text_of_modes))]
pub fn put_modes(line: &mut Vec<u8>, modes: ModeSet) -> Result<(), AllocError>
    ensures { OnOk result (line.new.items ≡ line.old.items ++ text_of_modes modes) }
{
    if !modes.is_some() {
        return put_text(line, "none");
    }
    put_names(line, modes)
}

/// Puts the names of the modes with bars between them.
fn put_names(line: &mut Vec<u8>, modes: ModeSet) -> Result<(), AllocError>
    ensures { OnOk result (line.new.items ≡ line.old.items
        ++ in_a_row [] (codes "|") (names_of (has modes.0) name_of every_mode)) }
{
    let mut before = "";
    for mode in &Mode::ALL {
        before = put_chosen(line, before, "|", mode.name(), modes.has(*mode))?;
    }
    Ok(())
}
