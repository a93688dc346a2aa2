//! The table `[loses]`: which registers a deck may clear by itself after some commands.
ghost use Rattle.std.specs.Prelude.{◌≡◌, option_and_then};
ghost use Rattle.toml.specs.Data.{as_str};
ghost use Rattle.toml.specs.View.{view};
ghost use Rattle.sheet9.specs.Loses.{lost_named, loses_table};

use crate::acts::unfit_to_begin;
use crate::entries::EntryValue;
use crate::refusal::{EntryFault, SheetError, TableName};
use deck9::Lost;
use std::alloc::Global;
use toml::Value;

impl EntryValue for Lost {
    ghost use Rattle.deck9.specs.declared.going.Lost.{Lost as Said};

    ghost Said = { Said };

    ghost said = { λ lost. lost };

    ghost table = { loses_table };

    fn table_name() -> TableName {
        TableName::Loses
    }

    fn unfit(head: u32) -> Option<EntryFault> {
        unfit_to_begin(head)
    }

    fn read(alloc: Global, key: &str, value: &Value) -> Result<Lost, SheetError> {
        match lost_in(value) {
            Some(lost) => Ok(lost),
            None => Err(SheetError::of_entry(alloc, TableName::Loses, key, EntryFault::NotLost)),
        }
    }

    fn is_same(&self, other: &Lost) -> bool {
        *self == *other
    }
}

/// What a value says is lost.
fn lost_in(value: &Value) -> Option<Lost>
    ensures { result ≡ option_and_then lost_named (as_str (view value.now)) }
{
    match value.as_str() {
        Some(word) => lost_named(word),
        None => None,
    }
}

/// What a word says is lost.
fn lost_named(word: &str) -> Option<Lost>
    ensures { result ≡ lost_named word.now }
{
    match word {
        "points" => Some(Lost::Points),
        "registers" => Some(Lost::AllRegisters),
        _ => None,
    }
}
