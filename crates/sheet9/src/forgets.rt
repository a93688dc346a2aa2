//! The table `[forgets]`: what a deck forgets at some commands.
ghost use Rattle.std.specs.Prelude.{◌≡◌, option_and_then};
ghost use Rattle.toml.specs.Data.{as_str};
ghost use Rattle.toml.specs.View.{view};
ghost use Rattle.sheet9.specs.Forgets.{forgets_table, forgotten_named};

use crate::entries::EntryValue;
use crate::refusal::{EntryFault, SheetError, TableName};
use block9::Command;
use deck9::Forgotten;
use std::alloc::Global;
use toml::Value;

impl EntryValue for Forgotten {
    ghost use Rattle.deck9.specs.declared.deck.Forgotten.{Forgotten as Said};

    ghost Said = { Said };

    ghost said = { λ forgotten. forgotten };

    ghost table = { forgets_table };

    fn table_name() -> TableName {
        TableName::Forgets
    }

    fn unfit(head: u32) -> Option<EntryFault> {
        let is_sense = head / 0x10_00 == 6 && Command::is_listed_head(head);
        is_sense.then_some(EntryFault::Sense)
    }

    fn read(alloc: Global, key: &str, value: &Value) -> Result<Forgotten, SheetError> {
        match forgotten_in(value) {
            Some(forgotten) => Ok(forgotten),
            None => {
                let fault = EntryFault::NotForgotten;
                Err(SheetError::of_entry(alloc, TableName::Forgets, key, fault))
            }
        }
    }

    fn is_same(&self, other: &Forgotten) -> bool {
        *self == *other
    }
}

/// What a value says is forgotten.
fn forgotten_in(value: &Value) -> Option<Forgotten>
    ensures { result ≡ option_and_then forgotten_named (as_str (view value.now)) }
{
    match value.as_str() {
        Some(word) => forgotten_named(word),
        None => None,
    }
}

/// What a word says is forgotten.
fn forgotten_named(word: &str) -> Option<Forgotten>
    ensures { result ≡ forgotten_named word.now }
{
    match word {
        "nothing" => Some(Forgotten::Nothing),
        "motion" => Some(Forgotten::Motion),
        "registers" => Some(Forgotten::Registers),
        "tape" => Some(Forgotten::Tape),
        "everything" => Some(Forgotten::Everything),
        _ => None,
    }
}
