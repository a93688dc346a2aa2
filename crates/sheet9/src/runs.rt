//! The table `[runs]`: which modes a deck may show by itself after some commands.

use crate::acts::unfit_to_begin;
use crate::entries::EntryValue;
use crate::modes::modes_in;
use crate::refusal::{EntryFault, SheetError, TableName};
use deck9::ModeSet;
use std::alloc::Global;
use toml::Value;

/// The modes that a deck may show by itself after a command.
#[derive(Clone, Copy)]
pub(crate) struct RunModes(pub(crate) ModeSet);

impl EntryValue for RunModes {
    ghost use Rattle.deck9.specs.declared.mode_set.ModeSet.{ModeSet as Said};
    ghost use Rattle.sheet9.specs.Runs.{runs_table};

    ghost Said = { Said };

    ghost said = { λ shown. shown.0 };

    ghost table = { runs_table };

    fn table_name() -> TableName {
        TableName::Runs
    }

    fn unfit(head: u32) -> Option<EntryFault> {
        unfit_to_begin(head)
    }

    fn read(alloc: Global, key: &str, value: &Value) -> Result<RunModes, SheetError> {
        match modes_in(alloc, TableName::Runs, key, value) {
            Ok(shown) => Ok(RunModes(shown)),
            Err(error) => Err(error),
        }
    }

    fn is_same(&self, other: &RunModes) -> bool {
        self.0 == other.0
    }
}
