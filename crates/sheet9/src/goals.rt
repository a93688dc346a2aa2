//! The table `[goals]`: to which modes some commands may lead that are not listed.
ghost use Rattle.std.specs.Prelude.{◌≡◌, IfOk, IfErr, [], option_map};
ghost use Rattle.std.specs.BTreeMap.{get};
ghost use Rattle.std.specs.Ordering.{nat_cmp};
ghost use Rattle.toml.specs.View.{table_view, view};
ghost use Rattle.sheet9.specs.Goals.{goals_in, goals_of, goes_with};
ghost use Rattle.sheet9.specs.Working.{HasSaid, ReportsWithoutLine};

use crate::entries::{EntryValue, command_in};
use crate::head::is_transport;
use crate::modes::modes_in;
use crate::refusal::{EntryFault, Refusal, SheetError, TableName};
use block9::Command;
use deck9::{Forgotten, ModeSet};
use std::alloc::Global;
use std::collections::BTreeMap;
use toml::{Table, Value};

impl EntryValue for ModeSet {
    ghost use Rattle.deck9.specs.declared.mode_set.ModeSet.{ModeSet as Said};
    ghost use Rattle.sheet9.specs.Goals.{goals_table};

    ghost Said = { Said };

    ghost said = { λ goals. goals };

    ghost table = { goals_table };

    fn table_name() -> TableName {
        TableName::Goals
    }

    fn unfit(head: u32) -> Option<EntryFault> {
        if Command::is_listed_head(head) {
            Some(EntryFault::HasEffect)
        } else if is_transport(head) {
            None
        } else {
            Some(EntryFault::NotOfTransport)
        }
    }

    fn read(alloc: Global, key: &str, value: &Value) -> Result<ModeSet, SheetError> {
        modes_in(alloc, TableName::Goals, key, value)
    }

    fn is_same(&self, other: &ModeSet) -> bool {
        *self == *other
    }
}

/// What the value of the key `goals` says, where the key is there, beside what is said to be forgotten at commands.
pub(crate) fn read_goals(
    alloc: Global,
    value: Option<&Value>,
    forgets: &BTreeMap<u32, Forgotten>,
) -> Result<BTreeMap<u32, ModeSet>, SheetError>
    ensures ok { IfOk result (HasSaid (λ goals. goals) (goals_in (get nat_cmp forgets.now) (option_map (λ v. view v.now) value.entry))) }
    ensures err { IfErr result (ReportsWithoutLine (goals_in (get nat_cmp forgets.now) (option_map (λ v. view v.now) value.entry))) }
{
    let Some(value) = value else {
        return Ok(BTreeMap::new(alloc));
    };
    match value.as_table() {
        Some(entries) => read_entries(alloc, entries, forgets),
        None => {
            let table = TableName::Goals;
            Err(SheetError::Refused(Refusal::NoTable { table }))
        }
    }
}

/// What the entries say.
fn read_entries(
    alloc: Global,
    entries: &Table,
    forgets: &BTreeMap<u32, Forgotten>,
) -> Result<BTreeMap<u32, ModeSet>, SheetError>
    ensures ok { IfOk result (HasSaid (λ goals. goals) (goals_of (get nat_cmp forgets.now) [] (table_view entries.now))) }
    ensures err { IfErr result (ReportsWithoutLine (goals_of (get nat_cmp forgets.now) [] (table_view entries.now))) }
{
    let mut said = BTreeMap::new(alloc);
    'entries: for (key, value) in entries.iter() {
        let head = command_in::<ModeSet>(alloc, key.as_str())?;
        let goals = ModeSet::read(alloc, key.as_str(), value)?;
        if !goes_with(forgets.get(&head)) {
            let fault = EntryFault::ForgetsMore;
            return Err(SheetError::of_entry(alloc, TableName::Goals, key.as_str(), fault));
        }
        match said.insert(head, goals) {
            Ok(None) => {}
            Ok(Some(_)) => {
                let fault = EntryFault::NamedTwice;
                return Err(SheetError::of_entry(alloc, TableName::Goals, key.as_str(), fault));
            }
            Err(_) => return Err(SheetError::OutOfMemory),
        }
    }
    Ok(said)
}

/// Whether what is said to be forgotten at a command goes with modes to which it may lead.
pub(crate) fn goes_with(forgotten: Option<&Forgotten>) -> bool
    ensures { result ≡ goes_with (option_map (λ f. f.now) forgotten.entry) }
{
    match forgotten {
        None | Some(Forgotten::Nothing | Forgotten::Registers) => true,
        Some(Forgotten::Motion | Forgotten::Tape | Forgotten::Everything) => false,
    }
}
