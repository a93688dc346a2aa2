//! A table whose keys name commands, as `[forgets]`.
ghost use Rattle.std.specs.Prelude.{◌≡◌, ◌↔◌, IfOk, IfErr, Ok, [], option_map, true};
ghost use Rattle.toml.specs.View.{table_view, view};
ghost use Rattle.sheet9.specs.Entries.{CommandTable, command_in, entries_of, named_by, table_of};
ghost use Rattle.sheet9.specs.Working.{HasSaid, ReportsWithoutLine};

use crate::head::{head_named, head_or_selector, is_reply};
use crate::refusal::{EntryFault, Refusal, SheetError, TableName};
use std::alloc::Global;
use std::collections::BTreeMap;
use toml::{Table, Value};

/// What an entry of such a table says of its command.
pub(crate) trait EntryValue: Drop + Sized {
    ghost Said: { Type 0 };

    ghost said: { Self → Said };

    ghost table: { CommandTable Said };

    /// The table.
    fn table_name() -> TableName
        ensures { result ≡ table.name };

    /// What is wrong with a command in the table, by its head.
    fn unfit(head: u32) -> Option<EntryFault>
        ensures { result ≡ table.unfit head };

    /// Reads the value of a key.
    fn read(alloc: Global, key: &str, value: &Value) -> Result<Self, SheetError>
        ensures ok { IfOk result (λ v. table.value_of key.now (view value.now) ≡ Ok (said v)) }
        ensures err { IfErr result (ReportsWithoutLine (table.value_of key.now (view value.now))) };

    /// Whether another value says the same.
    fn is_same(&self, other: &Self) -> bool
        ensures { (result ≡ true) ↔ (said self.now ≡ said other.now) };
}

/// What the table says, by its value, where that is there.
pub(crate) fn read_table<V: EntryValue>(
    alloc: Global,
    value: Option<&Value>,
) -> Result<BTreeMap<u32, V>, SheetError>
    ensures ok { IfOk result (HasSaid V.said (table_of V.table (option_map (λ v. view v.now) value.entry))) }
    ensures err { IfErr result (ReportsWithoutLine (table_of V.table (option_map (λ v. view v.now) value.entry))) }
{
    let Some(value) = value else {
        return Ok(BTreeMap::new(alloc));
    };
    match value.as_table() {
        Some(entries) => read_entries(alloc, entries),
        None => {
            let table = V::table_name();
            Err(SheetError::Refused(Refusal::NoTable { table }))
        }
    }
}

/// What the entries say.
fn read_entries<V: EntryValue>(
    alloc: Global,
    entries: &Table,
) -> Result<BTreeMap<u32, V>, SheetError>
    ensures ok { IfOk result (HasSaid V.said (entries_of V.table [] (table_view entries.now))) }
    ensures err { IfErr result (ReportsWithoutLine (entries_of V.table [] (table_view entries.now))) }
{
    let mut said = BTreeMap::new(alloc);
    'entries: for (key, value) in entries.iter() {
        let head = command_in::<V>(alloc, key.as_str())?;
        let read = V::read(alloc, key.as_str(), value)?;
        match said.insert(head, read) {
            Ok(None) => {}
            Ok(Some(_)) => {
                let fault = EntryFault::NamedTwice;
                return Err(SheetError::of_entry(alloc, V::table_name(), key.as_str(), fault));
            }
            Err(_) => return Err(SheetError::OutOfMemory),
        }
    }
    Ok(said)
}

/// The command that a key names.
pub(crate) fn command_in<V: EntryValue>(alloc: Global, key: &str) -> Result<u32, SheetError>
    ensures ok { IfOk result (λ head. command_in V.table key.now ≡ Ok head) }
    ensures err { IfErr result (ReportsWithoutLine (command_in V.table key.now)) }
{
    let fault = match named_by(V::table_name(), key.as_bytes()) {
        None => EntryFault::NotTwoBytes,
        Some(head) if is_reply(head) => EntryFault::Reply,
        Some(head) => match V::unfit(head) {
            None => return Ok(head),
            Some(fault) => fault,
        },
    };
    Err(SheetError::of_entry(alloc, V::table_name(), key, fault))
}

/// The command that a key of a table names, by its head; in the table of the replies also by its head and a selector.
fn named_by(table: TableName, key: &[u8]) -> Option<u32>
    ensures { result ≡ named_by table key.now }
{
    match table {
        TableName::Replies => head_or_selector(key),
        _ => head_named(key),
    }
}
