//! Lists of modes, by their names.
ghost use Rattle.std.specs.Prelude.{◌≡◌, IfOk, IfErr, Ok};
ghost use Rattle.toml.specs.Data.{as_array, as_str};
ghost use Rattle.toml.specs.View.{array_view, view};
ghost use Rattle.sheet9.specs.Modes.{mode_named, modes_in, with_names};
ghost use Rattle.sheet9.specs.Working.{ReportsWithoutLine};

use crate::refusal::{EntryFault, ItemFault, SheetError, TableName};
use deck9::{Mode, ModeSet};
use std::alloc::Global;
use toml::Value;
use toml::value::Array;

/// The modes that the value of a table's key lists: one at least.
pub(crate) fn modes_in(
    alloc: Global,
    table: TableName,
    key: &str,
    value: &Value,
) -> Result<ModeSet, SheetError>
    ensures ok { IfOk result (λ modes. modes_in table key.now (as_array (view value.now)) ≡ Ok modes) }
    ensures err { IfErr result (ReportsWithoutLine (modes_in table key.now (as_array (view value.now)))) }
{
    let Some(names) = value.as_array() else {
        return Err(SheetError::of_entry(alloc, table, key, EntryFault::NoModes));
    };
    match names.as_slice() {
        [] => Err(SheetError::of_entry(alloc, table, key, EntryFault::EmptyModes)),
        _ => with_names(alloc, table, key, ModeSet::NONE, names),
    }
}

/// A set with the modes that a list names, under a key of a table.
pub(crate) fn with_names(
    alloc: Global,
    table: TableName,
    key: &str,
    set: ModeSet,
    names: &Array,
) -> Result<ModeSet, SheetError>
    ensures ok { IfOk result (λ modes. with_names table key.now set (array_view names.now) ≡ Ok modes) }
    ensures err { IfErr result (ReportsWithoutLine (with_names table key.now set (array_view names.now))) }
{
    let mut modes = set;
    'names: for value in names {
        let Some(name) = value.as_str() else {
            return Err(SheetError::of_entry(alloc, table, key, EntryFault::NoModes));
        };
        let Some(mode) = mode_named(name) else {
            return Err(SheetError::of_item(alloc, table, key, name, ItemFault::NoMode));
        };
        modes = modes.or(ModeSet::just(mode));
    }
    Ok(modes)
}

/// The mode with this name.
pub(crate) fn mode_named(name: &str) -> Option<Mode>
    ensures { result ≡ mode_named name.now }
{
    for mode in &Mode::ALL {
        if name == mode.name() {
            return Some(*mode);
        }
    }
    None
}
