//! The table `[passes]`.
ghost use Rattle.std.specs.Prelude.{◌≡◌, IfOk, IfErr, Ok, option_map};
ghost use Rattle.toml.specs.Data.{as_array};
ghost use Rattle.toml.specs.View.{table_view, view};
ghost use Rattle.sheet9.specs.Passes.{own_ways, passes_in, passes_of, way_with};
ghost use Rattle.sheet9.specs.Sheets.{both_ways};
ghost use Rattle.sheet9.specs.Working.{ReportsWithoutLine};

use crate::modes::{mode_named, with_names};
use crate::refusal::{EntryFault, Refusal, SheetError, TableName};
use deck9::{Mode, ModeSet};
use std::alloc::Global;
use toml::{Table, Value};

/// What the value of the key `passes` says, where the key is there: the modes on the way to each goal.
pub(crate) fn read_passes(alloc: Global, value: Option<&Value>) -> Result<[ModeSet; 10], SheetError>
    ensures ok { IfOk result (λ ways. passes_in (option_map (λ v. view v.now) value.entry) ≡ Ok ways) }
    ensures err { IfErr result (ReportsWithoutLine (passes_in (option_map (λ v. view v.now) value.entry))) }
{
    let Some(value) = value else {
        return Ok(own_ways());
    };
    match value.as_table() {
        Some(entries) => read_entries(alloc, entries),
        None => {
            let table = TableName::Passes;
            Err(SheetError::Refused(Refusal::NoTable { table }))
        }
    }
}

/// The ways with those of another sheet: the modes that are on the way to each goal by either.
pub(crate) fn with_ways(one: &[ModeSet; 10], other: &[ModeSet; 10]) -> [ModeSet; 10]
    ensures { result ≡ both_ways one.now other.now }
{
    let mut both = *one;
    for place in 0..10 {
        both[place] = one[place].or(other[place]);
    }
    both
}

/// The ways of the profile.
fn own_ways() -> [ModeSet; 10]
    ensures { result ≡ own_ways }
{
    Mode::ALL.map(ModeSet::on_the_way)
}

/// The ways of the rules, with what the entries say.
fn read_entries(alloc: Global, entries: &Table) -> Result<[ModeSet; 10], SheetError>
    ensures ok { IfOk result (λ ways. passes_of own_ways (table_view entries.now) ≡ Ok ways) }
    ensures err { IfErr result (ReportsWithoutLine (passes_of own_ways (table_view entries.now))) }
{
    let mut ways = own_ways();
    'entries: for (key, value) in entries.iter() {
        let Some(goal) = mode_named(key.as_str()) else {
            return Err(SheetError::of_entry(
                alloc,
                TableName::Passes,
                key.as_str(),
                EntryFault::NoGoal,
            ));
        };
        ways[goal.index()] = read_way(alloc, key.as_str(), goal, value)?;
    }
    Ok(ways)
}

/// The modes on the way to a goal, by its entry.
fn read_way(alloc: Global, key: &str, goal: Mode, value: &Value) -> Result<ModeSet, SheetError>
    ensures ok { IfOk result (λ way. way_with key.now goal (as_array (view value.now)) ≡ Ok way) }
    ensures err { IfErr result (ReportsWithoutLine (way_with key.now goal (as_array (view value.now)))) }
{
    match value.as_array() {
        Some(names) => {
            let way = ModeSet::on_the_way(goal);
            with_names(alloc, TableName::Passes, key, way, names)
        }
        None => Err(SheetError::of_entry(alloc, TableName::Passes, key, EntryFault::NoModes)),
    }
}
