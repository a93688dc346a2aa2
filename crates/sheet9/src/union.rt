//! Tables of several sheets as one.
ghost use Rattle.std.specs.Prelude.{◌≡◌, ℕ, OnOk};
ghost use Rattle.std.specs.BTreeMap.{get};
ghost use Rattle.std.specs.Ordering.{nat_cmp};
ghost use Rattle.sheet9.specs.Sheets.{either_said};

use std::alloc::AllocError;
use std::collections::BTreeMap;

/// Puts all entries of another table into one, in place of those of the same command.
pub(crate) fn put_all<V: Drop>(
    table: &mut BTreeMap<u32, V>,
    other: BTreeMap<u32, V>,
) -> Result<(), AllocError>
    ensures { OnOk result ((head : ℕ) → get nat_cmp table.new head ≡ either_said (get nat_cmp other head) (get nat_cmp table.old head)) }
{
    let mut rest = other;
    'rest: while let Some((head, said)) = rest.pop_last() {
        table.insert(head, said)?;
    }
    Ok(())
}
