//! What a sheet says that commands do: what is forgotten at them, and to which modes they may lead.
ghost use Rattle.std.specs.Prelude.{◌≡◌, ℕ, IfErr, IfOk, IsOkAnd, None, if◌then◌else◌, option_map};
ghost use Rattle.std.specs.BTreeMap.{get};
ghost use Rattle.std.specs.Ordering.{nat_cmp};
ghost use Rattle.toml.specs.View.{view};
ghost use Rattle.sheet9.specs.Sheet.{effects_of, is_beside};
ghost use Rattle.sheet9.specs.Working.{AreEffectsOf, ReportsWithoutLine};

use crate::entries::read_table;
use crate::goals::read_goals;
use crate::refusal::SheetError;
use block9::Command;
use deck9::{Forgotten, ModeSet};
use std::alloc::{AllocError, Global};
use std::collections::BTreeMap;
use toml::Value;

/// What is said that commands do, each by its head.
#[derive(Drop)]
pub(crate) struct Effects {
    /// What is forgotten at them.
    pub(crate) forgets: BTreeMap<u32, Forgotten>,
    /// To which modes they may lead.
    pub(crate) goals: BTreeMap<u32, ModeSet>,
}

/// What is forgotten at commands, each by its head.
#[derive(Drop)]
pub(crate) struct Parted {
    /// At those that have no other effect.
    pub(crate) alone: BTreeMap<u32, Forgotten>,
    /// Beside an effect.
    pub(crate) beside: BTreeMap<u32, Forgotten>,
}

/// What the values of the keys `forgets` and `goals` say, where they are there.
pub(crate) fn read_effects(
    alloc: Global,
    forgets: Option<&Value>,
    goals: Option<&Value>,
) -> Result<Effects, SheetError>
    ensures ok { IfOk result (λ e. IsOkAnd (effects_of (option_map (λ v. view v.now) forgets.entry) (option_map (λ v. view v.now) goals.entry)) (λ said. AreEffectsOf said e)) }
    ensures err { IfErr result (ReportsWithoutLine (effects_of (option_map (λ v. view v.now) forgets.entry) (option_map (λ v. view v.now) goals.entry))) }
{
    let forgets = read_table(alloc, forgets)?;
    match read_goals(alloc, goals, &forgets) {
        Ok(goals) => Ok(Effects { forgets, goals }),
        Err(error) => Err(error),
    }
}

/// Parts what is said to be forgotten at commands by whether that is beside an effect.
pub(crate) fn part(
    alloc: Global,
    said: BTreeMap<u32, Forgotten>,
    goals: &BTreeMap<u32, ModeSet>,
) -> Result<Parted, AllocError>
    ensures alone { IfOk result (λ e. (head : ℕ) → get nat_cmp e.alone head ≡ (if is_beside (get nat_cmp goals.now) head then None else get nat_cmp said head)) }
    ensures beside { IfOk result (λ e. (head : ℕ) → get nat_cmp e.beside head ≡ (if is_beside (get nat_cmp goals.now) head then get nat_cmp said head else None)) }
{
    let mut rest = said;
    let (mut alone, mut beside) = (BTreeMap::new(alloc), BTreeMap::new(alloc));
    'rest: while let Some((head, forgotten)) = rest.pop_last() {
        if is_beside(goals, head) {
            beside.insert(head, forgotten)?;
        } else {
            alone.insert(head, forgotten)?;
        }
    }
    Ok(Parted { alone, beside })
}

/// Whether a command has an effect beside which it forgets: a listed one by the rules, another where some goals are named for it.
fn is_beside(goals: &BTreeMap<u32, ModeSet>, head: u32) -> bool
    ensures { result ≡ is_beside (get nat_cmp goals.now) head }
{
    Command::is_listed_head(head) || goals.get(&head).is_some()
}
