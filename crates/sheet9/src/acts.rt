//! What a deck may do by itself after commands: what the tables `[runs]` and `[loses]` say together.
ghost use Rattle.std.specs.Prelude.{◌≡◌, ℕ, IfOk, option_map};
ghost use Rattle.std.specs.BTreeMap.{get};
ghost use Rattle.std.specs.Ordering.{nat_cmp};
ghost use Rattle.sheet9.specs.Acts.{going_of, unfit_to_begin};

use crate::head::is_transport;
use crate::refusal::EntryFault;
use crate::runs::RunModes;
use deck9::{Going, Lost, ModeSet};
use std::alloc::{AllocError, Global};
use std::collections::BTreeMap;

/// What is wrong with a command, by its head, where it is to begin what a deck does by itself.
pub(crate) fn unfit_to_begin(head: u32) -> Option<EntryFault>
    ensures { result ≡ unfit_to_begin head }
{
    (!is_transport(head)).then_some(EntryFault::BeginsNothing)
}

/// Joins what is said to be shown after commands with what is said to be lost after them: each command once, with nothing of the
/// table in which it has no key.
pub(crate) fn joined(
    alloc: Global,
    shown: BTreeMap<u32, RunModes>,
    lost: BTreeMap<u32, Lost>,
) -> Result<BTreeMap<u32, Going>, AllocError>
    ensures { IfOk result (λ acts. (head : ℕ) → get nat_cmp acts head ≡ going_of (option_map (λ run. run.0) (get nat_cmp shown head)) (get nat_cmp lost head)) }
{
    let (mut runs, mut losses) = (shown, lost);
    let mut acts = BTreeMap::new(alloc);
    'losses: while let Some((head, lost)) = losses.pop_last() {
        let modes = match runs.remove(&head) {
            Some(run) => run.0,
            None => ModeSet::NONE,
        };
        acts.insert(head, Going { modes, lost })?;
    }
    'runs: while let Some((head, run)) = runs.pop_last() {
        let going = Going {
            modes: run.0,
            lost: Lost::NoRegister,
        };
        acts.insert(head, going)?;
    }
    Ok(acts)
}
