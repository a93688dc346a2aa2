//! Profiles of decks that do things of their own, by plain sheets.

use super::plain_deck::{LISTED_HEADS, MODES, Sheet};
use deck9::{Deck, Forgotten, Going, Hands, Mode, ModeSet, Profile};
use std::alloc::{AllocError, Global};
use std::collections::BTreeMap;
use tc25::Rate;

/// What is forgotten at the commands that are named: beside an effect of theirs, or alone.
fn forgets_of(
    alloc: Global,
    sheet: &Sheet,
    is_beside: bool,
) -> Result<BTreeMap<u32, Forgotten>, AllocError> {
    let mut forgets = BTreeMap::new(alloc);
    for (head, forgotten) in sheet.named {
        let has_goals = sheet.goals.iter().any(|(named, _)| named == head);
        if (LISTED_HEADS.contains(head) || has_goals) == is_beside {
            forgets.insert(*head, *forgotten)?;
        }
    }
    Ok(forgets)
}

/// The modes that may become the goal at the commands that are named.
fn goals_of(alloc: Global, named: &[(u32, Mode)]) -> Result<BTreeMap<u32, ModeSet>, AllocError> {
    let mut goals = BTreeMap::new(alloc);
    for (head, mode) in named {
        let before = goals.get(head).copied().unwrap_or(ModeSet::NONE);
        goals.insert(*head, before.or(ModeSet::just(*mode)))?;
    }
    Ok(goals)
}

/// The modes on the way to each goal: those of every deck, and these.
fn ways_of(further: &[(Mode, Mode)]) -> [ModeSet; 10] {
    let mut ways = MODES.map(|goal| ModeSet::on_the_way(goal));
    for (goal, mode) in further {
        if let Some(way) = ways.get_mut(*goal as usize) {
            *way = way.or(ModeSet::just(*mode));
        }
    }
    ways
}

/// What it may do by itself after the commands that are named.
fn acts_of(alloc: Global, sheet: &Sheet) -> Result<BTreeMap<u32, Going>, AllocError> {
    let mut acts = BTreeMap::new(alloc);
    for (head, mode) in sheet.runs {
        let mut named = acts.get(head).copied().unwrap_or(Going::NOTHING);
        named.modes = named.modes.or(ModeSet::just(*mode));
        acts.insert(*head, named)?;
    }
    for (head, lost) in sheet.loses {
        let mut named = acts.get(head).copied().unwrap_or(Going::NOTHING);
        named.lost = *lost;
        acts.insert(*head, named)?;
    }
    Ok(acts)
}

/// A deck of 25 frames a second that does of its own what a sheet says.
pub(super) fn profile_of(
    alloc: Global,
    hands: Hands,
    sheet: &Sheet,
) -> Result<Profile, AllocError> {
    let forgets = forgets_of(alloc, sheet, false)?;
    let also_forgets = forgets_of(alloc, sheet, true)?;
    let goals = goals_of(alloc, sheet.goals)?;
    let acts = acts_of(alloc, sheet)?;
    Ok(Profile {
        rate: Rate::Fps25,
        hands,
        deck: Some(Deck {
            forgets,
            goals,
            also_forgets,
            acts,
            ways: ways_of(sheet.ways),
            names: BTreeMap::new(alloc),
            replies: BTreeMap::new(alloc),
        }),
    })
}
