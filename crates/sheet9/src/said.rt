//! What one sheet says, table by table.
ghost use Rattle.std.specs.Prelude.{IfErr, IfOk, IsOkAnd, OnOk};
ghost use Rattle.toml.specs.View.{table_view};
ghost use Rattle.sheet9.specs.Sheet.{IsDeckOf, Sheet, meaning_of};
ghost use Rattle.sheet9.specs.Sheets.{together};
ghost use Rattle.sheet9.specs.Working.{ReportsWithoutLine, IsSaid};

use crate::acts::joined;
use crate::effects::{Parted, part, read_effects};
use crate::entries::read_table;
use crate::names::Name;
use crate::passes::{read_passes, with_ways};
use crate::refusal::SheetError;
use crate::replies::Forms;
use crate::runs::RunModes;
use crate::sheet::{check_keys, value_at};
use crate::union::put_all;
use deck9::{Deck, Forgotten, Lost, ModeSet};
use std::alloc::{AllocError, Global};
use std::collections::BTreeMap;
use toml::Table;

/// What a sheet says of commands, each by its head, and the modes on the way to each goal, in the order of the modes.
#[derive(Drop)]
pub(crate) struct Said {
    /// What is forgotten at them.
    pub(crate) forgets: BTreeMap<u32, Forgotten>,
    /// To which modes they may lead.
    pub(crate) goals: BTreeMap<u32, ModeSet>,
    /// Which registers the deck may lose after them.
    pub(crate) loses: BTreeMap<u32, Lost>,
    /// What they are called.
    pub(crate) names: BTreeMap<u32, Name>,
    /// The modes on the way to each goal.
    pub(crate) ways: [ModeSet; 10],
    /// Which replies they take.
    pub(crate) replies: BTreeMap<u32, Forms>,
    /// Which modes the deck may show after them.
    pub(crate) runs: BTreeMap<u32, RunModes>,
}

impl Said {
    /// Reads the tables of a document.
    pub(crate) fn read(alloc: Global, top: &Table) -> Result<Said, SheetError>
        ensures ok { IfOk result (λ said. IsOkAnd (meaning_of (table_view top.now)) (λ sheet. IsSaid sheet said)) }
        ensures err { IfErr result (ReportsWithoutLine (meaning_of (table_view top.now))) }
    {
        check_keys(alloc, top)?;
        let effects = read_effects(alloc, value_at(top, "forgets"), value_at(top, "goals"))?;
        Ok(Said {
            forgets: effects.forgets,
            goals: effects.goals,
            loses: read_table(alloc, value_at(top, "loses"))?,
            names: read_table(alloc, value_at(top, "names"))?,
            ways: read_passes(alloc, value_at(top, "passes"))?,
            replies: read_table(alloc, value_at(top, "replies"))?,
            runs: read_table(alloc, value_at(top, "runs"))?,
        })
    }

    /// Takes what another sheet says besides.
    pub(crate) fn take(&mut self, other: Said) -> Result<(), AllocError>
        ensures { (one : Sheet) (more : Sheet) → IsSaid one self.old → IsSaid more other → OnOk result (IsSaid (together one more) self.new) }
    {
        put_all(&mut self.forgets, other.forgets)?;
        put_all(&mut self.goals, other.goals)?;
        put_all(&mut self.loses, other.loses)?;
        put_all(&mut self.names, other.names)?;
        self.ways = with_ways(&self.ways, &other.ways);
        put_all(&mut self.replies, other.replies)?;
        put_all(&mut self.runs, other.runs)?;
        Ok(())
    }

    /// The deck that does what is said.
    pub(crate) fn into_deck(self, alloc: Global) -> Result<Deck, AllocError>
        ensures { (sheet : Sheet) → IsSaid sheet self → IfOk result (IsDeckOf sheet) }
    {
        let Said {
            forgets,
            goals,
            loses,
            names,
            ways,
            replies,
            runs,
        } = self;
        let Parted { alone, beside } = part(alloc, forgets, &goals)?;
        Ok(Deck {
            forgets: alone,
            also_forgets: beside,
            goals,
            acts: joined(alloc, runs, loses)?,
            ways,
            names,
            replies,
        })
    }
}
