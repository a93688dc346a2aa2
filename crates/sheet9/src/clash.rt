//! What two sheets say differently.
ghost use Rattle.std.specs.Prelude.{◌≡◌, ◌&&◌, ℕ, IfSome, None, false, is_some, not, option_map, true};
ghost use Rattle.std.specs.BTreeMap.{get};
ghost use Rattle.std.specs.Ordering.{nat_cmp};
ghost use Rattle.deck9.specs.declared.mode.Mode.{Mode as AMode};
ghost use Rattle.sheet9.specs.Goals.{goes_with};
ghost use Rattle.sheet9.specs.Sheet.{Sheet};
ghost use Rattle.sheet9.specs.Sheets.{Agree, Differ, DifferAt, OtherWay, SameWay, SaySame, way_in};
ghost use Rattle.sheet9.specs.Working.{IsSaid};

use crate::entries::EntryValue;
use crate::goals::goes_with;
use crate::refusal::TableName;
use crate::said::Said;
use crate::text::name_of;
use deck9::{Forgotten, Mode, ModeSet};
use std::collections::BTreeMap;
use std::fmt;

/// Of what two sheets say different things. Its `Display` is the table and the key.
#[derive(Clone, Copy, PartialEq, Eq)]
pub enum Clash {
    /// Of a command, in this table.
    Entry {
        /// The table.
        table: TableName,
        /// The command, by the first two bytes of its block as one number; CURRENT TIME SENSE with a selector by the first three.
        head: u32,
    },
    /// Of a command: `[goals]` of one names it, and `[forgets]` of the other has another word for it than `"nothing"` and
    /// `"registers"`.
    GoalsForget {
        /// The command, by the first two bytes of its block as one number.
        head: u32,
    },
    /// Of the modes on the way to a goal, in `[passes]`.
    Way {
        /// The goal.
        goal: Mode,
    },
}

impl Said {
    /// The first thing of which another sheet says something different, in the order of the tables' names, and within a table in the order
    /// of the commands.
    pub(crate) fn clash_with(&self, other: &Said) -> Option<Clash>
        ensures none { (one : Sheet) (more : Sheet) → IsSaid one self.now → IsSaid more other.now → result ≡ None → Agree one more }
        ensures some { (one : Sheet) (more : Sheet) → IsSaid one self.now → IsSaid more other.now → IfSome result (DifferAt one more) }
    {
        if let Some(head) = differing(&self.forgets, &other.forgets) {
            return Some(in_table(TableName::Forgets, head));
        }
        if let Some(head) = differing(&self.goals, &other.goals) {
            return Some(in_table(TableName::Goals, head));
        }
        let forgetting = forgetting_more(&self.goals, &other.forgets);
        if let Some(head) = forgetting.or(forgetting_more(&other.goals, &self.forgets)) {
            return Some(Clash::GoalsForget { head });
        }
        if let Some(head) = differing(&self.loses, &other.loses) {
            return Some(in_table(TableName::Loses, head));
        }
        if let Some(head) = differing(&self.names, &other.names) {
            return Some(in_table(TableName::Names, head));
        }
        if let Some(goal) = other_way(&self.ways, &other.ways) {
            return Some(Clash::Way { goal });
        }
        if let Some(head) = differing(&self.replies, &other.replies) {
            return Some(in_table(TableName::Replies, head));
        }
        Some(in_table(TableName::Runs, differing(&self.runs, &other.runs)?))
    }
}

/// That two sheets say different things of a command in a table.
fn in_table(table: TableName, head: u32) -> Clash
    ensures { result ≡ Clash.Entry table head }
{
    Clash::Entry { table, head }
}

/// The first command of which two tables say different things.
fn differing<V: EntryValue>(one: &BTreeMap<u32, V>, other: &BTreeMap<u32, V>) -> Option<u32>
    ensures none { result ≡ None → (head : ℕ) → SaySame (option_map V.said (get nat_cmp one.now head)) (option_map V.said (get nat_cmp other.now head)) }
    ensures some { IfSome result (λ head. Differ (option_map V.said (get nat_cmp one.now head)) (option_map V.said (get nat_cmp other.now head))) }
{
    'entries: for (head, _said) in one.iter() {
        if differ(one.get(head), other.get(head)) {
            return Some(*head);
        }
    }
    None
}

/// Whether two tables say different things of a command, of which these say what they say.
fn differ<V: EntryValue>(one: Option<&V>, other: Option<&V>) -> bool
    ensures differ { result ≡ true → Differ (option_map (λ v. V.said v.now) one.entry) (option_map (λ v. V.said v.now) other.entry) }
    ensures same { result ≡ false → SaySame (option_map (λ v. V.said v.now) one.entry) (option_map (λ v. V.said v.now) other.entry) }
{
    match (one, other) {
        (Some(said), Some(otherwise)) => !said.is_same(otherwise),
        _ => false,
    }
}

/// The first command for which one sheet names goals, and of which another says that the deck forgets what does not go with that.
fn forgetting_more(
    goals: &BTreeMap<u32, ModeSet>,
    forgets: &BTreeMap<u32, Forgotten>,
) -> Option<u32>
    ensures none { result ≡ None → (head : ℕ) → (is_some (get nat_cmp goals.now head) && not (goes_with (get nat_cmp forgets.now head))) ≡ false }
    ensures some { IfSome result (λ head. (is_some (get nat_cmp goals.now head) && not (goes_with (get nat_cmp forgets.now head))) ≡ true) }
{
    'entries: for (head, _goals) in goals.iter() {
        if goals.get(head).is_some() && !goes_with(forgets.get(head)) {
            return Some(*head);
        }
    }
    None
}

/// The first goal on whose way two sheets name different modes.
fn other_way(one: &[ModeSet; 10], other: &[ModeSet; 10]) -> Option<Mode>
    ensures none { result ≡ None → (goal : AMode) → SameWay goal (way_in one.now goal) (way_in other.now goal) }
    ensures some { IfSome result (λ goal. OtherWay goal (way_in one.now goal) (way_in other.now goal)) }
{
    for goal in &Mode::ALL {
        let place = goal.index();
        if is_other_way(*goal, one[place], other[place]) {
            return Some(*goal);
        }
    }
    None
}

/// Whether two sheets name different modes on the way to a goal, where these are on it by each: one that has just those of the rules
/// names none.
fn is_other_way(goal: Mode, one: ModeSet, other: ModeSet) -> bool
    ensures other { result ≡ true → OtherWay goal one other }
    ensures same { result ≡ false → SameWay goal one other }
{
    let own = ModeSet::on_the_way(goal);
    one != other && one != own && other != own
}

impl fmt::Display for Clash {
    fn fmt<W: fmt::Write>(&self, f: &mut fmt::Formatter<W>) -> fmt::Result {
        match self {
            Clash::Entry { table, head } => {
                let (table, key) = (name_of(*table), HeadKey(*head));
                write!(f, "[{table}] {key}")
            }
            Clash::GoalsForget { head } => {
                let key = HeadKey(*head);
                write!(f, "[forgets] and [goals] {key}")
            }
            Clash::Way { goal } => {
                let goal = goal.name();
                write!(f, "[passes] \"{goal}\"")
            }
        }
    }
}

/// The key of a command, by its head.
#[derive(Clone, Copy)]
struct HeadKey(u32);

impl fmt::Display for HeadKey {
    fn fmt<W: fmt::Write>(&self, f: &mut fmt::Formatter<W>) -> fmt::Result {
        let (first, second, third) = (
            self.0 / 0x1_00_00,
            self.0 / 0x1_00 % 0x1_00,
            self.0 % 0x1_00,
        );
        if first == 0 {
            write!(f, "\"{second:02X} {third:02X}\"")
        } else {
            write!(f, "\"{first:02X} {second:02X} {third:02X}\"")
        }
    }
}
