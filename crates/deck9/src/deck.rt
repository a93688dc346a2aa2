//! What the rules leave to each deck: what it forgets at some commands, or beside their effects, where others may lead, which modes it
//! may show on the way to its goal, and which replies it gives beside those of the tables; and what its commands are called.

use crate::going::Going;
use crate::mode_set::ModeSet;
use arrayvec::ArrayVec;
use block9::ReplyForm;
use smallvec::SmallVec;
use std::collections::BTreeMap;

/// What becomes anything at a command that is not listed, or at any beside its effect. All else stays.
#[derive(Clone, Copy, PartialEq, Eq)]
pub enum Forgotten {
    /// Nothing.
    Nothing,
    /// Commanded mode and shown mode.
    Motion,
    /// The four registers.
    Registers,
    /// Commanded mode, shown mode and registers.
    Tape,
    /// Everything, the panel only where hands are allowed.
    Everything,
}

/// What one deck does in place of what the rules say of every deck.
#[derive(Drop)]
pub struct Deck {
    /// What it forgets at a command that is not listed, by the first two bytes of the command's block as one number. At a
    /// command that is not named here it forgets by the command's group.
    pub forgets: BTreeMap<u32, Forgotten>,
    /// The modes of which its commanded mode may become one at a command that is not listed, by the first two bytes of the command's
    /// block as one number. It may be kept there too, and nothing is forgotten by `forgets`.
    pub goals: BTreeMap<u32, ModeSet>,
    /// What it forgets at a command beside the command's own effect, by the first two bytes of the command's block as one number:
    /// nothing at one that is not named here, nor at one that asks for something of the state.
    pub also_forgets: BTreeMap<u32, Forgotten>,
    /// What it may do by itself after a command of group 2, until another ends it, by the first two bytes of the command's block as one
    /// number. At one that is not named here what was going on ends, or goes on, as the command's effect says; a command of another group
    /// ends and begins nothing.
    pub acts: BTreeMap<u32, Going>,
    /// The modes that it may show on the way to each goal, in the order of the modes.
    pub ways: [ModeSet; 10],
    /// The names of commands that are not listed, in ASCII, by the first two bytes of the command's block as one number.
    pub names: BTreeMap<u32, ArrayVec<u8, 24>>,
    /// The forms of reply that it gives to commands, by the first two bytes of the command's block as one number, or, for a selector of
    /// CURRENT TIME SENSE, by the first three: beside the replies of the tables to one that is listed, and beside a NAK to one that
    /// is not. A command that is not listed and not named here takes any reply.
    pub replies: BTreeMap<u32, SmallVec<ReplyForm, 4>>,
}

impl Deck {
    ghost use Rattle.std.specs.Prelude.{◌≡◌, Some};
    ghost use Rattle.deck9.specs.Deck.{named_beside};

    /// What is named beside the effect of the command with this head.
    pub(crate) fn named_beside(&self, head: u32) -> Forgotten
        ensures { result ≡ named_beside (Some self.now) head }
    {
        match self.also_forgets.get(&head) {
            Some(named) => *named,
            None => Forgotten::Nothing,
        }
    }
}
