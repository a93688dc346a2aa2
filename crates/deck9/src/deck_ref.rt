//! The deck of a profile, if it has one: what it does in place of what the rules say of every deck.
ghost use Rattle.std.specs.Prelude.{◌≡◌, None, false, slice_index_or, true};
ghost use Rattle.block9.specs.Block.{head_of};
ghost use Rattle.deck9.specs.Deck.{forgotten_at, forgotten_beside, forgotten_by_group, goals_at, replies_of, way_of};
ghost use Rattle.deck9.specs.Effect.{effect_of};
ghost use Rattle.deck9.specs.Going.{all_with, named_on, nothing_on, on_after, on_at_first};
ghost use Rattle.std.specs.BTreeMap.{values};
ghost use Rattle.deck9.specs.Mode.{index_of};
ghost use Rattle.deck9.specs.ModeSet.{modes};
ghost use Rattle.deck9.specs.Step.{forgotten_with};
ghost use Rattle.deck9.specs.declared.mode.Mode.{Mode as AMode};

use crate::deck::{Deck, Forgotten};
use crate::effect::Effect;
use crate::going::Going;
use crate::mode::Mode;
use crate::mode_set::ModeSet;
use crate::sense::Sense;
use block9::{Command, Exchange, NamedReplies};
use std::marker::Model;

/// The deck of a profile, or none: then all is as the rules say of every deck.
#[derive(Drop)]
pub struct DeckRef<'a>(pub(crate) Option<&'a Deck>);

impl<'a> Model for DeckRef<'a> {
    ghost use Rattle.std.specs.Prelude.{Option, option_map};
    ghost use Rattle.deck9.specs.declared.deck.Deck.{Deck as ADeck};
    ghost use Rattle.deck9.specs.Working.Codes.{deck_codes};

    ghost Value = { Option ADeck };

    ghost coded = { Prim.hlevel deck_codes };

    ghost view = { λ o. option_map (λ d. d.now) o.0 };
}

impl<'a> DeckRef<'a> {
    /// No deck: the rules alone.
    pub fn none() -> DeckRef<'a>
        ensures { result ≡ None }
    {
        DeckRef(None)
    }

    /// The same.
    pub fn copy(&self) -> DeckRef<'a>
        ensures { result ≡ self.now }
    {
        DeckRef(self.0)
    }

    /// What a command does where it is acknowledged.
    #[inline(always)] // it is asked of every exchange
    pub fn effect(&self, command: &Command) -> Effect
        ensures { result ≡ effect_of self.now command.now }
    {
        match command {
            Command::Unlisted { head } => match self.goals_at(*head) {
                Some(goals) => Effect::KeepOr(goals),
                None => Effect::Forget(self.forgotten_at(*head)),
            },
            _ => Effect::listed(command),
        }
    }

    /// The modes of which its goal may become one at the command with this head, which is not listed, if some are named.
    fn goals_at(&self, head: u32) -> Option<ModeSet>
        ensures { result ≡ goals_at self.now head }
    {
        self.0?.goals.get(&head).copied()
    }

    /// What it forgets at the command with this head, which is not listed.
    fn forgotten_at(&self, head: u32) -> Forgotten
        ensures { result ≡ forgotten_at self.now head }
    {
        let named = match self.0 {
            Some(deck) => deck.forgets.get(&head),
            None => None,
        };
        match named {
            Some(forgotten) => *forgotten,
            None => forgotten_by_group(head / 0x10_00),
        }
    }

    /// What it forgets with an exchange beside the effect of its command: nothing where that got a NAK.
    #[inline(always)] // it is asked of every exchange
    pub fn forgotten_with(&self, exchange: &Exchange) -> Forgotten
        ensures { result ≡ forgotten_with self.now exchange.now }
    {
        if self.0.is_none() || exchange.reply.is_nak() {
            return Forgotten::Nothing;
        }
        self.forgotten_beside(exchange)
    }

    /// What it forgets beside the effect of an exchange's command, whatever the reply is.
    #[inline(always)] // it is asked of every exchange
    pub fn forgotten_beside(&self, exchange: &Exchange) -> Forgotten
        ensures { result ≡ forgotten_beside self.now exchange.now.command (head_of exchange.now.block) }
    {
        let Some(deck) = self.0 else {
            return Forgotten::Nothing;
        };
        match Sense::of(&exchange.command) {
            Sense::Nothing => deck.named_beside(exchange.block.head()),
            Sense::Register(_) | Sense::Status(_) => Forgotten::Nothing,
        }
    }

    /// What may be going on before a capture: all that is named.
    pub fn on_at_first(&self) -> Going
        ensures { result ≡ on_at_first self.now }
    {
        match self.0 {
            Some(deck) => all_named(deck),
            None => Going::NOTHING,
        }
    }

    /// What is named for the command with this head.
    fn named_on(&self, head: u32) -> Option<Going>
        ensures { result ≡ named_on self.now head }
    {
        self.0?.acts.get(&head).copied()
    }

    /// What goes on after an exchange, where this went on before it. It changes at commands of group 2 alone.
    #[inline(always)] // it is asked of every exchange
    pub fn on_after(&self, exchange: &Exchange, going: Going) -> Going
        ensures { result ≡ on_after self.now true exchange.now going }
    {
        // nearly always: nothing goes on, and nothing is named that could
        if self.0.is_none() && going == Going::NOTHING {
            return going;
        }
        if exchange.block.group != 2 || exchange.reply.is_nak() {
            return going;
        }
        match self.named_on(exchange.block.head()) {
            Some(named) => named,
            None => going.left_by(&Effect::listed(&exchange.command)),
        }
    }

    /// The same where the reply is not known.
    pub fn on_after_unknown(&self, exchange: &Exchange, going: Going) -> Going
        ensures { result ≡ on_after self.now false exchange.now going }
    {
        if exchange.block.group != 2 {
            return going;
        }
        match self.named_on(exchange.block.head()) {
            Some(named) => going.together(named),
            None => going,
        }
    }

    /// The modes that it may show on the way to each goal, in the order of the modes.
    #[inline(always)] // it is asked of every exchange
    pub fn ways(&self) -> &'a [ModeSet; 10]
        ensures { (g : AMode) → slice_index_or result.now (index_of g) (modes 0) ≡ way_of self.entry.now g }
    {
        match self.0 {
            Some(deck) => &deck.ways,
            None => ModeSet::WAYS,
        }
    }

    /// The modes that it may show on the way to a goal.
    pub fn way(&self, goal: Mode) -> ModeSet
        ensures { result ≡ way_of self.now goal }
    {
        self.ways()[goal.index()]
    }

    /// The replies that are named for its commands.
    pub fn replies(&self) -> NamedReplies<'a>
        ensures { result ≡ replies_of self.now }
    {
        match self.0 {
            Some(deck) => NamedReplies::of(Some(&deck.replies)),
            None => NamedReplies::none(),
        }
    }
}

/// All that is named of what a deck may do by itself.
fn all_named(deck: &Deck) -> Going
    ensures { result ≡ all_with nothing_on (values deck.now.acts) }
{
    let mut all = Going::NOTHING;
    for named in deck.acts.values() {
        all = all.together(*named);
    }
    all
}

/// What is forgotten at a command that is not listed and not named, by its group.
fn forgotten_by_group(group: u32) -> Forgotten
    ensures { result ≡ forgotten_by_group group }
{
    match group {
        2 => Forgotten::Tape,
        4 => Forgotten::Registers,
        6 => Forgotten::Nothing,
        _ => Forgotten::Everything,
    }
}
