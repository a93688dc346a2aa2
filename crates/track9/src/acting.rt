//! What a drift goes by: what the deck does of its own, and what may be going on.
ghost use Rattle.std.specs.Prelude.{◌≡◌, IsTrue, None, false, true};
ghost use Rattle.deck9.specs.declared.mode.Mode.TheVariants.{Stop};
ghost use Rattle.deck9.specs.Going.{nothing_on, on_after, on_at_first};
ghost use Rattle.deck9.specs.declared.going.Lost.TheVariants.{NoRegister};
ghost use Rattle.track9.specs.Working.Acting.{HoldsReach, IsStill, reach_by};

use block9::Exchange;
use deck9::{DeckRef, Going, Mode, ModeSet, Profile};
use std::marker::Model;

/// What a drift goes by. The modes that it may show with each goal are made once, where what may be going on changes, so that a drift asks
/// nothing more for them.
#[derive(Drop)]
pub(crate) struct Acting<'a> {
    pub(crate) deck: DeckRef<'a>,
    going: Going,
    /// The modes that a drift may show with each goal that it keeps: itself, those on the way to it, and those that may be going on.
    reach: [ModeSet; 10],
    /// Those that it may show where it comes to a halt: those of STOP once more, so that a drift takes all goals alike, side by side.
    at_halt: ModeSet,
    /// Nothing goes on, and there is no sheet that names what could: so it is from here on.
    is_still: bool,
}

impl<'a> Model for Acting<'a> {
    ghost use Rattle.std.specs.Prelude.{◌≡◌, true};
    ghost use Rattle.deck9.specs.declared.mode.Mode.TheVariants.{Stop};
    ghost use Rattle.track9.specs.Working.Acting.{Acted, HoldsReach, IsStill, reach_by};
    ghost use Rattle.track9.specs.Working.Codes.{stored};

    ghost Value = { Acted };

    ghost coded = { Prim.hlevel stored };

    ghost view = { λ a. record { deck = a.deck; on = a.going } };

    ghost invariant = { λ a. HoldsReach a.deck a.going a.reach × (a.at_halt ≡ reach_by a.deck a.going Stop) × (a.is_still ≡ true → IsStill a.deck a.going) };
}

impl<'a> Acting<'a> {
    /// Of what a deck is taken for, before a capture.
    pub(crate) fn at_first(profile: &'a Profile) -> Acting<'a>
        ensures { result ≡ record { deck = profile.now.deck; on = on_at_first profile.now.deck } }
    {
        let deck = profile.deck_ref();
        let going = deck.on_at_first();
        let mut acting = Acting::new(deck, going);
        acting.is_still = profile.deck.is_none();
        acting
    }

    /// Of no deck: nothing goes on.
    pub(crate) fn none() -> Acting<'a>
        ensures { result ≡ record { deck = None; on = nothing_on } }
    {
        Acting::new(DeckRef::none(), Going::NOTHING)
    }

    /// Of a deck, where this may be going on.
    fn new(deck: DeckRef<'a>, going: Going) -> Acting<'a>
        ensures { result ≡ record { deck = deck.entry; on = going } }
    {
        let reach = reach_of(&deck, going.modes);
        Acting {
            deck,
            going,
            reach,
            at_halt: reach[Mode::Stop.index()],
            is_still: false,
        }
    }

    /// The same.
    pub(crate) fn copy(&self) -> Acting<'a>
        ensures { result ≡ self.now }
    {
        Acting {
            deck: self.deck.copy(),
            going: self.going,
            reach: self.reach,
            at_halt: self.at_halt,
            is_still: self.is_still,
        }
    }

    /// Whether it is known that no exchange begins or ends anything.
    #[inline(always)] // it is asked of every exchange
    pub(crate) fn is_still(&self) -> bool
        ensures { IsTrue result → IsStill self.now.deck self.now.on }
    {
        self.is_still
    }

    /// What may be going on.
    pub(crate) fn going(&self) -> Going
        ensures { result ≡ self.now.on }
    {
        self.going
    }

    /// The modes that a drift may show with each goal that it keeps, in the order of the modes.
    #[inline(always)] // it is asked of every exchange
    pub(crate) fn reach(&self) -> &[ModeSet; 10]
        ensures { HoldsReach self.entry.now.deck self.entry.now.on result.now }
    {
        &self.reach
    }

    /// The modes that a drift may show where it comes to a halt.
    #[inline(always)] // it is asked of every exchange
    pub(crate) fn at_halt(&self) -> ModeSet
        ensures { result ≡ reach_by self.now.deck self.now.on Stop }
    {
        self.at_halt
    }

    /// The modes that a drift may show with a goal that it keeps.
    pub(crate) fn reach_with(&self, goal: Mode) -> ModeSet
        ensures { result ≡ reach_by self.now.deck self.now.on goal }
    {
        self.reach[goal.index()]
    }

    /// What may be going on after an exchange, of which the reply is believed.
    #[inline(always)] // it is asked of every exchange
    pub(crate) fn go_on_after(&mut self, exchange: &Exchange)
        ensures { self.new ≡ record self.old { on = on_after self.old.deck true exchange.now self.old.on } }
    {
        let before = self.going;
        let going = self.deck.on_after(exchange, before);
        self.go_on(going);
    }

    /// The same where the reply is not known.
    pub(crate) fn go_on_after_unknown(&mut self, exchange: &Exchange)
        ensures { self.new ≡ record self.old { on = on_after self.old.deck false exchange.now self.old.on } }
    {
        let before = self.going;
        let going = self.deck.on_after_unknown(exchange, before);
        self.go_on(going);
    }

    /// This may be going on from here on.
    pub(crate) fn go_on(&mut self, going: Going)
        ensures { self.new ≡ record self.old { on = going } }
    {
        if going != self.going {
            self.reach = reach_of(&self.deck, going.modes);
            self.at_halt = self.reach[Mode::Stop.index()];
            self.is_still = false;
            self.going = going;
        }
    }
}

/// The modes that a drift may show with each goal that it keeps, where these may be going on.
fn reach_of(deck: &DeckRef, modes: ModeSet) -> [ModeSet; 10]
    ensures { HoldsReach deck.now (record { modes = modes; lost = NoRegister }) result }
{
    let [a, b, c, d, e, f, g, h, i, j] = *deck.ways();
    let with = |goal: Mode, way: ModeSet| {
        ModeSet::just(goal).or(way.or(modes)).and(ModeSet::ALL)
    };
    [
        with(Mode::Stop, a),
        with(Mode::Play, b),
        with(Mode::Rec, c),
        with(Mode::FastForward, d),
        with(Mode::Rewind, e),
        with(Mode::Shuttle, f),
        with(Mode::Jog, g),
        with(Mode::Var, h),
        with(Mode::Cued, i),
        with(Mode::Eject, j),
    ]
}
