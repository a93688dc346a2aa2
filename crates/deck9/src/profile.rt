//! What a deck is taken for.

use crate::deck::Deck;
use crate::deck_ref::DeckRef;
use crate::state::Hands;
use tc25::Rate;

/// What a deck is taken for: the rate of its time code, whether hands may touch its panel, and what it does in place of what the
/// rules say.
#[derive(Drop)]
pub struct Profile {
    /// The rate at which its times are counted.
    pub rate: Rate,
    /// Whether hands may touch its panel during a capture.
    pub hands: Hands,
    /// What it forgets at commands that are not listed, and beside the effects of commands, listed or not; the modes on the way to
    /// its goals; and the replies and the names of its commands. Where it is `None`, all is as the rules say of every deck.
    pub deck: Option<Deck>,
}

impl Profile {
    ghost use Rattle.std.specs.Prelude.{◌≡◌, None};

    /// A deck of this rate that does what the rules say of every deck.
    pub fn at(rate: Rate, hands: Hands) -> Profile
        ensures { result ≡ record { rate = rate; hands = hands; deck = None } }
    {
        Profile {
            rate,
            hands,
            deck: None,
        }
    }

    /// Its deck, if it has one.
    pub fn deck_ref(&self) -> DeckRef<'_>
        ensures { result ≡ self.entry.now.deck }
    {
        DeckRef(self.deck.as_ref())
    }
}
