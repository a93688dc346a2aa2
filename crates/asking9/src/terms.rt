//! What a capture is asked with.
ghost use Rattle.std.specs.Prelude.{◌≡◌, ◌↔◌, ◌++◌, OnOk, true};
ghost use Rattle.deck9.specs.declared.state.Hands.TheVariants as TheHands;
ghost use Rattle.asking9.specs.Asking.{words_of};

use deck9::Hands;
use report9::put_text;
use std::alloc::AllocError;
use tc25::Rate;

/// What a capture is asked with.
#[derive(Clone, Copy, PartialEq, Eq)]
pub struct Terms {
    /// The rate of the deck's time code.
    pub rate: Rate,
    /// Whether the deck does what the sheet says.
    pub has_sheet: bool,
    /// Whether somebody may have touched the deck's panel.
    pub hands: Hands,
}

impl Terms {
    /// Puts the options that ask so, of which that of the sheet stands without its file.
    pub(crate) fn put(&self, text: &mut Vec<u8>) -> Result<(), AllocError>
        ensures { OnOk result (text.new.items ≡ text.old.items ++ words_of self.now) }
    {
        put_text(text, "--rate ")?;
        put_text(text, self.rate.word())?;
        if self.has_sheet {
            put_text(text, " --deck")?;
        }
        if self.hands == Hands::Allowed {
            put_text(text, " --hands")?;
        }
        Ok(())
    }

    /// Whether they are the others, but with hands where those are without.
    pub(crate) fn adds_hands_to(&self, others: &Terms) -> bool
        ensures { (result ≡ true) ↔ ((others.now.hands ≡ TheHands.None) × (self.now ≡ record others.now { hands = TheHands.Allowed })) }
    {
        match (others.hands, self.hands) {
            (Hands::None, Hands::Allowed) => {
                self.rate == others.rate && self.has_sheet == others.has_sheet
            }
            _ => false,
        }
    }
}
