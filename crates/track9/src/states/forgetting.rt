//! What is forgotten of a set of states, without a drift.
ghost use Rattle.std.specs.Prelude.{◌≡◌, ◌≢◌, IfOk, OnErr, OnOk, true};
ghost use Rattle.track9.specs.Working.States.{AreForgotten, AreWhole, halves_forgotten, halves_of, hands_of, states_rate};

use crate::halves::Halves;
use crate::states::States;
use deck9::{Forgotten, Hands};
use sets25::TimeSet;
use std::alloc::{AllocError, Global};

impl<S: TimeSet> States<S> {
    /// The states after something is forgotten: where hands are allowed and it is everything, the panel too. Where memory is
    /// refused nothing has changed.
    pub(crate) fn forget(&mut self, alloc: Global, forgotten: Forgotten) -> Result<(), AllocError>
        requires { AreWhole (states_rate self.old) self.old }
        ensures ok { OnOk result (AreForgotten forgotten self.old self.new) }
        ensures err { OnErr result (self.new ≡ self.old) }
    {
        match self.hands() {
            Hands::None => self.off.forget(alloc, forgotten),
            Hands::Allowed => self.forget_by_hand(alloc, forgotten),
        }
    }

    /// The states after something is forgotten, where hands are allowed.
    fn forget_by_hand(&mut self, alloc: Global, forgotten: Forgotten) -> Result<(), AllocError>
        requires whole { AreWhole (states_rate self.old) self.old }
        requires hands { hands_of self.old ≡ Hands.Allowed }
        ensures ok { OnOk result (AreForgotten forgotten self.old self.new) }
        ensures err { OnErr result (self.new ≡ self.old) }
    {
        self.below_day();
        match forgotten {
            Forgotten::Everything => self.forget_all(alloc),
            _ => self.forget_both(alloc, forgotten),
        }
    }

    /// The states after something but everything is forgotten, which leaves the panel as it is.
    fn forget_both(&mut self, alloc: Global, forgotten: Forgotten) -> Result<(), AllocError>
        requires whole { AreWhole (states_rate self.old) self.old }
        requires hands { hands_of self.old ≡ Hands.Allowed }
        requires some { forgotten ≢ Forgotten.Everything }
        ensures ok { OnOk result (AreForgotten forgotten self.old self.new) }
        ensures err { OnErr result (self.new ≡ self.old) }
    {
        let on = self.forgotten_on(alloc, forgotten)?;
        match self.off.forget(alloc, forgotten) {
            Ok(()) => {
                self.put_on(on);
                Ok(())
            }
            Err(error) => {
                drop(on);
                Err(error)
            }
        }
    }

    /// What the states with the panel on are after something is forgotten, aside.
    fn forgotten_on(&self, alloc: Global, forgotten: Forgotten) -> Result<Halves<S>, AllocError>
        requires { hands_of self.now ≡ Hands.Allowed }
        ensures { IfOk result (λ h. h ≡ halves_forgotten forgotten (halves_of self.now true)) }
    {
        let Some(on) = &self.on else {
            return Ok(Halves::none(alloc, self.rate()));
        };
        let mut on = on.copy()?;
        match on.forget(alloc, forgotten) {
            Ok(()) => Ok(on),
            Err(error) => {
                drop(on);
                Err(error)
            }
        }
    }
}
