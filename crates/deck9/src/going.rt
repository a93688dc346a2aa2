//! What a deck may do by itself between two exchanges: show some modes, and clear some registers.
ghost use Rattle.std.specs.Prelude.{◌≡◌};
ghost use Rattle.deck9.specs.Going.{left_by, may_lose, more_lost, nothing_on, together};

use crate::effect::Effect;
use crate::mode::Mode;
use crate::mode_set::ModeSet;
use crate::state::Register;

/// Which registers may become clear.
#[derive(Clone, Copy, PartialEq, Eq)]
pub enum Lost {
    /// None.
    NoRegister,
    /// IN and OUT.
    Points,
    /// All four.
    AllRegisters,
}

impl Lost {
    /// Whether this register is among them.
    pub fn has(self, register: Register) -> bool
        ensures { result ≡ may_lose self register }
    {
        match self {
            Lost::NoRegister => false,
            Lost::Points => matches!(register, Register::RegIn | Register::RegOut),
            Lost::AllRegisters => true,
        }
    }

    /// The registers of either.
    pub fn or(self, other: Lost) -> Lost
        ensures { result ≡ more_lost self other }
    {
        match (self, other) {
            (Lost::NoRegister, other) => other,
            (Lost::Points, Lost::NoRegister) => Lost::Points,
            (Lost::Points, other) => other,
            (Lost::AllRegisters, _) => Lost::AllRegisters,
        }
    }
}

/// What may be going on: what the deck may do by itself, until a command ends it.
#[derive(Clone, Copy, PartialEq, Eq)]
pub struct Going {
    /// The modes that it may show, whatever its goal.
    pub modes: ModeSet,
    /// The registers that it may clear.
    pub lost: Lost,
}

impl Going {
    /// Nothing goes on.
    pub const NOTHING: Going = Going {
        modes: ModeSet::NONE,
        lost: Lost::NoRegister,
    };

    /// What goes on in either.
    pub fn together(self, other: Going) -> Going
        ensures { result ≡ together self other }
    {
        Going {
            modes: self.modes.or(other.modes),
            lost: self.lost.or(other.lost),
        }
    }

    /// What a command leaves of it by its own effect: nothing where it sets another goal than STOP, no mode where it sets STOP, and all
    /// as it was where it sets none.
    pub(crate) fn left_by(self, effect: &Effect) -> Going
        ensures { result ≡ left_by effect.now self }
    {
        match effect {
            Effect::Go(Mode::Stop) => Going {
                modes: ModeSet::NONE,
                lost: self.lost,
            },
            Effect::Go(_) => Going::NOTHING,
            _ => self,
        }
    }
}
