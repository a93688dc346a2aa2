//! What a deck in LOCAL may ignore.
ghost use Rattle.std.specs.Prelude.{◌≡◌};
ghost use Rattle.deck9.specs.Local.{may_ignore};

use crate::effect::Effect;
use block9::Command;

/// Whether a deck in LOCAL may ignore a command: true of those that change its goal or a register, which are the listed
/// transport and preset commands that have an effect.
pub fn may_ignore(command: &Command) -> bool
    ensures { result ≡ may_ignore command.now }
{
    match Effect::listed(command) {
        Effect::Go(_) | Effect::KeepOr(_) | Effect::Change(_, _) => true,
        Effect::Nothing | Effect::Panel(_) | Effect::Forget(_) => false,
    }
}
