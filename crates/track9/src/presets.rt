//! How many data presets were acknowledged.
ghost use Rattle.std.specs.Prelude.{◌≡◌, false};
ghost use Rattle.track9.specs.Presets.{Presets as AllCounts, count_of, presets_after, with_command};
ghost use Rattle.deck9.specs.declared.state.Register.{Register as ARegister};

use block9::{Block, Command};
use deck9::Register;
use std::marker::Model;

/// The number of data presets to each register.
#[derive(Drop)]
pub(crate) struct Presets {
    ins: u32,
    outs: u32,
    ains: u32,
    aouts: u32,
}

impl Model for Presets {
    ghost use Rattle.track9.specs.Presets.{Presets as Counts};
    ghost use Rattle.track9.specs.Working.Codes.{stored};

    ghost Value = { Counts };

    ghost coded = { Prim.hlevel stored };

    ghost view = { λ n. record { ins = n.ins; outs = n.outs; ains = n.ains; aouts = n.aouts } };
}

impl Presets {
    /// None yet.
    pub(crate) fn none() -> Presets
        ensures { (r : ARegister) → count_of r result ≡ 0 }
    {
        Presets {
            ins: 0,
            outs: 0,
            ains: 0,
            aouts: 0,
        }
    }

    /// Equal counts.
    pub(crate) fn copy(&self) -> Presets
        ensures { result ≡ self.now }
    {
        Presets {
            ins: self.ins,
            outs: self.outs,
            ains: self.ains,
            aouts: self.aouts,
        }
    }

    /// The number of presets to a register.
    pub(crate) fn count(&self, register: Register) -> u32
        ensures { result ≡ count_of register self.now }
    {
        match register {
            Register::RegIn => self.ins,
            Register::RegOut => self.outs,
            Register::RegAudioIn => self.ains,
            Register::RegAudioOut => self.aouts,
        }
    }

    /// Counts the command of an exchange, if it is a data preset that got no NAK, and left a state possible.
    pub(crate) fn count_exchange(&mut self, command: &Command, reply: &Block, remains: bool)
        ensures { self.new ≡ presets_after command.now reply.now remains self.old }
    {
        // the command first, since few are data presets
        if is_data_preset(command) && remains && !reply.is_nak() {
            self.count_command(command);
        }
    }

    /// Counts a command that may have had its effect, if it is a data preset.
    pub(crate) fn count_command(&mut self, command: &Command)
        ensures { self.new ≡ with_command command.now self.old }
    {
        match command {
            Command::InDataPreset { .. } => self.ins = self.ins.saturating_add(1),
            Command::OutDataPreset { .. } => self.outs = self.outs.saturating_add(1),
            Command::AudioInDataPreset { .. } => self.ains = self.ains.saturating_add(1),
            Command::AudioOutDataPreset { .. } => self.aouts = self.aouts.saturating_add(1),
            _ => {}
        }
    }
}

/// Whether a command is a data preset: no other one counts.
fn is_data_preset(command: &Command) -> bool
    ensures { (n : AllCounts) → result ≡ false → with_command command.now n ≡ n }
{
    matches!(
        command,
        Command::InDataPreset { .. }
            | Command::OutDataPreset { .. }
            | Command::AudioInDataPreset { .. }
            | Command::AudioOutDataPreset { .. }
    )
}
