//! What each command does to the deck.
use crate::deck::Forgotten;
use crate::mode::Mode;
use crate::mode_set::ModeSet;
use crate::state::Register;
use block9::Command;
use tc25::TimeCode;

/// What becomes of a register.
#[derive(Clone, Copy, PartialEq, Eq)]
pub enum Change {
    /// Set, at any time: the deck takes its current time, which nobody knows.
    SetSomewhere,
    /// Set at this time.
    SetAt(TimeCode),
    /// Where it is Set, the next frame, round the day.
    Next,
    /// Where it is Set, the frame before, round the day.
    Prev,
    /// Clear.
    Reset,
    /// Clear, or Set at any time: an earlier entry, which nobody knows.
    Recall,
}

/// What a command does to the deck. The effects are a choice of these rules.
#[derive(Clone, Copy, PartialEq, Eq)]
pub enum Effect {
    /// Nothing changes. An unlisted command never has this effect: it has `KeepOr` or `Forget`.
    Nothing,
    /// This becomes the commanded mode; the shown mode follows by drift.
    Go(Mode),
    /// The commanded mode is kept, or becomes one of these; the shown mode follows by drift.
    KeepOr(ModeSet),
    /// A register changes.
    Change(Register, Change),
    /// The panel is switched on or off, where hands are allowed.
    Panel(bool),
    /// This becomes anything: the effect of each command that is not listed and that no goals are named for.
    Forget(Forgotten),
}

impl Effect {
    ghost use Rattle.std.specs.Prelude.{◌≡◌};
    ghost use Rattle.deck9.specs.Effect.{listed_effect};

    /// What a listed command does where it is acknowledged; nothing where the command is not listed.
    #[inline(always)] // it is asked of every exchange
    pub(crate) fn listed(command: &Command) -> Effect
        ensures { result ≡ listed_effect command.now }
    {
        match command {
            Command::Stop => Effect::Go(Mode::Stop),
            Command::Play | Command::SyncPlay => Effect::Go(Mode::Play),
            Command::Record => Effect::Go(Mode::Rec),
            Command::StandbyOff | Command::StandbyOn => Effect::KeepOr(ModeSet::just(Mode::Stop)),
            Command::Eject => Effect::Go(Mode::Eject),
            Command::FastForward => Effect::Go(Mode::FastForward),
            Command::JogForward | Command::JogReverse => Effect::Go(Mode::Jog),
            Command::VarForward | Command::VarReverse => Effect::Go(Mode::Var),
            Command::ShuttleForward | Command::ShuttleReverse => Effect::Go(Mode::Shuttle),
            Command::Rewind => Effect::Go(Mode::Rewind),
            Command::Preroll | Command::CueUpWithData { .. } => Effect::Go(Mode::Cued),
            Command::InEntry => Effect::Change(Register::RegIn, Change::SetSomewhere),
            Command::OutEntry => Effect::Change(Register::RegOut, Change::SetSomewhere),
            Command::AudioInEntry => Effect::Change(Register::RegAudioIn, Change::SetSomewhere),
            Command::AudioOutEntry => Effect::Change(Register::RegAudioOut, Change::SetSomewhere),
            Command::InDataPreset { time } => Effect::Change(Register::RegIn, Change::SetAt(*time)),
            Command::OutDataPreset { time } => Effect::Change(
                Register::RegOut,
                Change::SetAt(*time),
            ),
            Command::AudioInDataPreset { time } => Effect::Change(
                Register::RegAudioIn,
                Change::SetAt(*time),
            ),
            Command::AudioOutDataPreset { time } => Effect::Change(
                Register::RegAudioOut,
                Change::SetAt(*time),
            ),
            Command::InShiftPlus => Effect::Change(Register::RegIn, Change::Next),
            Command::InShiftMinus => Effect::Change(Register::RegIn, Change::Prev),
            Command::OutShiftPlus => Effect::Change(Register::RegOut, Change::Next),
            Command::OutShiftMinus => Effect::Change(Register::RegOut, Change::Prev),
            Command::AudioInShiftPlus => Effect::Change(Register::RegAudioIn, Change::Next),
            Command::AudioInShiftMinus => Effect::Change(Register::RegAudioIn, Change::Prev),
            Command::AudioOutShiftPlus => Effect::Change(Register::RegAudioOut, Change::Next),
            Command::AudioOutShiftMinus => Effect::Change(Register::RegAudioOut, Change::Prev),
            Command::InFlagReset => Effect::Change(Register::RegIn, Change::Reset),
            Command::OutFlagReset => Effect::Change(Register::RegOut, Change::Reset),
            Command::AudioInFlagReset => Effect::Change(Register::RegAudioIn, Change::Reset),
            Command::AudioOutFlagReset => Effect::Change(Register::RegAudioOut, Change::Reset),
            Command::InRecall => Effect::Change(Register::RegIn, Change::Recall),
            Command::OutRecall => Effect::Change(Register::RegOut, Change::Recall),
            Command::AudioInRecall => Effect::Change(Register::RegAudioIn, Change::Recall),
            Command::AudioOutRecall => Effect::Change(Register::RegAudioOut, Change::Recall),
            Command::LocalEnable => Effect::Panel(true),
            Command::LocalDisable => Effect::Panel(false),
            Command::DeviceType
            | Command::EditPreset
            | Command::PrerollPreset
            | Command::TimerModeSelect
            | Command::AutoModeOff
            | Command::AutoModeOn
            | Command::CurrentTimeSense { .. }
            | Command::InDataSense
            | Command::OutDataSense
            | Command::AudioInDataSense
            | Command::AudioOutDataSense
            | Command::StatusSense { .. }
            | Command::Unlisted { .. } => Effect::Nothing,
        }
    }
}
