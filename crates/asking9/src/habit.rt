//! The sheets inside the program.

/// A sheet inside the program.
#[derive(Clone, Copy, PartialEq, Eq)]
pub(crate) enum Habit {
    Jog,
    VarPlay,
    NoBit,
    Rewind,
    Standby,
    UserBits,
    Eject,
    Edit,
    NinePin,
}

impl Habit {
    /// All, the one that says least first.
    pub(crate) const ALL: [Habit; 9] = [
        Habit::Jog,
        Habit::VarPlay,
        Habit::NoBit,
        Habit::Rewind,
        Habit::Standby,
        Habit::UserBits,
        Habit::Eject,
        Habit::Edit,
        Habit::NinePin,
    ];

    /// Its short name.
    pub(crate) fn name(self) -> &'static str {
        match self {
            Habit::Jog => "jog",
            Habit::VarPlay => "var-play",
            Habit::NoBit => "no-bit",
            Habit::Rewind => "rewind",
            Habit::Standby => "standby",
            Habit::UserBits => "user-bits",
            Habit::Eject => "eject",
            Habit::Edit => "edit",
            Habit::NinePin => "9pin",
        }
    }
}
