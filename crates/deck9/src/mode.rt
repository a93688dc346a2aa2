//! The modes of a deck's transport.
ghost use Rattle.std.specs.Prelude.{◌≡◌, ◌<◌};

/// A mode of the transport: the commanded one, or the one that the status shows.
///
/// The ten modes are a choice of these rules.
#[derive(Clone, Copy, PartialEq, Eq)]
pub enum Mode {
    /// Stopped.
    Stop,
    /// Playing.
    Play,
    /// Recording.
    Rec,
    /// Winding on.
    FastForward,
    /// Winding back.
    Rewind,
    /// Shuttling, either way.
    Shuttle,
    /// Jogging, either way.
    Jog,
    /// Playing at a variable speed, either way.
    Var,
    /// Standing at a point that was asked for.
    Cued,
    /// Without a cassette.
    Eject,
}

impl Mode {
    /// Every mode, in their order.
    pub const ALL: [Mode; 10] = [
        Mode::Stop,
        Mode::Play,
        Mode::Rec,
        Mode::FastForward,
        Mode::Rewind,
        Mode::Shuttle,
        Mode::Jog,
        Mode::Var,
        Mode::Cued,
        Mode::Eject,
    ];

    ghost use Rattle.std.specs.Prelude.{◌≡◌, ◌<◌};
    ghost use Rattle.deck9.specs.Mode.{index_of, name_of};

    /// The name that a report gives.
    pub fn name<'a>(self) -> &'a str
        ensures { result.now ≡ name_of self }
    {
        match self {
            Mode::Stop => "STOP",
            Mode::Play => "PLAY",
            Mode::Rec => "REC",
            Mode::FastForward => "FF",
            Mode::Rewind => "REW",
            Mode::Shuttle => "SHUTTLE",
            Mode::Jog => "JOG",
            Mode::Var => "VAR",
            Mode::Cued => "CUED",
            Mode::Eject => "EJECT",
        }
    }

    /// The place of the mode in their order, from 0.
    pub fn index(self) -> usize
        ensures { result ≡ index_of self }
    {
        self as usize
    }
}
