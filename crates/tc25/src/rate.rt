//! Frame rates: how many frames a day has, and which label names each.

ghost use Rattle.std.specs.Prelude.{◌≡◌, ◌<◌, ◌≤◌, ◌∷◌, []};
ghost use Rattle.tc25.specs.Day.{before_frames, day, frame_named, in_second, label_of, labels_in_day, last_frame, longest_day};

/// A frame rate: how frames are counted in time code.
#[derive(Clone, Copy, PartialEq, Eq)]
pub enum Rate {
    /// 24 frames a second: also 23.976, whose time code counts as if they were 24.
    Fps24,
    /// 25 frames a second.
    Fps25,
    /// 30 frames a second: also 29.97 without drop frame, whose time code counts as if they were 30.
    Fps30,
    /// 29.97 frames a second with drop frame: the time code leaves out frames 00 and 01 of second 00 of each minute that is no
    /// multiple of ten, so that it keeps step with the clock.
    DropFrame,
}

impl Rate {
    ghost use Rattle.std.specs.Prelude.{◌≡◌, ◌<◌, ◌≤◌, ◌∷◌, []};
    ghost use Rattle.tc25.specs.Day.{before_frames, day, frame_named, in_second, label_of, labels_in_day, last_frame, longest_day};
    ghost use Rattle.tc25.specs.Word.{word_of};

    /// All rates, in the order in which they are told.
    pub const ALL: [Rate; 4] = [Rate::Fps24, Rate::Fps25, Rate::Fps30, Rate::DropFrame];

    /// The word of the rate on a command line.
    pub fn word(self) -> &'static str
        ensures { result.now ≡ word_of self }
    {
        match self {
            Rate::Fps24 => "24",
            Rate::Fps25 => "25",
            Rate::Fps30 => "30",
            Rate::DropFrame => "29.97df",
        }
    }

    /// The frames of a day of 24 hours.
    pub fn frames_in_day(self) -> u32
        ensures value { result ≡ day self }
        ensures few { result ≤ longest_day }
    {
        match self {
            Rate::Fps24 => 2_073_600,
            Rate::Fps25 => 2_160_000,
            Rate::Fps30 => 2_592_000,
            Rate::DropFrame => 2_589_408,
        }
    }

    /// The last frame of the day.
    pub fn last_frame(self) -> u32
        ensures value { result ≡ last_frame self }
        ensures in_day { result < day self }
        ensures few { result < longest_day }
    {
        self.frames_in_day() - 1
    }

    /// How many labels a second has.
    pub fn in_second(self) -> u32
        ensures { result ≡ in_second self }
    {
        match self {
            Rate::Fps24 => 24,
            Rate::Fps25 => 25,
            Rate::Fps30 | Rate::DropFrame => 30,
        }
    }

    /// The label of a frame.
    pub(crate) fn label_of(self, frame: u32) -> u32
        requires { frame < longest_day }
        ensures { result ≡ label_of self frame }
    {
        match self {
            Rate::DropFrame => {
                /// The frames of ten minutes, the first of which has all its labels.
                const TEN_MINUTES: u32 = 17_982;
                /// The frames of each of the others.
                const MINUTE: u32 = 1_798;

                let tens = frame / TEN_MINUTES;
                let minutes = (frame % TEN_MINUTES).saturating_sub(2) / MINUTE;
                frame + 18 * tens + 2 * minutes
            }
            _ => frame,
        }
    }

    /// The frame that a label of the day names, if it names one.
    pub(crate) fn frame_named(self, label: u32) -> Option<u32>
        requires { label < labels_in_day self }
        ensures { result ≡ frame_named self label }
    {
        match self {
            Rate::DropFrame => {
                let minutes = label / 1_800;
                let is_dropped = label % 1_800 < 2 && minutes % 10 != 0;
                (!is_dropped).then_some(label - 2 * (minutes - minutes / 10))
            }
            _ => Some(label),
        }
    }

    /// What stands before the frames in a time's text: a colon, and in drop frame a semicolon.
    pub(crate) fn before_frames(self) -> u8
        ensures { before_frames self ≡ result ∷ [] }
    {
        match self {
            Rate::DropFrame => b';',
            _ => b':',
        }
    }
}
