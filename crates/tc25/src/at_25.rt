//! The calls at 25 frames a second, each beside one that takes a rate.

ghost use Rattle.std.specs.Prelude.{◌≡◌, ℕ, ◌<◌, IfSome, IfNone, SomeIff, Some};
ghost use Rattle.tc25.specs.Day.{day, next_frame, prev_frame, bytes_of, ReadsAs, time_of, text_of};

use crate::rate::Rate;
use crate::time_code::TimeCode;

impl TimeCode {
    /// [`TimeCode::from_frames_at`] at 25 frames a second.
    pub fn from_frames(frames: u32) -> Option<TimeCode>
        ensures { SomeIff result (frames < day Rate.Fps25) frames }
    {
        TimeCode::from_frames_at(Rate::Fps25, frames)
    }

    /// [`TimeCode::from_bytes_at`] at 25 frames a second.
    pub fn from_bytes(bytes: [u8; 4]) -> Option<TimeCode>
        ensures value { result ≡ time_of Rate.Fps25 bytes }
        ensures reads { IfSome result (ReadsAs Rate.Fps25 bytes) }
        ensures unread { IfNone result ((t : ℕ) → ¬ ReadsAs Rate.Fps25 bytes t) }
    {
        TimeCode::from_bytes_at(Rate::Fps25, bytes)
    }

    /// [`TimeCode::to_bytes_at`] at 25 frames a second.
    pub fn to_bytes(self) -> [u8; 4]
        ensures value { result ≡ bytes_of Rate.Fps25 self }
        ensures reads_back { self < day Rate.Fps25 → time_of Rate.Fps25 result ≡ Some self }
    {
        self.to_bytes_at(Rate::Fps25)
    }

    /// [`TimeCode::next_at`] at 25 frames a second.
    pub fn next(self) -> TimeCode
        ensures value { result ≡ next_frame Rate.Fps25 self }
        ensures below_day { result < day Rate.Fps25 }
    {
        self.next_at(Rate::Fps25)
    }

    /// [`TimeCode::prev_at`] at 25 frames a second.
    pub fn prev(self) -> TimeCode
        ensures value { result ≡ prev_frame Rate.Fps25 self }
        ensures below_day { self < day Rate.Fps25 → result < day Rate.Fps25 }
    {
        self.prev_at(Rate::Fps25)
    }

    /// [`TimeCode::text_at`] at 25 frames a second.
    pub fn text(self) -> [u8; 11]
        ensures { result ≡ text_of Rate.Fps25 self }
    {
        self.text_at(Rate::Fps25)
    }
}
