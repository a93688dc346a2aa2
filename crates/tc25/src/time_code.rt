//! A time of day as a number of frames, its four BCD bytes and its text.

ghost use Rattle.std.specs.Prelude.{◌≡◌, ℕ, ◌+◌, ◌<◌, IfSome, IfNone, SomeIff, Some, [], ◌∷◌};
ghost use Rattle.tc25.specs.Day.{day, next_frame, prev_frame, bytes_of, ReadsAs, time_of, text_of, ascii_digits, bcd, digits_of, hours_of, label_of, label_spelled, labels_in_day, longest_day, masked, minutes_of, seconds_of, frames_of};

use crate::rate::Rate;
use std::marker::Model;

/// A time of day: the number of frames since midnight, below that of a day. At which rate they are counted is not kept: a
/// call that needs the rate is given it, and one that is given none takes 25 frames a second.
///
/// A contract sees a `TimeCode` as that number. It is below 2,592,000, the frames of the longest day, that of 30 frames a second;
/// a time of 25 frames a second is below 2,160,000.
#[derive(Clone, Copy, Default, PartialEq, Eq, PartialOrd, Ord, Hash)]
pub struct TimeCode {
    frame: u32,
}

impl Model for TimeCode {
    ghost use Rattle.std.specs.Prelude.{ℕ, ◌<◌};
    ghost use Rattle.tc25.specs.Day.{longest_day};

    ghost Value = { ℕ };

    ghost view = { λ t. t.frame };

    ghost invariant = { λ t. t.frame < longest_day };

    ghost inverse = { λ n. record { frame = n } };
}

impl TimeCode {
    /// The number of frames since midnight.
    pub fn frames(self) -> u32
        ensures value { result ≡ self }
        ensures below_day { result < longest_day }
    {
        self.frame
    }

    /// The time that many frames after midnight, or `None` from the number of frames in a day on.
    pub fn from_frames_at(rate: Rate, frames: u32) -> Option<TimeCode>
        ensures { SomeIff result (frames < day rate) frames }
    {
        if frames < rate.frames_in_day() {
            Some(TimeCode { frame: frames })
        } else {
            None
        }
    }

    /// The time that four BCD bytes read as: frames, seconds, minutes and hours, in this order.
    ///
    /// As in the protocol manual, the two high bits of the frames and of the hours and the high bit of the seconds and of the
    /// minutes are flags, which are ignored, that for drop frame too. `None` where a digit is above 9, the frames are as many
    /// as the rate has in a second or more, the seconds or the minutes above 59, or the hours above 23; and in drop frame where
    /// they are frame 00 or 01 of second 00 of a minute that is no multiple of ten.
    #[tactic(auto, unfolding(crate::specs::Day::time_of), using(crate::proofs::DayLemmas::given_reads, crate::proofs::DayLemmas::none_reads, crate::proofs::DayLemmas::given_below))]
    pub fn from_bytes_at(rate: Rate, bytes: [u8; 4]) -> Option<TimeCode>
        ensures value { result ≡ time_of rate bytes }
        ensures reads { IfSome result (ReadsAs rate bytes) }
        ensures unread { IfNone result ((t : ℕ) → ¬ ReadsAs rate bytes t) }
    {
        let frame = rate.frame_named(label_spelled(rate, bytes)?)?;
        Some(TimeCode { frame })
    }

    /// The four BCD bytes of the time: frames, seconds, minutes and hours, with no flag set.
    #[tactic(auto, using(crate::proofs::DayLemmas::bytes_read))]
    pub fn to_bytes_at(self, rate: Rate) -> [u8; 4]
        ensures value { result ≡ bytes_of rate self }
        ensures reads_back { self < day rate → time_of rate result ≡ Some self }
    {
        let [hours, minutes, seconds, frames] = self.parts(rate);
        [
            bcd_byte(frames),
            bcd_byte(seconds),
            bcd_byte(minutes),
            bcd_byte(hours),
        ]
    }

    /// The time one frame later. After the last frame of the day comes frame 0.
    pub fn next_at(self, rate: Rate) -> TimeCode
        ensures value { result ≡ next_frame rate self }
        ensures below_day { result < day rate }
    {
        let next = self.frame + 1;
        let frame = if next < rate.frames_in_day() { next } else { 0 };
        TimeCode { frame }
    }

    /// The time one frame earlier. Before frame 0 comes the last frame of the day.
    pub fn prev_at(self, rate: Rate) -> TimeCode
        ensures value { result ≡ prev_frame rate self }
        ensures below_day { self < day rate → result < day rate }
    {
        let before = self.frame.checked_sub(1);
        TimeCode {
            frame: before.unwrap_or(rate.last_frame()),
        }
    }

    /// The time as the ASCII text `hh:mm:ss:ff`, and in drop frame `hh:mm:ss;ff`.
    #[tactic(auto, unfolding(crate::specs::Day::text_of))]
    pub fn text_at(self, rate: Rate) -> [u8; 11]
        ensures { result ≡ text_of rate self }
    {
        let [hours, minutes, seconds, frames] = self.parts(rate);
        let [hours_tens, hours_ones] = digits(hours);
        let [minutes_tens, minutes_ones] = digits(minutes);
        let [seconds_tens, seconds_ones] = digits(seconds);
        let [frames_tens, frames_ones] = digits(frames);
        [
            hours_tens,
            hours_ones,
            b':',
            minutes_tens,
            minutes_ones,
            b':',
            seconds_tens,
            seconds_ones,
            rate.before_frames(),
            frames_tens,
            frames_ones,
        ]
    }

    /// The hours, minutes, seconds and frames of its label.
    fn parts(self, rate: Rate) -> [u32; 4]
        ensures parts { result ≡ hours_of rate (label_of rate self) ∷ minutes_of rate (label_of rate self) ∷ seconds_of rate (label_of rate self) ∷ frames_of rate (label_of rate self) ∷ [] }
        ensures below_day { self < longest_day }
    {
        let in_second = rate.in_second();
        let label = rate.label_of(self.frame);
        let seconds = label / in_second;
        let minutes = seconds / 60;
        [minutes / 60, minutes % 60, seconds % 60, label % in_second]
    }
}

/// The label that four BCD bytes spell, where they spell one of the day.
fn label_spelled(rate: Rate, bytes: [u8; 4]) -> Option<u32>
    ensures spelled { result ≡ label_spelled rate (masked bytes) }
    ensures in_day { IfSome result (λ label. label < labels_in_day rate) }
{
    let in_second = rate.in_second();
    let [frames, seconds, minutes, hours] = bytes;
    let frames = number_of(frames & 0x3F, in_second - 1)?;
    let seconds = number_of(seconds & 0x7F, 59)?;
    let minutes = number_of(minutes & 0x7F, 59)?;
    let hours = number_of(hours & 0x3F, 23)?;
    Some(((hours * 60 + minutes) * 60 + seconds) * in_second + frames)
}

/// The number that a byte of two BCD digits spells, where it is at most `greatest`.
fn number_of(byte: u8, greatest: u32) -> Option<u32>
    ensures { result ≡ digits_of greatest byte }
{
    let tens = u32::from(byte / 16);
    let ones = u32::from(byte % 16);
    let number = tens * 10 + ones;
    (ones < 10 && number <= greatest).then_some(number)
}

/// A number below 100 as a byte of two BCD digits.
fn bcd_byte(number: u32) -> u8
    requires { number < 100 }
    ensures { result ≡ bcd number }
{
    (number / 10 * 16 + number % 10) as u8
}

/// A number below 100 as two ASCII digits.
fn digits(number: u32) -> [u8; 2]
    requires { number < 100 }
    ensures { result ≡ ascii_digits number }
{
    [b'0' + (number / 10) as u8, b'0' + (number % 10) as u8]
}
