//! Laws of the definitions: each function does nothing, and its contract is the law.

ghost use Rattle.std.specs.Prelude.{◌≡◌, ◌↔◌, ℕ, ◌<◌, List, Some, None, true};
ghost use Rattle.tc25.specs.Day.{day, next_frame, prev_frame, bytes_of, label_of, labels_before, labels_in_day, Names, ReadsAs, time_of, is_valid_time};

use crate::rate::Rate;

/// What a label is and a frame's number.
///
/// A frame's number is how many labels of the day come before its own, each of which names a frame; a label names one frame at
/// most, each frame has one label, and a day has as many frames as labels that name one.
pub fn labels()
    ensures named { (rate : Rate) (t : ℕ) → t < day rate → Names rate (label_of rate t) t }
    ensures unique { (rate : Rate) (t label : ℕ) → Names rate label t → label ≡ label_of rate t }
    ensures in_day { (rate : Rate) → labels_before rate (labels_in_day rate) ≡ day rate }
{}

/// What four bytes read as, over all lists of bytes and all times.
///
/// `time_of` gives exactly the time that the bytes read as, they read as at most one, and the bytes
/// of a time read as that time.
pub fn readings()
    ensures given { (rate : Rate) (bytes : List ℕ) (t : ℕ) → (time_of rate bytes ≡ Some t) ↔ ReadsAs rate bytes t }
    ensures valid { (rate : Rate) (bytes : List ℕ) → (is_valid_time rate bytes ≡ true) ↔ ((t : ℕ) × ReadsAs rate bytes t) }
    ensures absent { (rate : Rate) (bytes : List ℕ) → (time_of rate bytes ≡ None) ↔ ((t : ℕ) → ¬ ReadsAs rate bytes t) }
    ensures unique { (rate : Rate) (bytes : List ℕ) (t u : ℕ) → ReadsAs rate bytes t → ReadsAs rate bytes u → t ≡ u }
    ensures of_bytes { (rate : Rate) (t : ℕ) → t < day rate → ReadsAs rate (bytes_of rate t) t }
{}

/// The next frame and the frame before undo each other within a day, and stay within it.
pub fn neighbours()
    ensures before_next { (rate : Rate) (t : ℕ) → t < day rate → prev_frame rate (next_frame rate t) ≡ t }
    ensures after_prev { (rate : Rate) (t : ℕ) → t < day rate → next_frame rate (prev_frame rate t) ≡ t }
    ensures next_below { (rate : Rate) (t : ℕ) → t < day rate → next_frame rate t < day rate }
    ensures prev_below { (rate : Rate) (t : ℕ) → t < day rate → prev_frame rate t < day rate }
{}
