//! Which frame rates fit the times that are told.
ghost use Rattle.std.specs.Prelude.{◌≡◌, ◌<◌};

use crate::place::Place;
use crate::running::Running;
use crate::sign::{Seeming, Sign};
use crate::told::Told;
use tc25::Rate;

/// What speaks against the rate that is asked with.
#[derive(Clone, Copy, PartialEq, Eq)]
pub enum RateSeen {
    /// A time with this frame of a second is told, which the rate does not have.
    Frame(u32),
    /// So many frames a second elapse, in thousandths.
    Elapsed(u64),
    /// So many times have the flag of drop frame.
    Flags(u64),
    /// So many times have a label that drop frame leaves out: frame 00 or 01 of some minutes.
    Undropped(u64),
}

/// The rates that fit.
#[derive(Clone, Copy, PartialEq, Eq)]
pub enum Fitting {
    /// This one.
    One(Rate),
    /// 30 frames a second, with drop frame or without.
    Thirty,
}

/// The sign that the rate asked with does not fit, and another does. Times in commands say something only where the deck's clock told none.
pub(crate) fn sign_of_rate(
    asked: Rate,
    set: &Told,
    told: &Told,
    running: &Running,
) -> Option<Sign> {
    let told = &told_of(set, told);
    let fits = fitting_of(asked, told, running)?;
    let is_asked = match fits {
        Fitting::One(rate) => rate == asked,
        Fitting::Thirty => matches!(asked, Rate::Fps30 | Rate::DropFrame),
    };
    if is_asked {
        return None;
    }
    let (at, seen) = seen_against(fits, told, running);
    let what = Seeming::WrongRate { asked, seen, fits };
    Some(Sign { at: at?, what })
}

/// The times that tell the rate: those of the deck, where its clock told one; else those in commands besides.
fn told_of(set: &Told, told: &Told) -> Told
    ensures { 0 < told.now.by_clock → result ≡ told.now }
{
    if told.by_clock > 0 {
        *told
    } else if told.times > 0 {
        told.and(set)
    } else {
        *set
    }
}

/// The rates that fit, as far as the times tell: frames that elapse say more than the greatest one, which may be an invalid time.
fn fitting_of(asked: Rate, told: &Told, running: &Running) -> Option<Fitting> {
    let is_flagged = told.is_flagged();
    match (running.in_second(), told.greatest) {
        (Some(24), _) => Some(Fitting::One(Rate::Fps24)),
        (Some(25), _) => Some(Fitting::One(Rate::Fps25)),
        (None, 24) if asked == Rate::Fps24 => Some(Fitting::One(Rate::Fps25)),
        (None, ..25) if !is_flagged => None,
        _ if told.is_undropped() => Some(Fitting::One(Rate::Fps30)),
        _ if is_flagged => Some(Fitting::One(Rate::DropFrame)),
        _ => Some(Fitting::Thirty),
    }
}

/// What shows that the rates that fit are these and not the one that is asked with, and where.
fn seen_against(fits: Fitting, told: &Told, running: &Running) -> (Option<Place>, RateSeen) {
    match (told.lacking, fits) {
        (Some((at, 0 | 1)), _) => (Some(at), RateSeen::Undropped(told.undropped)),
        (Some((at, frame)), _) => (Some(at), RateSeen::Frame(frame)),
        (None, Fitting::One(Rate::DropFrame)) => (told.first, RateSeen::Flags(told.flagged)),
        (None, _) => (running.first, RateSeen::Elapsed(running.per_second())),
    }
}
