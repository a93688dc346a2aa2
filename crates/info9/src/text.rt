//! Texts that facts and signs share.

use crate::rates::{Fitting, RateSeen};
use report9::{put_count, put_text};
use std::alloc::AllocError;
use tc25::Rate;
use text9::put_tenths;

/// Puts a number of thousandths with one decimal, rounded.
pub(crate) fn put_rounded(line: &mut Vec<u8>, thousandths: u64) -> Result<(), AllocError> {
    put_tenths(line, thousandths.saturating_add(50) / 100)
}

/// Puts the rates that fit, as options.
pub(crate) fn put_fitting(line: &mut Vec<u8>, fits: Fitting) -> Result<(), AllocError> {
    match fits {
        Fitting::One(rate) => put_rate(line, rate),
        Fitting::Thirty => {
            put_rate(line, Rate::DropFrame)?;
            put_text(line, ", or without drop frame ")?;
            put_rate(line, Rate::Fps30)
        }
    }
}

/// Puts what speaks against the rate that is asked with.
pub(crate) fn put_rate_seen(
    line: &mut Vec<u8>,
    asked: Rate,
    seen: RateSeen,
) -> Result<(), AllocError> {
    match seen {
        RateSeen::Frame(frame) => put_count(line, "a time has frame ", u64::from(frame))?,
        RateSeen::Elapsed(per_second) => {
            put_rounded(line, per_second)?;
            put_text(line, " frames elapse in a second")?;
        }
        RateSeen::Flags(times) => put_count(line, "times with the drop frame flag: ", times)?,
        RateSeen::Undropped(times) => {
            put_count(line, "times that drop frame has not: ", times)?;
        }
    }
    put_text(line, ", asked with ")?;
    put_rate(line, asked)
}

/// Puts a rate as an option.
fn put_rate(line: &mut Vec<u8>, rate: Rate) -> Result<(), AllocError> {
    put_text(line, "--rate ")?;
    put_text(line, rate.word())
}
