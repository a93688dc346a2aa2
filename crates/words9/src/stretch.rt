//! The stretch of a capture that the options name.
ghost use Rattle.std.specs.Prelude.{◌≡◌, IfErr, IfOk, MatchOption};
ghost use Rattle.std.specs.String.{string_bytes};
ghost use Rattle.clap.specs.Words.{first_of, found_of, rows_of};
ghost use Rattle.words9.specs.Values.{IsStretchOf, time_of};
ghost use Rattle.words9.specs.Working.{IsNoTaskOf, IsUnread};

use crate::task::{NoValue, Unfit, WordsFault};
use crate::times::read_time;
use crate::words::value_of;
use clap::ArgMatches;
use report9::Stretch;
use std::alloc::Global;

/// A time that an option was given.
#[derive(Drop)]
struct GivenTime {
    /// The time, in microseconds.
    us: u64,
    /// The word that names it.
    value: String,
}

/// The stretch that the options name: all of the capture where they name none. A value that is no time is refused, and so is one of `--to`
/// that is no later than the beginning.
pub(crate) fn stretch_of(alloc: Global, found: &ArgMatches<'_>) -> Result<Stretch, WordsFault>
    ensures stretch { IfOk result (IsStretchOf (rows_of (found_of found.now))) }
    ensures fault { IfErr result (IsNoTaskOf (rows_of (found_of found.now))) }
{
    let from_us = match time_of(alloc, found, "from")? {
        Some(from) => from.us,
        None => 0,
    };
    match time_of(alloc, found, "to")? {
        Some(to) if to.us <= from_us => Err(WordsFault::NoValue(NoValue {
            option: "to",
            value: to.value,
            unfit: Unfit::NotLater,
        })),
        Some(to) => Ok(Stretch {
            from_us,
            to_us: Some(to.us),
        }),
        None => Ok(Stretch {
            from_us,
            to_us: None,
        }),
    }
}

/// The time that the subcommand was given with this option.
fn time_of(
    alloc: Global,
    found: &ArgMatches<'_>,
    option: &'static str,
) -> Result<Option<GivenTime>, WordsFault>
    ensures time { IfOk result (λ time. MatchOption time (first_of option.now (rows_of (found_of found.now)) ≡ None)
        (λ t. (first_of option.now (rows_of (found_of found.now)) ≡ Some (string_bytes t.value)) × (time_of (string_bytes t.value) ≡ Some t.us))) }
    ensures fault { IfErr result (IsUnread time_of option.now (rows_of (found_of found.now))) }
{
    let Ok(value) = value_of(alloc, found, option) else {
        return Err(WordsFault::NoMemory);
    };
    let Some(value) = value else {
        return Ok(None);
    };
    match read_time(value.as_str()) {
        Some(us) => Ok(Some(GivenTime { us, value })),
        None => Err(WordsFault::NoValue(NoValue {
            option,
            value,
            unfit: Unfit::Malformed,
        })),
    }
}
