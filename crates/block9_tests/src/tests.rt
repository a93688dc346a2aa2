//! Times, rows and blocks, with values by hand: what needs a reader of its own, and calls that no command line reaches.
mod block;
mod command;
mod nak;
mod pairer;
mod replies;
mod rows;
mod set_rates;
mod shared_sets;
mod time_sets;
mod times;

use std::fmt::Debug;
use std::process::Abort;

/// Holds that what was found in a case is what is wanted.
///
/// The tests hold all their values by this call: the proof of a function with a call costs a part of that of one with
/// an assertion.
fn same<T: PartialEq + Drop, C: Debug + Drop>(rt: &impl Abort, found: T, wanted: T, case: C) {
    assert!(rt; found == wanted, "{case:?}");
}
