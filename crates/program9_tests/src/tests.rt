//! The words, how the program ends, and what its buffer hands on: tables with values by hand.
mod buffers;
mod makers;
mod outcomes;
mod programs;
mod sheets;
mod tasks;
mod writers;

use std::fmt::Debug;
use std::process::Abort;

/// Holds that what was found in a case is what is wanted. A call costs a test's proof a part of what the macro does.
fn same<T: PartialEq + Drop, C: Debug + Drop>(rt: &impl Abort, found: T, wanted: T, case: C) {
    assert!(rt; found == wanted, "{case:?}");
}
