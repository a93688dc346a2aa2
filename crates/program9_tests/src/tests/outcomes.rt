//! How the program ends, by a table.

use crate::tests::same;
use capture9::{CaptureError, CaptureKind};
use program9::{Message, Unopened, WhyUnopened, outcome, outcome_in_parts};
use report9::{JudgeError, Totals};
use std::alloc::{AllocError, Global};

/// A reader, a writer and memory that fail; tests/program/program.sh has the rows that can't be read.
#[test]
fn a_refusal_has_its_status_and_its_two_lines(rt: HostRuntime) {
    let unread = CaptureError {
        kind: CaptureKind::Read,
        row: 4,
        field: None,
    };
    let faults = [
        (
            JudgeError::Capture(unread),
            4,
            "read fault at row 4\nexpected a capture that can be read to its end, not a directory",
        ),
        (
            JudgeError::Write,
            4,
            "write fault\nstandard output is full or closed; it has only the first part of the report",
        ),
        (
            JudgeError::OutOfMemory,
            5,
            "out of memory\na row may never end, or memory is short: see ulimit -v",
        ),
    ];
    for (refusal, status, line) in faults {
        let end = outcome(&Err(refusal));
        same(&rt, end.status, status, line);
        let text = end.message.to_string(rt.alloc()).expect(&rt, "memory");
        same(&rt, text.as_str(), line, status);
    }
}

/// What is said of a capture that was not opened.
fn unopened(alloc: Global, name: Option<&str>, why: WhyUnopened) -> Result<String, AllocError> {
    let file = match name {
        Some(name) => Some(String::from_str(alloc, name)?),
        None => None,
    };
    Message::CannotOpen(Unopened { file, why }).to_string(alloc)
}

/// Reasons that no file of tests/program/program.sh has.
#[test]
fn a_capture_that_is_not_opened_is_told_by_its_name(rt: HostRuntime) {
    let table = [
        (
            Some("a b.csv"),
            WhyUnopened::Other,
            "cannot open\na b.csv: The system cannot open it",
        ),
        (
            None,
            WhyUnopened::PermissionDenied,
            "cannot open\nstandard input: Permission denied",
        ),
    ];
    for (name, why, want) in &table {
        let text = unopened(rt.alloc(), *name, *why).expect(&rt, "memory");
        same(&rt, text.as_str(), *want, *name);
    }
}

#[test]
fn of_a_verdict_nothing_is_said(rt: HostRuntime) {
    let text = Message::Nothing.to_string(rt.alloc()).expect(&rt, "memory");
    same(&rt, text.as_str(), "", "a verdict");
}

#[test]
fn one_part_that_breaks_is_a_no(rt: HostRuntime) {
    for (breaks, status) in [(0, 0), (1, 1), (256, 1)] {
        let totals = Totals {
            breaks,
            records: 600,
            exchanges: 40,
            passed_over: 20,
            tail: 3,
        };
        let end = outcome_in_parts(&Ok(totals));
        same(&rt, end.status, status, breaks);
        same(&rt, end.message, Message::Nothing, breaks);
    }
}
