//! Readers that fail: the row that is told is the one after the records that they gave.

use super::parts::{IN_11, PRESET_10, REMOTE};
use super::readers::Cut;
use super::texts::PLAYED_AND_CUT;
use super::{capture, report, same};
use block9::Reason;
use capture9::{CaptureError, CaptureKind};
use deck9::Hands;
use judge9::{Detail, JudgeError, Verdict, View, judge_with_run};
use std::alloc::Global;
use std::process::Abort;
use std::test::Fail;

/// The fewest and the most bytes that a reader gives before it fails, and the row that is then told. The header has 18
/// bytes, the first two rows have 9 each, the four after them 10 each, and the text ends inside row 7.
const FAULTS: [(usize, usize, u32); 8] = [
    (0, 17, 0),
    (18, 26, 1),
    (27, 35, 2),
    (36, 45, 3),
    (46, 55, 4),
    (56, 65, 5),
    (66, 75, 6),
    (76, 82, 7),
];

/// Each view.
const VIEWS: [View; 4] = [
    View::Verdict,
    View::Explain(Detail::Names),
    View::Explain(Detail::Bytes),
    View::Why,
];

/// The fault of a reader, at a row.
fn fault(row: u32) -> JudgeError {
    JudgeError::Capture(CaptureError {
        kind: CaptureKind::Read,
        row,
        field: None,
    })
}

/// Compares what is answered to a reader that fails after so many bytes with the fault at this row.
fn tell_fault(rt: &impl Abort, alloc: Global, hands: Hands, given: usize, row: u32) {
    for view in VIEWS {
        let (answer, _) = report(alloc, Cut::new(PLAYED_AND_CUT, given), view, hands);
        same(rt, answer, Err(fault(row)), given);
    }
    let run = judge_with_run(alloc, Cut::new(PLAYED_AND_CUT, given), hands);
    same(rt, run, Err(fault(row)), ("a run", given));
}

fn tell_faults(rt: &impl Abort, alloc: Global, hands: Hands) {
    for (fewest, most, row) in FAULTS {
        for given in fewest..=most {
            tell_fault(rt, alloc, hands, given, row);
        }
    }
}

#[test]
fn untouched(rt: HostRuntime) {
    tell_faults(&rt, rt.alloc(), Hands::None);
}

#[test]
fn touched(rt: HostRuntime) {
    tell_faults(&rt, rt.alloc(), Hands::Allowed);
}

/// A reader that fails behind the break is not asked for more.
#[test]
fn behind_the_break(rt: HostRuntime) -> Result<(), Fail> {
    let text = capture(rt.alloc(), &[REMOTE, PRESET_10, IN_11])?;
    let no = Verdict::No {
        at: 28,
        reason: Reason::NoRun,
    };
    for view in VIEWS {
        let reader = Cut::new(text.as_str(), text.len());
        let (answer, _) = report(rt.alloc(), reader, view, Hands::None);
        same(&rt, answer, Ok(no), matches!(view, View::Why));
    }
    Ok(())
}
