//! Captures that begin in the middle of traffic, judged from the first record that may begin a command.

use super::readers::Cut;
use super::texts::HEADER;
use super::writers::Narrow;
use super::{Tap, same};
use block9::Reason;
use capture9::{CaptureError, CaptureKind, ShownField};
use deck9::{Hands, Profile};
use judge9::{
    Beginning, JudgeError, RunVerdict, Totals, Verdict, View, judge_for, judge_parts_for,
    judge_with_run_for,
};
use std::alloc::{AllocError, Global};
use std::io::Read;
use std::process::Abort;

/// What is answered to a capture, judged from the first record that may begin a command, where nothing is explained.
fn begun<R: Read + Drop>(alloc: Global, reader: R) -> Result<Verdict, JudgeError> {
    let profile = Profile::of(Hands::None);
    let mut writer = Narrow::roomy(alloc);
    judge_for(
        alloc,
        reader,
        &mut writer,
        View::Verdict,
        Beginning::FirstCommand,
        &profile,
    )
}

/// The same, judged part by part.
fn begun_in_parts<R: Read + Drop>(alloc: Global, reader: R) -> Result<Totals, JudgeError> {
    let profile = Profile::of(Hands::None);
    let mut writer = Narrow::roomy(alloc);
    judge_parts_for(
        alloc,
        reader,
        &mut writer,
        View::Verdict,
        Beginning::FirstCommand,
        &profile,
    )
}

/// A yes with these counts.
fn yes(records: u32, exchanges: u32, tail: u32) -> Result<Verdict, JudgeError> {
    Ok(Verdict::Yes {
        records,
        exchanges,
        tail,
    })
}

/// A no at this record.
fn no(at: u32, reason: Reason) -> Result<Verdict, JudgeError> {
    Ok(Verdict::No { at, reason })
}

#[test]
fn the_first_record_that_may_begin_a_command(rt: HostRuntime) -> Result<(), AllocError> {
    for (blocks, answer) in [
        ("", yes(0, 0, 0)),
        // The first record never begins, whatever it is.
        ("C 20 01 21", yes(0, 0, 0)),
        ("C 20 01 21 D 10 01 11", yes(0, 0, 0)),
        ("D 11", yes(0, 0, 0)),
        ("D 11 C 20", yes(1, 0, 1)),
        // A record of the controller's after another one does not, nor one of the deck's.
        ("C 01 21 D 10 01 11 C 20 01 21 D 10 01 11", yes(6, 1, 0)),
        ("D 01 11 C 20 01 21 D 10 01 11", yes(6, 1, 0)),
        // The record that breaks keeps its number.
        ("D 11 C 20 01 22", no(4, Reason::WrongSum)),
        ("D 01 11 C 10", no(3, Reason::WrongGroup)),
        // An exchange that stands before it is passed over.
        ("C 20 01 22 D 10 01 11 C 20 01 21 D 10 01 11", yes(6, 1, 0)),
    ] {
        let mut tap = Tap::new(rt.alloc())?;
        tap.put(blocks)?;
        same(&rt, begun(rt.alloc(), tap.text.as_bytes()), answer, blocks);
    }
    Ok(())
}

#[test]
fn a_gap_before_a_command(rt: HostRuntime) -> Result<(), AllocError> {
    for (rows, answer) in [
        ("0,C,55\n10287,C,20\n10700,C,01\n11100,C,21\n", yes(0, 0, 0)),
        ("0,C,55\n10288,C,20\n10700,C,01\n11100,C,21\n", yes(3, 0, 3)),
        ("0,D,55\n0,C,20\n400,C,01\n800,C,21\n", yes(3, 0, 3)),
    ] {
        let mut text = String::from_str(rt.alloc(), HEADER)?;
        text.push_str(rows)?;
        same(&rt, begun(rt.alloc(), text.as_bytes()), answer, rows);
    }
    Ok(())
}

#[test]
fn the_totals_with_what_is_passed_over(rt: HostRuntime) -> Result<(), AllocError> {
    for (blocks, breaks, records, exchanges, passed_over, tail) in [
        ("", 0, 0, 0, 0, 0),
        ("C 20 01 21 D 10 01 11", 0, 6, 0, 6, 0),
        ("D 01 11 C 20 01 21 D 10 01 11 C 20", 0, 9, 1, 2, 1),
        // A part breaks at record 5, and the next begins at record 9.
        ("D 01 11 C 20 01 22 D 10 01 11 C 20 01 21", 1, 11, 0, 8, 3),
    ] {
        let mut tap = Tap::new(rt.alloc())?;
        tap.put(blocks)?;
        let totals = Ok(Totals {
            breaks,
            records,
            exchanges,
            passed_over,
            tail,
        });
        same(
            &rt,
            begun_in_parts(rt.alloc(), tap.text.as_bytes()),
            totals,
            blocks,
        );
    }
    Ok(())
}

#[test]
fn a_refusal_among_records_that_are_passed_over(rt: HostRuntime) -> Result<(), AllocError> {
    let mut text = String::from_str(rt.alloc(), HEADER)?;
    text.push_str("400,D,01\n800,D,G1\n1200,C,20\n")?;
    let refused = |kind, row, field| JudgeError::Capture(CaptureError { kind, row, field });
    let byte = Some(ShownField::of(b"G1"));
    let answer = begun(rt.alloc(), text.as_bytes());
    same(
        &rt,
        answer,
        Err(refused(CaptureKind::Byte, 2, byte)),
        "a bad row",
    );
    let totals = begun_in_parts(rt.alloc(), text.as_bytes());
    same(
        &rt,
        totals,
        Err(refused(CaptureKind::Byte, 2, byte)),
        "in parts",
    );
    // The header has 18 bytes, and a row 9.
    for (bytes, row) in [(0, 0), (18, 1), (27, 2)] {
        let fault = Err(refused(CaptureKind::Read, row, None));
        let reader = Cut::new(text.as_str(), bytes);
        same(&rt, begun(rt.alloc(), reader), fault, bytes);
    }
    Ok(())
}

/// What a yes with a run counts: the records that were passed over, those that were judged, those that are open, and the exchanges.
fn counts_of(run: &RunVerdict) -> Option<(u32, u32, u32, usize)> {
    match run {
        RunVerdict::Yes {
            past,
            records,
            tail,
            exchanges,
            ..
        } => Some((*past, *records, *tail, exchanges.len())),
        RunVerdict::No { .. } => None,
    }
}

/// Compares what a yes with a run counts, judged from this beginning on.
fn tell_counts(
    rt: &impl Abort,
    alloc: Global,
    text: &str,
    beginning: Beginning,
    counts: Option<(u32, u32, u32, usize)>,
) {
    let profile = Profile::of(Hands::None);
    let run = judge_with_run_for(alloc, text.as_bytes(), beginning, &profile);
    let run = run.expect(rt, "a verdict");
    same(rt, counts_of(&run), counts, text);
}

#[test]
fn a_run_tells_how_many_were_passed_over(rt: HostRuntime) -> Result<(), AllocError> {
    let mut tap = Tap::new(rt.alloc())?;
    tap.put("D 01 11 C 20 01 21 D 10 01 11 C 20")?;
    let counts = Some((2, 7, 1, 1));
    tell_counts(&rt, rt.alloc(), &tap.text, Beginning::FirstCommand, counts);
    tell_counts(&rt, rt.alloc(), &tap.text, Beginning::FirstRecord, None);
    Ok(())
}
