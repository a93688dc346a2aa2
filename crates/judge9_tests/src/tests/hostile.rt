//! Readers and writers that fail, and what is not read.

use super::parts::WOUND_AND_PLAYED;
use super::readers::{Cut, Repeated};
use super::texts::{HEADER, PLAYED, PLAYED_AND_CUT, WRONG_SUM};
use super::writers::{Narrow, Then};
use super::{answer_and_text, capture, report, same};
use block9::Reason;
use capture9::{CaptureError, CaptureKind};
use deck9::Hands;
use judge9::{Detail, JudgeError, Verdict, View, judge};
use std::alloc::Global;
use std::io::Read;
use std::process::Abort;
use std::test::Fail;

/// The refusal of a capture, for no field.
fn refused(kind: CaptureKind, row: u32) -> Result<Verdict, JudgeError> {
    Err(JudgeError::Capture(CaptureError {
        kind,
        row,
        field: None,
    }))
}

/// What is answered at a wrong sum in record 3.
const SUM_AT_3: Verdict = Verdict::No {
    at: 3,
    reason: Reason::WrongSum,
};

/// What is answered to `PLAYED`.
const WHOLE: Verdict = Verdict::Yes {
    records: 6,
    exchanges: 1,
    tail: 0,
};

/// The lines of a deck that winds on and plays.
const WOUND_AND_PLAYED_LINES: &str = "\
record 8: STATUS SENSE -> 71 20, delay 400, goal unknown, shown unknown, in unknown, out unknown, local no, ain unknown, aout unknown
record 14: FAST FWD -> ACK, delay 400, goal FF, shown unknown, in unknown, out unknown, local no, ain unknown, aout unknown
record 23: STATUS SENSE -> 72 20, delay 400, goal FF, shown FF, in unknown, out unknown, local no, ain unknown, aout unknown
record 29: PLAY -> ACK, delay 400, goal PLAY, shown unknown, in unknown, out unknown, local no, ain unknown, aout unknown
record 38: STATUS SENSE -> 72 20, delay 400, goal unknown, shown STOP, in unknown, out unknown, local no, ain unknown, aout unknown
yes: records 38, exchanges 5, open 0
";

/// Reads a capture that is refused, of which nothing is written.
fn tell_refused<R: Read + Drop>(
    rt: &impl Abort,
    alloc: Global,
    reader: R,
    kind: CaptureKind,
    row: u32,
) {
    let (answer, written) = answer_and_text(alloc, reader);
    same(rt, answer, refused(kind, row), (kind, row));
    same(rt, written.as_slice(), b"".as_slice(), (kind, row));
}

/// Reads a capture with a wrong sum in record 3.
fn tell_sum_at_3<R: Read + Drop>(rt: &impl Abort, alloc: Global, reader: R, case: &str) {
    let (answer, written) = answer_and_text(alloc, reader);
    same(rt, answer, Ok(SUM_AT_3), case);
    let line = b"no at record 3: B2 wrong sum\n";
    same(rt, written.as_slice(), line.as_slice(), case);
}

#[test]
fn no_row_is_read_after_the_break(rt: HostRuntime) {
    let mut reader = Repeated::new(WRONG_SUM, "1600,C,20\n", 1_000_000);
    tell_sum_at_3(&rt, rt.alloc(), &mut reader, "before a million rows");
    same(&rt, reader.given() < 1_000_000, true, reader.given());
}

#[test]
fn readers_that_fail(rt: HostRuntime) {
    // At once; inside row 4; after row 6, inside row 7.
    for (text, left, row) in [
        (PLAYED, 0, 0),
        (PLAYED, 52, 4),
        (PLAYED_AND_CUT, PLAYED_AND_CUT.len(), 7),
    ] {
        let reader = Cut::new(text, left);
        tell_refused(&rt, rt.alloc(), reader, CaptureKind::Read, row);
    }
    let broken = "time_us,wire,byte\n400,C,20\n800,C,01\n1200,C,22\n1600,C,20\n2000,C,20\n";
    let reader = Cut::new(broken, broken.len());
    tell_sum_at_3(&rt, rt.alloc(), reader, "before the reader fails");
}

#[test]
fn rows_without_end_at_one_time(rt: HostRuntime) {
    let six = "400,C,20\n400,C,01\n400,C,21\n400,D,10\n400,D,01\n400,D,11\n";
    let reader = Repeated::new(HEADER, six, u64::MAX);
    tell_refused(&rt, rt.alloc(), reader, CaptureKind::TooMany, 4_000_001);
}

/// Judges a capture for a writer with this room: what there is room for of these lines is written.
fn tell_room(
    rt: &impl Abort,
    alloc: Global,
    (text, view, lines): (&str, View, &str),
    (room, then): (usize, Then),
    expected: Result<Verdict, JudgeError>,
) {
    let mut writer = Narrow::new(alloc, room, then);
    let answer = judge(alloc, text.as_bytes(), &mut writer, view, Hands::None);
    same(rt, answer, expected, (lines, room));
    let (taken, wanted) = (writer.into_taken(), lines.as_bytes().get(..room));
    same(rt, Some(taken.as_slice()), wanted, (lines, room));
}

#[test]
fn writers_that_stop(rt: HostRuntime) {
    let line = "yes: records 6, exchanges 1, open 0\n";
    let report = (PLAYED, View::Verdict, line);
    for room in 0..line.len() {
        for then in [Then::Fail, Then::Interrupt, Then::TakeNone] {
            let stopped = Err(JudgeError::Write);
            tell_room(&rt, rt.alloc(), report, (room, then), stopped);
        }
    }
    let roomy = (line.len(), Then::Fail);
    tell_room(&rt, rt.alloc(), report, roomy, Ok(WHOLE));
}

/// Explains a capture whose reader fails after so many bytes, at this row, after the exchanges of these lines.
fn tell_lines_before(
    rt: &impl Abort,
    alloc: Global,
    (text, given, row): (&str, usize, u32),
    lines: &str,
) {
    let (answer, written) = report(
        alloc,
        Cut::new(text, given),
        View::Explain(Detail::Names),
        Hands::None,
    );
    same(rt, answer, refused(CaptureKind::Read, row), row);
    same(rt, written.as_slice(), lines.as_bytes(), row);
}

#[test]
fn lines_before_a_reader_fails(rt: HostRuntime) {
    let line =
        "record 6: PLAY -> ACK, delay 400, goal unknown, shown unknown, in unknown, out unknown, local unknown, ain unknown, aout unknown\n";
    let inside_row_7 = (PLAYED_AND_CUT, PLAYED_AND_CUT.len(), 7);
    tell_lines_before(&rt, rt.alloc(), inside_row_7, line);
    tell_lines_before(&rt, rt.alloc(), (PLAYED, 52, 4), "");
}

#[test]
fn writers_that_stop_in_an_explanation(rt: HostRuntime) -> Result<(), Fail> {
    let text = capture(rt.alloc(), &WOUND_AND_PLAYED)?;
    let report = (
        text.as_str(),
        View::Explain(Detail::Names),
        WOUND_AND_PLAYED_LINES,
    );
    for room in 0..WOUND_AND_PLAYED_LINES.len() {
        let stopped = Err(JudgeError::Write);
        tell_room(&rt, rt.alloc(), report, (room, Then::Fail), stopped);
    }
    Ok(())
}

/// Compares the words of a refusal.
fn tell_words(rt: &impl Abort, alloc: Global, refusal: JudgeError, words: &str) {
    let text = refusal.to_string(alloc).expect(rt, "memory");
    same(rt, text.as_str(), words, words);
}

#[test]
fn refusals_in_words(rt: HostRuntime) {
    let byte = JudgeError::Capture(CaptureError {
        kind: CaptureKind::Byte,
        row: 7,
        field: None,
    });
    let words = "the byte of row 7 is not two hexadecimal digits";
    tell_words(&rt, rt.alloc(), byte, words);
    let words = "the report can't be written";
    tell_words(&rt, rt.alloc(), JudgeError::Write, words);
    tell_words(&rt, rt.alloc(), JudgeError::OutOfMemory, "out of memory");
}
