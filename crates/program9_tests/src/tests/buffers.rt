//! What a buffer hands on, to a writer that takes a byte a call.

use crate::tests::makers::Idle;
use crate::tests::same;
use crate::tests::writers::{Narrow, took, took_to_the_end};
use deck9::{Hands, Profile};
use program9::{Buffered, Job, Message, Named, Outcome, judge_and_flush};
use report9::{Beginning, Detail, Stretch, View};
use std::alloc::{AllocError, Global};
use std::io::Write;
use words9::{Asked, Drawing, ExportWords, Report};

/// PLAY and its acknowledgement.
const PLAY: &str =
    "time_us,wire,byte\n400,C,20\n800,C,01\n1200,C,21\n1600,D,10\n2000,D,01\n2400,D,11\n";

/// What is answered to it.
const YES: &str = "yes: records 6, exchanges 1, open 0\n";

/// What `check`, `explain` and `run` ask for.
const CHECK: Report = Report::ToBreak(View::Verdict);

const EXPLAIN: Report = Report::ToBreak(View::Explain(Detail::Names));

const RUN: Report = Report::Run;

/// The end of a judging with this report, with no hands, before this writer; and the writer after it.
fn judged(alloc: Global, text: &str, report: Report, writer: Narrow) -> Option<(Outcome, Narrow)> {
    let mut out = Buffered::new(alloc, writer, false).ok()?;
    let asked = Asked {
        report,
        beginning: Beginning::FirstRecord,
        stretch: Stretch::ALL,
        drawing: Drawing {
            at: None,
            width: 1200,
        },
        line_buffered: false,
        quiet: true,
    };
    let profile = Profile::of(Hands::None);
    let named = Named {
        file: None,
        sheets: Vec::new(alloc),
        sheet_texts: Vec::new(alloc),
        export: no_words(),
        deck_text: None,
    };
    let job = Job { asked, profile };
    let end = judge_and_flush(alloc, text.as_bytes(), &mut out, job, &named, &Idle);
    Some((end, out.into_writer()))
}

/// Of an export nothing is said.
fn no_words() -> ExportWords {
    ExportWords {
        deck_file: None,
        samplerate: None,
        controller: None,
        deck: None,
        unit: None,
        from: None,
        to: None,
        name: None,
        rows: None,
        live: false,
    }
}

/// The end of a yes.
fn yes() -> Outcome {
    Outcome {
        status: 0,
        message: Message::Nothing,
    }
}

/// The end where the writer failed.
fn write_fault() -> Outcome {
    Outcome {
        status: 4,
        message: Message::WriteFault,
    }
}

#[test]
fn the_report_is_handed_on(rt: HostRuntime) {
    let writer = Narrow::new(rt.alloc(), usize::MAX);
    let found = judged(rt.alloc(), PLAY, CHECK, writer);
    let (end, writer) = found.expect(&rt, "memory");
    same(&rt, end, yes(), YES);
    took(&rt, &writer, YES.as_bytes(), 0, 1);
}

#[test]
fn a_write_that_fails_is_a_write_fault(rt: HostRuntime) {
    for room in 0..YES.len() {
        let writer = Narrow::new(rt.alloc(), room);
        let found = judged(rt.alloc(), PLAY, CHECK, writer);
        let (end, writer) = found.expect(&rt, "memory");
        same(&rt, end, write_fault(), room);
        took(&rt, &writer, &YES.as_bytes()[..room], 1, 0);
    }
}

#[test]
fn a_run_is_handed_on_or_a_first_part_of_it(rt: HostRuntime) {
    let writer = Narrow::new(rt.alloc(), usize::MAX);
    let (end, writer) = judged(rt.alloc(), PLAY, RUN, writer).expect(&rt, "memory");
    same(&rt, end, yes(), YES);
    took_to_the_end(&rt, &writer, YES.as_bytes());
    let whole = writer.taken.as_slice();
    same(&rt, whole.starts_with(b"record 6: goal "), true, whole);
    for room in 0..whole.len() {
        let writer = Narrow::new(rt.alloc(), room);
        let (end, writer) = judged(rt.alloc(), PLAY, RUN, writer).expect(&rt, "memory");
        same(&rt, end, write_fault(), room);
        took(&rt, &writer, &whole[..room], 1, 0);
    }
}

#[test]
fn a_flush_that_fails_is_a_write_fault(rt: HostRuntime) {
    for report in [CHECK, EXPLAIN] {
        let writer = Narrow::that_fails_to_flush(rt.alloc());
        let found = judged(rt.alloc(), PLAY, report, writer);
        let (end, writer) = found.expect(&rt, "memory");
        same(&rt, end, write_fault(), "no flush");
        took_to_the_end(&rt, &writer, YES.as_bytes());
    }
    let writer = Narrow::that_fails_to_flush(rt.alloc());
    let (end, writer) = judged(rt.alloc(), PLAY, RUN, writer).expect(&rt, "memory");
    same(&rt, end, write_fault(), "no flush of a run");
    took_to_the_end(&rt, &writer, YES.as_bytes());
}

/// PLAY and its acknowledgement 200 times.
fn many_exchanges(alloc: Global) -> Result<String, AllocError> {
    let records = ["C,20", "C,01", "C,21", "D,10", "D,01", "D,11"];
    let mut text = String::from_str(alloc, "time_us,wire,byte\n")?;
    for at in 0..1200u16 {
        let (time, record) = (u32::from(at) * 400, records[usize::from(at % 6)]);
        text.push_str(format!(in alloc; "{time},{record}\n")?.as_str())?;
    }
    Ok(text)
}

#[test]
fn nothing_is_written_after_a_write_that_failed(rt: HostRuntime) {
    let text = many_exchanges(rt.alloc()).expect(&rt, "memory");
    let writer = Narrow::new(rt.alloc(), usize::MAX);
    let found = judged(rt.alloc(), text.as_str(), EXPLAIN, writer);
    let (end, writer) = found.expect(&rt, "memory");
    let whole = writer.taken.as_slice();
    same(&rt, end, yes(), "the whole");
    // The cuts below stand inside it.
    assert!(rt; whole.len() > 20_000);
    for room in [0, 1, 8191, 8192, 8193, 16_384, 20_000] {
        let writer = Narrow::new(rt.alloc(), room);
        let found = judged(rt.alloc(), text.as_str(), EXPLAIN, writer);
        let (end, writer) = found.expect(&rt, "memory");
        same(&rt, end, write_fault(), room);
        took(&rt, &writer, &whole[..room], 1, 0);
    }
}

#[test]
fn more_than_the_buffer_holds(rt: HostRuntime) {
    let writer = Narrow::new(rt.alloc(), usize::MAX);
    let found = Buffered::new(rt.alloc(), writer, false).ok();
    let mut out = found.expect(&rt, "memory");
    for _ in 0..5 {
        for digit in b"0123456789" {
            out.write_all(&[*digit; 400]).expect(&rt, "room");
        }
    }
    out.flush().expect(&rt, "room");
    let writer = out.into_writer();
    same(&rt, writer.taken.len(), 20_000, "as much as was written");
    for (at, byte) in writer.taken.iter().enumerate() {
        same(&rt, *byte, b"0123456789"[at / 400 % 10], at);
    }
}

#[test]
fn a_dropped_buffer_writes_nothing(rt: HostRuntime) {
    let mut writer = Narrow::new(rt.alloc(), usize::MAX);
    let is_held = match Buffered::new(rt.alloc(), &mut writer, false) {
        Ok(mut out) => out.write_all(b"held").is_ok(),
        Err(_) => false,
    };
    same(&rt, is_held, true, "held");
    took(&rt, &writer, b"", 0, 0);
}

/// What was written to a line-buffered writer; what it handed on by itself, and how often it flushed.
const LINES: &[(&'static str, &'static str, usize)] = &[
    ("", "", 0),
    ("no", "", 0),
    ("no\n", "no\n", 1),
    ("no\nat", "no\n", 1),
    ("no\nat\n", "no\nat\n", 2),
    ("\n", "\n", 1),
    ("\n\n", "\n\n", 2),
    ("\nno", "\n", 1),
    ("a\nb\nc\nd", "a\nb\nc\n", 3),
];

/// What a buffer handed on of this text, before it was flushed or after.
fn handed_on(alloc: Global, text: &[u8], line_buffered: bool, flushed: bool) -> Narrow {
    let mut writer = Narrow::new(alloc, usize::MAX);
    if let Ok(mut out) = Buffered::new(alloc, &mut writer, line_buffered) {
        let _ = out.write_all(text);
        if flushed {
            let _ = out.flush();
        }
    }
    writer
}

#[test]
fn each_line_is_handed_on_and_flushed_once(rt: HostRuntime) {
    for (text, lines, flushes) in LINES {
        let (text, lines) = (text.as_bytes(), lines.as_bytes());
        // The writer takes a byte a call, so there is a write for each byte that is handed on.
        let writer = handed_on(rt.alloc(), text, true, false);
        took(&rt, &writer, lines, 0, *flushes);
        same(&rt, writer.writes, lines.len(), text);
        // The flush at the end is one more.
        let writer = handed_on(rt.alloc(), text, true, true);
        took(&rt, &writer, text, 0, *flushes + 1);
        same(&rt, writer.writes, text.len(), text);
        // Not line-buffered, it hands on nothing before.
        let writer = handed_on(rt.alloc(), text, false, false);
        took(&rt, &writer, b"", 0, 0);
        same(&rt, writer.writes, 0, text);
        let writer = handed_on(rt.alloc(), text, false, true);
        took(&rt, &writer, text, 0, 1);
    }
}

#[test]
fn a_line_longer_than_the_buffer_is_flushed_once(rt: HostRuntime) {
    let mut text = Vec::new(rt.alloc());
    text.resize(8999, b'-').expect(&rt, "memory");
    // What does not fit is handed on without a flush.
    let writer = handed_on(rt.alloc(), text.as_slice(), true, false);
    same(&rt, (writer.taken.len(), writer.flushes), (8192, 0), "full");
    text.push(b'\n').expect(&rt, "memory");
    let writer = handed_on(rt.alloc(), text.as_slice(), true, false);
    took(&rt, &writer, text.as_slice(), 0, 1);
}
