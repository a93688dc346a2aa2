//! Captures and what is answered to them, with values from the protocol's rules, by hand.
mod begun;
mod changed;
mod drawn;
mod events;
mod fewest_hands;
mod hostile;
mod kept_by_hand;
mod long;
mod parts;
mod read_faults;
mod readers;
mod run_lines;
mod runs;
mod texts;
mod worked_runs;
mod writers;

use changed::refuse_changes;
use deck9::Hands;
use judge9::{JudgeError, RunVerdict, Verdict, View, is_run, judge, judge_with_run};
use std::alloc::{AllocError, Global};
use std::fmt::{Debug, Write};
use std::io::Read;
use std::process::Abort;
use std::test::Fail;
use texts::HEADER;
use writers::Narrow;

/// Holds that what was found in a case is what is wanted.
///
/// The tests hold all their values by this call: the proof of a function with a call costs a part of that of one with
/// an assertion. Since a failed one names its own line, the case tells a reader which of the calls it was.
fn same<T: PartialEq + Drop, C: Debug + Drop>(rt: &impl Abort, found: T, wanted: T, case: C) {
    assert!(rt; found == wanted, "{case:?}");
}

/// Ends a test where what a case is answered has not even the form that is wanted.
fn fail<C: Debug + Drop>(rt: &impl Abort, case: C) -> ! {
    panic!(rt; "{case:?}")
}

/// The text of a capture whose records are 400 microseconds apart.
#[derive(Drop)]
struct Tap {
    text: String,
    time: u32,
    is_deck: bool,
}

impl Tap {
    /// A capture without records.
    fn new(alloc: Global) -> Result<Tap, AllocError> {
        Ok(Tap {
            text: String::from_str(alloc, HEADER)?,
            time: 0,
            is_deck: false,
        })
    }

    /// Puts blocks to the end: wire letters, each before the bytes that it brings.
    fn put(&mut self, blocks: &str) -> Result<(), AllocError> {
        for word in blocks.split_whitespace() {
            if word == "C" || word == "D" {
                self.is_deck = word == "D";
            } else {
                self.put_byte(word)?;
            }
        }
        Ok(())
    }

    /// Puts a byte of the wire that is open to the end.
    fn put_byte(&mut self, byte: &str) -> Result<(), AllocError> {
        self.time = self.time.saturating_add(400);
        let (time, wire) = (self.time, if self.is_deck { "D" } else { "C" });
        writeln!(self.text, "{time},{wire},{byte}")
    }
}

/// The text of a capture of these exchanges.
fn capture(alloc: Global, parts: &[&str]) -> Result<String, AllocError> {
    let mut tap = Tap::new(alloc)?;
    for part in parts {
        tap.put(part)?;
    }
    Ok(tap.text)
}

/// What is answered, and what is written, where a verdict is asked for and nobody touches the panel.
fn answer_and_text<R: Read + Drop>(
    alloc: Global,
    reader: R,
) -> (Result<Verdict, JudgeError>, Vec<u8>) {
    report(alloc, reader, View::Verdict, Hands::None)
}

/// What is answered, and what is written.
fn report<R: Read + Drop>(
    alloc: Global,
    reader: R,
    view: View,
    hands: Hands,
) -> (Result<Verdict, JudgeError>, Vec<u8>) {
    let mut writer = Narrow::roomy(alloc);
    let answer = judge(alloc, reader, &mut writer, view, hands);
    (answer, writer.into_taken())
}

/// Judges a capture with a run. The verdict has to be that of `judge`, and where it is a yes, the run has to be one,
/// and none after changes that no run has. Answers whether it is a yes.
fn tell(rt: &impl Abort, alloc: Global, text: &str, hands: Hands) -> Result<bool, AllocError> {
    let run = judge_with_run(alloc, text.as_bytes(), hands).expect(rt, "a verdict");
    tell_verdict(rt, alloc, text, hands, &run);
    tell_run(rt, alloc, hands, &run)
}

/// Compares the verdict with that of `judge`.
fn tell_verdict(rt: &impl Abort, alloc: Global, text: &str, hands: Hands, run: &RunVerdict) {
    let (verdict, _) = report(alloc, text.as_bytes(), View::Verdict, hands);
    same(rt, verdict, Ok(verdict_of(run)), text);
}

/// The verdict alone.
fn verdict_of(run: &RunVerdict) -> Verdict {
    match run {
        RunVerdict::Yes {
            records,
            tail,
            exchanges,
            ..
        } => Verdict::Yes {
            records: *records,
            exchanges: u32::try_from(exchanges.len()).unwrap_or(u32::MAX),
            tail: *tail,
        },
        RunVerdict::No { at, reason } => Verdict::No {
            at: *at,
            reason: *reason,
        },
    }
}

/// Asks for a second opinion on a run, and on the same with changes. Answers whether there is one.
fn tell_run(
    rt: &impl Abort,
    alloc: Global,
    hands: Hands,
    run: &RunVerdict,
) -> Result<bool, AllocError> {
    let RunVerdict::Yes {
        exchanges,
        states,
        ..
    } = run
    else {
        return Ok(false);
    };
    let (exchanges, states) = (exchanges.as_slice(), states.as_slice());
    same(rt, is_run(exchanges, states, hands), true, exchanges.len());
    refuse_changes(rt, alloc, hands, exchanges, states)?;
    Ok(true)
}
