//! A reader of the events of a judging, which counts them by itself; and the lines of the report of the same capture.
ghost use Rattle.judge9.specs.Standing.{CanGoOn};

use super::parts::*;
use super::writers::Narrow;
use super::{Tap, same};
use deck9::{Hands, Profile};
use judge9::{Beginning, Detail, Event, Extent, JudgeError, Judging, Scope, View, judge_parts_for};
use std::alloc::{AllocError, Global};
use std::io::Read;
use std::process::Abort;
use std::str;

/// How often each was met: exchanges of PLAY, of STATUS SENSE and of other commands, late replies, and records that end a part.
#[derive(Clone, Copy, Debug, PartialEq, Eq)]
struct Met {
    plays: u32,
    senses: u32,
    others: u32,
    late: u32,
    breaks: u32,
}

impl Met {
    /// Of PLAY and STATUS SENSE so many exchanges, so many late replies, and so many records that end a part.
    fn new(plays: u32, senses: u32, late: u32, breaks: u32) -> Met {
        Met {
            plays,
            senses,
            others: 0,
            late,
            breaks,
        }
    }

    /// Counts an exchange of the command with this name.
    fn add_exchange(&mut self, name: Option<&str>) {
        match name {
            Some("PLAY") => self.plays = self.plays.saturating_add(1),
            Some("STATUS SENSE") => self.senses = self.senses.saturating_add(1),
            _ => self.others = self.others.saturating_add(1),
        }
    }

    /// Counts a line of an explanation. That of the totals counts for nothing.
    fn add_line(&mut self, line: &str) {
        if line.ends_with(": L1 late reply") {
            self.late = self.late.saturating_add(1);
        } else if line.starts_with("no at record ") {
            self.breaks = self.breaks.saturating_add(1);
        } else if line.contains(": PLAY -> ") {
            self.add_exchange(Some("PLAY"));
        } else if line.contains(": STATUS SENSE -> ") {
            self.add_exchange(Some("STATUS SENSE"));
        } else if line.starts_with("record ") {
            self.add_exchange(None);
        }
    }
}

/// Counts the events up to the end.
fn count_events<R: Read + Drop>(judging: &mut Judging<R>) -> Result<Met, JudgeError>
    requires { CanGoOn judging.old.stage judging.old.feed }
{
    let mut met = Met::new(0, 0, 0, 0);
    'events: loop {
        match judging.next()? {
            Event::Exchange => met.add_exchange(judging.exchange().command.name()),
            Event::LateReply(_) => met.late = met.late.saturating_add(1),
            Event::Break(_) => met.breaks = met.breaks.saturating_add(1),
            Event::End => return Ok(met),
        }
    }
}

/// What is met among the events of a capture that is judged part by part.
fn events_of(alloc: Global, text: &str, beginning: Beginning) -> Result<Met, JudgeError> {
    let profile = Profile::of(Hands::None);
    let scope = Scope {
        extent: Extent::WholeCapture,
        beginning,
    };
    let mut judging = Judging::new(alloc, text.as_bytes(), scope, &profile)?;
    let met = count_events(&mut judging);
    drop(judging);
    met
}

/// What is met among the lines of its explanation.
fn lines_of(alloc: Global, text: &str, beginning: Beginning) -> Result<Met, JudgeError> {
    let profile = Profile::of(Hands::None);
    let mut writer = Narrow::roomy(alloc);
    let view = View::Explain(Detail::Names);
    judge_parts_for(
        alloc,
        text.as_bytes(),
        &mut writer,
        view,
        beginning,
        &profile,
    )?;
    let mut met = Met::new(0, 0, 0, 0);
    let taken = writer.into_taken();
    if let Ok(explanation) = str::from_utf8(taken.as_slice()) {
        for line in explanation.lines() {
            met.add_line(line);
        }
    }
    Ok(met)
}

/// Compares both with what is to be met.
fn tell_met(rt: &impl Abort, alloc: Global, text: &str, beginning: Beginning, met: Met) {
    same(rt, events_of(alloc, text, beginning), Ok(met), text);
    same(rt, lines_of(alloc, text, beginning), Ok(met), text);
}

/// Blocks that come one after another, what comes 12,000 microseconds later, and what is met in a capture of these: PLAYs, STATUS
/// SENSEs, late replies and breaks.
const CAPTURES: &[(&[&str], &[&str], (u32, u32, u32, u32))] = &[
    (&[], &[], (0, 0, 0, 0)),
    (&[REMOTE, PLAY, SHOWS_PLAY], &[], (1, 2, 0, 0)),
    // A late reply, in an exchange that goes on.
    (&[REMOTE, "C 20 01 21"], &["D 10 01 11", PLAY], (2, 1, 1, 0)),
    // A wrong sum in the middle: the part ends, and the next begins with the PLAY after it.
    (&[REMOTE, "C 20 01 22 D 10 01 11", PLAY], &[], (1, 1, 0, 1)),
    // A late reply with a wrong group: it is late, and then its group ends the part.
    (&["C 20 01 21"], &["D 20 01 21", PLAY, REMOTE], (1, 1, 1, 1)),
    // The last exchange leaves no run, so it is none of those that are met.
    (&[REMOTE, LOCAL], &[], (0, 1, 0, 1)),
    // What is unfinished at the end is no exchange.
    (&[PLAY, "C 61 20 01"], &[], (1, 0, 0, 0)),
];

#[test]
fn the_events_of_captures(rt: HostRuntime) -> Result<(), AllocError> {
    for (blocks, later, (plays, senses, late, breaks)) in CAPTURES {
        let mut tap = Tap::new(rt.alloc())?;
        for block in *blocks {
            tap.put(block)?;
        }
        tap.time = tap.time.saturating_add(12_000);
        for block in *later {
            tap.put(block)?;
        }
        let met = Met::new(*plays, *senses, *late, *breaks);
        tell_met(&rt, rt.alloc(), &tap.text, Beginning::FirstRecord, met);
    }
    Ok(())
}

/// The capture begins inside a reply, and an exchange stands behind it.
#[test]
fn the_events_from_the_first_command_on(rt: HostRuntime) -> Result<(), AllocError> {
    let mut tap = Tap::new(rt.alloc())?;
    tap.put("D 01 11 C 20 01 21 D 10 01 11")?;
    let (all, begun) = (Met::new(1, 0, 0, 1), Met::new(1, 0, 0, 0));
    tell_met(&rt, rt.alloc(), &tap.text, Beginning::FirstRecord, all);
    tell_met(&rt, rt.alloc(), &tap.text, Beginning::FirstCommand, begun);
    Ok(())
}

/// The first three events.
fn three_events<R: Read + Drop>(
    judging: &mut Judging<R>,
) -> Result<(Event, Event, Event), JudgeError>
    requires { CanGoOn judging.old.stage judging.old.feed }
{
    let first = judging.next()?;
    let second = judging.next()?;
    let third = judging.next()?;
    Ok((first, second, third))
}

/// A capture that breaks, judged up to its first break and over all: behind the end comes the end.
#[test]
fn behind_the_end(rt: HostRuntime) -> Result<(), AllocError> {
    for extent in [Extent::FirstBreak, Extent::WholeCapture] {
        let mut tap = Tap::new(rt.alloc())?;
        tap.put("C 20 01 22")?;
        let profile = Profile::of(Hands::None);
        let scope = Scope {
            extent,
            beginning: Beginning::FirstRecord,
        };
        let mut judging = Judging::new(rt.alloc(), tap.text.as_bytes(), scope, &profile)?;
        let events = three_events(&mut judging);
        drop(judging);
        let are_so = matches!(events, Ok((Event::Break(_), Event::End, Event::End)));
        same(&rt, are_so, true, extent == Extent::FirstBreak);
    }
    Ok(())
}
