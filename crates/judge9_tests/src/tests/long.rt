//! Captures of more exchanges than the 256 that the way back takes at a time.

use super::parts::*;
use super::{Tap, same, tell};
use deck9::Hands;
use std::alloc::{AllocError, Global};
use std::process::Abort;
use std::test::Fail;

/// A deck in REMOTE does what it acknowledges.
const TURN: [&str; 8] = [
    REMOTE,
    PRESET_10,
    SHIFT_MORE,
    IN_10_NEXT,
    FAST_FORWARD,
    SHOWS_FF,
    PLAY,
    SHOWS_STOP,
];

/// IN DATA SENSE, answered with 10:00:06:00: 150 frames after 10:00:00:00.
const IN_150_ON: &str = "C 60 10 70 D 74 10 00 06 00 10 9A";

/// A capture of that many exchanges of a deck in REMOTE.
fn turns(alloc: Global, exchanges: usize) -> Result<String, AllocError> {
    let mut tap = Tap::new(alloc)?;
    for part in TURN.iter().cycle().take(exchanges) {
        tap.put(part)?;
    }
    Ok(tap.text)
}

/// A capture of a deck in LOCAL whose IN point is at 10:00:00:00, is shifted 597 times, and is then told to be 150 frames on.
fn shifts(alloc: Global) -> Result<String, AllocError> {
    let mut tap = Tap::new(alloc)?;
    tap.put(IN_SET_LOCAL)?;
    tap.put(IN_10)?;
    for _ in 0..597 {
        tap.put(SHIFT_MORE)?;
    }
    tap.put(IN_150_ON)?;
    Ok(tap.text)
}

fn tell_turns(
    rt: &impl Abort,
    alloc: Global,
    exchanges: usize,
    hands: Hands,
) -> Result<(), AllocError> {
    let text = turns(alloc, exchanges)?;
    let is_yes = tell(rt, alloc, text.as_str(), hands)?;
    same(rt, is_yes, true, exchanges);
    Ok(())
}

#[test]
fn in_remote(rt: HostRuntime) -> Result<(), Fail> {
    for exchanges in [255, 256, 257, 512, 513, 600] {
        tell_turns(&rt, rt.alloc(), exchanges, Hands::None)?;
        tell_turns(&rt, rt.alloc(), exchanges, Hands::Allowed)?;
    }
    Ok(())
}

/// A run does 150 of the shifts and leaves the others undone.
#[test]
fn in_local(rt: HostRuntime) -> Result<(), Fail> {
    let text = shifts(rt.alloc())?;
    let is_yes = tell(&rt, rt.alloc(), text.as_str(), Hands::None)?;
    same(&rt, is_yes, true, IN_150_ON);
    Ok(())
}
