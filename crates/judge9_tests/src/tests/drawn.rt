//! Short captures whose exchanges are drawn.

use super::parts::*;
use super::{Tap, same, tell};
use deck9::Hands;
use std::alloc::{AllocError, Global};
use std::process::Abort;
use std::test::Fail;

/// How many captures are drawn for each of hands.
pub(super) const CAPTURES: u32 = 1_000;

const PARTS: [&str; 32] = [
    REMOTE,
    LOCAL,
    DISABLE,
    ENABLE,
    PRESET_10,
    PRESET_10,
    PRESET_LAST,
    REFUSED_11,
    IN_ENTRY,
    SHIFT_MORE,
    SHIFT_LESS,
    IN_10,
    IN_10,
    IN_10_NEXT,
    IN_11,
    IN_FIRST,
    IN_LAST,
    IN_INVALID,
    IN_SET,
    NONE_SET,
    AUDIO_PRESET_10,
    AUDIO_IN_10,
    AUDIO_IN_11,
    PLAY,
    PLAY,
    FAST_FORWARD,
    CUE_UP,
    EJECT,
    UNLISTED,
    SHOWS_STOP,
    SHOWS_PLAY,
    SHOWS_FF,
];

/// Numbers that look like drawn ones, and are the same in each run.
#[derive(Drop)]
pub(super) struct Draw(pub(super) u32);

impl Draw {
    /// A number below that one, which is not 0.
    fn below(&mut self, most: u32) -> u32 {
        self.0 = self.0.wrapping_mul(1_664_525).wrapping_add(1_013_904_223);
        (self.0 >> 8).checked_rem(most).unwrap_or(0)
    }

    /// One of the exchanges.
    fn part(&mut self) -> &'static str {
        let place = self.below(32) as usize;
        PARTS.get(place).copied().unwrap_or(PLAY)
    }
}

/// A capture of at most sixteen exchanges. In about half of them two come before these that leave a deck in REMOTE which
/// nobody touches: such a deck does all that it acknowledges.
pub(super) fn drawn(alloc: Global, draw: &mut Draw) -> Result<String, AllocError> {
    let mut tap = Tap::new(alloc)?;
    if draw.below(2) == 0 {
        tap.put(DISABLE)?;
        tap.put(REMOTE)?;
    }
    for _ in 0..draw.below(17) {
        tap.put(draw.part())?;
    }
    Ok(tap.text)
}

/// Draws captures, and answers how many of them are a yes.
fn count_yes(rt: &impl Abort, alloc: Global, hands: Hands) -> Result<u32, AllocError> {
    let mut draw = Draw(1);
    let mut count = 0u32;
    for _ in 0..CAPTURES {
        let text = drawn(alloc, &mut draw)?;
        if tell(rt, alloc, text.as_str(), hands)? {
            count = count.saturating_add(1);
        }
    }
    Ok(count)
}

/// Both answers have to be often among the captures.
fn tell_drawn(rt: &impl Abort, alloc: Global, hands: Hands) -> Result<(), AllocError> {
    let count = count_yes(rt, alloc, hands)?;
    same(rt, count > 300 && count < 900, true, count);
    Ok(())
}

#[test]
fn untouched(rt: HostRuntime) -> Result<(), Fail> {
    tell_drawn(&rt, rt.alloc(), Hands::None)?;
    Ok(())
}

#[test]
fn perhaps_touched(rt: HostRuntime) -> Result<(), Fail> {
    tell_drawn(&rt, rt.alloc(), Hands::Allowed)?;
    Ok(())
}
