//! The motion: what a deck did after each transport command that it acknowledged.
//!
//! What comes after a command is what comes before the next transport command that is acknowledged, or before the end of the part.
//! A late reply ends no part, and so no command's line.

use crate::called::Called;
use crate::not_obeyed::NotObeyed;
use crate::track::{Answer, Place, take_answer};
use crate::transport::{Followed, Transport, Way};
use crate::worth::{LEAST_WORTH_US, Showing};
use block9::Command;
use deck9::{Known, ModeSet, Profile};
use indexmap::IndexMap;
use report9::status_in;
use seen9::SeenExchange;
use std::alloc::{AllocError, Global};
use text9::Text;

/// A line that tells a deck's motion.
#[derive(Drop)]
pub struct MotionLine {
    /// What it names, by the exchange's last record: the acknowledgement of a command, or else what is worth looking at.
    pub place: Place,
    /// Where it is worth looking at, for how long it went on, in microseconds; of a time that jumps how much more or less it moved by
    /// than the clock. None where it tells what came of a command.
    pub worth_us: Option<u64>,
    /// What it says, after the record and its time.
    pub text: Text,
}

/// What came of one command. A count stays at its greatest once that is reached.
#[derive(Clone, Copy, Default, PartialEq, Eq)]
pub struct Outcome {
    /// How often it was acknowledged.
    pub commands: u32,
    /// How often its mode was shown.
    pub shown: u32,
    /// How often there were statuses, and none showed its mode.
    pub never: u32,
    /// Its slowest response: from the acknowledgement to the first status that showed its mode, in microseconds. None where its mode was
    /// never shown.
    pub slowest_us: Option<u64>,
    /// The number of that acknowledgement's last record; 0 where there is none.
    pub slowest_at: u32,
}

/// Follows what a deck does. It is handed each exchange, and the end of each part. Each time it has the lines of what ended with it: of
/// a command, and of what is worth looking at. They stay until the next time.
#[derive(Drop)]
pub struct Motion<'a> {
    profile: &'a Profile,
    /// What ended with the last exchange, or the last part.
    told: Vec<MotionLine>,
    /// The last transport command of the part, and what came since.
    followed: Option<Followed<'a>>,
    /// How many statuses showed which modes since then, in the order in which these first came.
    shown: Vec<(ModeSet, u32)>,
    /// The last statuses, as far as they show the same.
    showing: Option<Showing>,
    outcomes: IndexMap<Called<'a>, Outcome>,
    /// The command that was not obeyed for longest.
    not_obeyed: Option<NotObeyed<'a>>,
}

impl<'a> Motion<'a> {
    /// Of nothing yet.
    pub fn new(alloc: Global, profile: &'a Profile) -> Motion<'a> {
        Motion {
            profile,
            told: Vec::new(alloc),
            followed: None,
            shown: Vec::new(alloc),
            showing: None,
            outcomes: IndexMap::new(alloc),
            not_obeyed: None,
        }
    }

    /// Takes the next exchange.
    pub fn exchange(&mut self, seen: &SeenExchange<'_>) -> Result<(), AllocError> {
        self.told.clear();
        if seen.exchange.reply.is_nak() {
            return Ok(());
        }
        match seen.exchange.command {
            Command::StatusSense { .. } => return self.take_status(seen),
            Command::CurrentTimeSense { .. } => {
                if let Some(answer) = Answer::of(self.profile.rate, seen) {
                    self.take_time(&answer);
                }
            }
            _ => {
                if let Some(transport) = Transport::of(self.profile, seen) {
                    return self.begin_command(transport, seen);
                }
            }
        }
        Ok(())
    }

    /// Ends a part, by a break that is no late reply or at the end of the capture: what comes after it is told of no command before.
    pub fn end_part(&mut self) -> Result<(), AllocError> {
        self.told.clear();
        self.end_showing()?;
        self.end_command()?;
        self.followed = None;
        Ok(())
    }

    /// The lines of what ended with the last exchange, or the last part.
    pub fn lines(&self) -> &[MotionLine] {
        self.told.as_slice()
    }

    /// What came of the commands that have a mode of their own and a line, in the order in which they first came.
    pub fn outcomes(&self) -> &IndexMap<Called<'a>, Outcome> {
        &self.outcomes
    }

    /// The command that was not obeyed for longest, of those that were not for half a second or more; the first of several. One that a deck
    /// in LOCAL may have ignored is none, and neither is one to cue, where the tape moved since.
    pub fn not_obeyed(&self) -> Option<NotObeyed<'a>> {
        self.not_obeyed
    }

    /// Follows a command from here on. What is shown goes on where the command asks for that, and for the same way as the one before:
    /// some controllers send a command again and again.
    fn begin_command(
        &mut self,
        transport: Transport<'a>,
        seen: &SeenExchange<'_>,
    ) -> Result<(), AllocError> {
        self.end_command()?;
        let way = match &self.followed {
            Some(followed) => followed.transport.way,
            None => Way::Open,
        };
        let goes_on = match &self.showing {
            Some(showing) => showing.is_asked_by(&transport) && way == transport.way,
            None => false,
        };
        if !goes_on {
            self.end_showing()?;
        }
        self.followed = Some(Followed::new(transport, seen));
        self.shown.clear();
        Ok(())
    }

    /// Takes a status. It shows the mode that is known after it, and where none is those that its data allow. A reply that only a sheet
    /// lets the command take shows nothing.
    fn take_status(&mut self, seen: &SeenExchange<'_>) -> Result<(), AllocError> {
        let Some(allowed) = status_in(seen.exchange).and_then(|status| status.shown) else {
            return Ok(());
        };
        let mut modes = match seen.after.shown {
            Known::Is(mode) => ModeSet::just(mode),
            Known::Unknown => allowed,
        };
        let place = Place::of(seen);
        if let Some(followed) = &mut self.followed {
            modes = followed.take_status(modes, place);
            count_shown(&mut self.shown, modes)?;
        }
        self.take_modes(modes, place)
    }

    /// Takes the modes that a status shows.
    fn take_modes(&mut self, modes: ModeSet, place: Place) -> Result<(), AllocError> {
        if let Some(showing) = &mut self.showing {
            if showing.modes == modes {
                showing.go_on();
                return Ok(());
            }
        }
        self.end_showing()?;
        self.showing = Some(Showing::new(modes, place));
        Ok(())
    }

    /// Takes a time.
    fn take_time(&mut self, answer: &Answer) {
        if let Some(followed) = &mut self.followed {
            take_answer(&mut followed.times, answer);
        }
        if let Some(showing) = &mut self.showing {
            take_answer(&mut showing.ahead, answer);
        }
    }

    /// Weighs what was shown up to now.
    fn end_showing(&mut self) -> Result<(), AllocError> {
        if let Some(showing) = self.showing.take() {
            showing.weigh(&mut self.told, self.followed.as_ref())?;
        }
        Ok(())
    }

    /// Tells what came of the command, and counts it where it has a mode of its own.
    fn end_command(&mut self) -> Result<(), AllocError> {
        let Some(followed) = &self.followed else {
            return Ok(());
        };
        if !followed.place.is_shown {
            return Ok(());
        }
        let shown = self.shown.as_slice();
        tell_command(&mut self.told, followed, shown, None)?;
        if followed.is_never_shown() {
            tell_command(&mut self.told, followed, shown, Some(followed.statuses_us))?;
        }
        if let Some(not_obeyed) = followed.not_obeyed(shown) {
            let longest_us = self.not_obeyed.map_or(0, |longest| longest.lasts_us);
            if not_obeyed.lasts_us >= LEAST_WORTH_US && not_obeyed.lasts_us > longest_us {
                self.not_obeyed = Some(not_obeyed);
            }
        }
        if followed.transport.mode.is_some() {
            let outcome = self.outcomes.entry(followed.transport.called)?.or_default();
            outcome.add(followed);
        }
        Ok(())
    }
}

impl Outcome {
    /// Counts one command.
    fn add(&mut self, followed: &Followed<'_>) {
        self.commands = self.commands.saturating_add(1);
        let is_shown = followed.response_us.is_some();
        self.shown = self.shown.saturating_add(u32::from(is_shown));
        let is_never_shown = followed.is_never_shown();
        self.never = self.never.saturating_add(u32::from(is_never_shown));
        if followed.response_us > self.slowest_us {
            self.slowest_us = followed.response_us;
            self.slowest_at = followed.place.record;
        }
    }
}

/// Counts a status that shows these modes.
fn count_shown(shown: &mut Vec<(ModeSet, u32)>, modes: ModeSet) -> Result<(), AllocError> {
    for (counted, statuses) in shown.iter_mut() {
        if *counted == modes {
            *statuses = statuses.saturating_add(1);
            return Ok(());
        }
    }
    shown.push((modes, 1))?;
    Ok(())
}

/// Tells what came of a command, after which these modes were shown; with a time, as a line that is worth looking at.
fn tell_command(
    told: &mut Vec<MotionLine>,
    followed: &Followed<'_>,
    shown: &[(ModeSet, u32)],
    worth_us: Option<u64>,
) -> Result<(), AllocError> {
    let mut text = Text::new(*told.allocator());
    followed.put(&mut text, shown);
    tell(told, followed.place, worth_us, text)
}

/// Tells a line, where what it names is shown, and did not go on for too short a time to be worth looking at.
pub(crate) fn tell(
    told: &mut Vec<MotionLine>,
    place: Place,
    worth_us: Option<u64>,
    text: Text,
) -> Result<(), AllocError> {
    let is_trifle = worth_us.is_some_and(|us| us < LEAST_WORTH_US);
    if place.is_shown && !is_trifle {
        told.push(MotionLine {
            place,
            worth_us,
            text,
        })?;
    }
    Ok(())
}
