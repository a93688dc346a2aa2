//! What is worth looking at of what a deck did.

use crate::motion::{MotionLine, tell};
use crate::track::{Place, Track};
use crate::transport::{Followed, Transport};
use deck9::{Mode, ModeSet};
use report9::put_modes;
use std::alloc::AllocError;
use text9::Text;

/// For how long a time stands still where that is worth looking at, in microseconds.
const STILL_US: u64 = 1_000_000;

/// For how long something goes on at least that is worth looking at, in microseconds.
pub(crate) const LEAST_WORTH_US: u64 = 500_000;

/// Statuses that show the same modes, with no command between that asks for another mode or way.
#[derive(Clone, Copy)]
pub(crate) struct Showing {
    /// The modes.
    pub(crate) modes: ModeSet,
    /// The first status.
    from: Place,
    /// The times that were answered up to the last status.
    times: Option<Track>,
    /// Those with what was answered since. That belongs to it only from the next status on that shows the same: until then the mode
    /// may have been another.
    pub(crate) ahead: Option<Track>,
}

impl Showing {
    /// From the status on that shows these modes.
    pub(crate) fn new(modes: ModeSet, from: Place) -> Showing {
        Showing {
            modes,
            from,
            times: None,
            ahead: None,
        }
    }

    /// Goes on to another status that shows the same.
    pub(crate) fn go_on(&mut self) {
        self.times = self.ahead;
    }

    /// Whether a command asks for what is shown.
    pub(crate) fn is_asked_by(&self, transport: &Transport<'_>) -> bool {
        transport.mode.is_some_and(|mode| self.is_just(mode))
    }

    /// Whether this mode is shown, and no other.
    fn is_just(&self, mode: Mode) -> bool {
        self.modes == ModeSet::just(mode)
    }

    /// Whether the tape stands in each of the modes.
    fn stands(&self) -> bool {
        let standing = ModeSet::just(Mode::Stop)
            .or(ModeSet::just(Mode::Cued))
            .or(ModeSet::just(Mode::Eject));
        self.modes.is_some() && self.modes.or(standing) == standing
    }

    /// Weighs what was shown after this command.
    pub(crate) fn weigh(
        &self,
        told: &mut Vec<MotionLine>,
        followed: Option<&Followed<'_>>,
    ) -> Result<(), AllocError> {
        let Some(track) = &self.times else {
            return Ok(());
        };
        if self.is_just(Mode::Play) || self.is_just(Mode::Rec) {
            self.weigh_still(told, track)?;
            self.weigh_jumps(told, track)?;
        }
        if !track.runs() {
            return Ok(());
        }
        if self.stands() {
            return self.tell_run(told, track, None);
        }
        match followed {
            Some(command) if self.is_against(command, track) => self.tell_run(
                told, track, followed,
            ),
            _ => Ok(()),
        }
    }

    /// Weighs how long the time stood still.
    fn weigh_still(&self, told: &mut Vec<MotionLine>, track: &Track) -> Result<(), AllocError> {
        let still = &track.still;
        if track.still_us < STILL_US {
            return Ok(());
        }
        let mut text = Text::new(*told.allocator());
        text.put(still.name()).put(" stands still at ");
        still.put(&mut text);
        text.put_seconds(" for ", track.still_us).put(" s");
        self.put_while(&mut text);
        tell(told, still.place, Some(track.still_us), text)
    }

    /// Weighs how often the time jumped.
    fn weigh_jumps(&self, told: &mut Vec<MotionLine>, track: &Track) -> Result<(), AllocError> {
        let Some((from, to)) = &track.jump else {
            return Ok(());
        };
        let worth_us = Some(from.jumped_us(to));
        let mut text = Text::new(*told.allocator());
        text.put(to.name()).put(" jumps from ");
        from.put(&mut text);
        text.put(" to ");
        to.put(&mut text);
        text.put_seconds(" in ", to.place.since(from.place))
            .put(" s");
        if track.jumps > 1 {
            text.put_count(", the first of ", u64::from(track.jumps))
                .put(" jumps");
        }
        self.put_while(&mut text);
        tell(told, to.place, worth_us, text)
    }

    /// Tells of a time that runs, against a command where one is given.
    fn tell_run(
        &self,
        told: &mut Vec<MotionLine>,
        track: &Track,
        against: Option<&Followed<'_>>,
    ) -> Result<(), AllocError> {
        let mut text = Text::new(*told.allocator());
        text.put(track.name()).put(" runs");
        if let Some(command) = against {
            text.put(" against ");
            text.put_with(|text| command.transport.called.put(text));
            text.put_count(" of record ", u64::from(command.place.record));
        }
        text.put(", ");
        track.put(&mut text);
        self.put_while(&mut text);
        tell(told, self.from, Some(track.elapsed_us()), text)
    }

    /// Whether the command's mode is shown, and the time runs against its way.
    fn is_against(&self, command: &Followed<'_>, track: &Track) -> bool {
        let transport = &command.transport;
        self.is_asked_by(transport) && transport.way.is_against(track.moved)
    }

    /// Puts what is shown meanwhile.
    fn put_while(&self, text: &mut Text) {
        text.put(", while ")
            .put_with(|text| put_modes(text, self.modes))
            .put(" is shown");
    }
}
