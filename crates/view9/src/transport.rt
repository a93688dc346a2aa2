//! Transport commands: what each asks for, and what came of one that was acknowledged.

use crate::by_itself::{has_line_for, put_going};
use crate::called::Called;
use crate::not_obeyed::{NotObeyed, is_on_the_way};
use crate::track::{Place, Track, put_track};
use block9::{Command, Exchange};
use deck9::{DeckRef, Effect, Forgotten, Going, Known, Mode, ModeSet, Profile};
use report9::put_modes;
use seen9::SeenExchange;
use text9::Text;

/// Which way the tape runs by a command.
#[derive(Clone, Copy, PartialEq, Eq)]
pub(crate) enum Way {
    /// Forward.
    Forward,
    /// Back.
    Back,
    /// The command leaves it open.
    Open,
}

/// A transport command.
#[derive(Clone, Copy)]
pub(crate) struct Transport<'a> {
    /// What it is called.
    pub(crate) called: Called<'a>,
    /// The mode that it asks for, where it has one of its own.
    pub(crate) mode: Option<Mode>,
    /// The way that it asks for.
    pub(crate) way: Way,
}

/// A transport command that was acknowledged, and what came since.
#[derive(Clone, Copy)]
pub(crate) struct Followed<'a> {
    /// The command.
    pub(crate) transport: Transport<'a>,
    /// Its acknowledgement.
    pub(crate) place: Place,
    /// Whether the deck was known to be in LOCAL, and so may have ignored it.
    is_local: bool,
    /// What the deck may do by itself from there on.
    going: Going,
    statuses: u32,
    /// How long after the acknowledgement the last status came, in microseconds.
    pub(crate) statuses_us: u64,
    /// How long after it the first status came that showed the command's mode.
    pub(crate) response_us: Option<u64>,
    /// Which status that was, counted from 1.
    response_status: u32,
    /// The times that were answered.
    pub(crate) times: Option<Track>,
}

impl Way {
    fn of(command: &Command) -> Way {
        match command {
            Command::Play
            | Command::SyncPlay
            | Command::Record
            | Command::FastForward
            | Command::JogForward
            | Command::VarForward
            | Command::ShuttleForward => Way::Forward,
            Command::Rewind | Command::JogReverse | Command::VarReverse | Command::ShuttleReverse =>
                Way::Back,
            _ => Way::Open,
        }
    }

    /// Whether a time that moved by so many frames ran against it.
    pub(crate) fn is_against(self, moved: i64) -> bool {
        match self {
            Way::Forward => moved < 0,
            Way::Back => moved > 0,
            Way::Open => false,
        }
    }
}

impl<'a> Transport<'a> {
    /// What the command of an exchange asks for, where it is one of the transport. One that is not listed is one by its group, unless it is
    /// a query; where a sheet has a name for it, only if by the sheet the tape may move otherwise after it, or the deck may act by itself.
    pub(crate) fn of(profile: &'a Profile, seen: &SeenExchange<'_>) -> Option<Transport<'a>> {
        let command = &seen.exchange.command;
        let called = Called::of(profile, seen.exchange);
        let mode = match (DeckRef::none().effect(command), called) {
            (Effect::Go(mode), _) => Some(mode),
            (Effect::KeepOr(_), _) => None,
            (_, Called::Head(head)) if head / 0x10_00 == 2 && !seen.exchange.only_asks() => None,
            _ if has_line_for(profile, seen.exchange) || may_move(profile, seen.exchange) => None,
            _ => return None,
        };
        let way = Way::of(command);
        Some(Transport { called, mode, way })
    }
}

impl<'a> Followed<'a> {
    /// A command that is acknowledged here.
    pub(crate) fn new(transport: Transport<'a>, seen: &SeenExchange<'_>) -> Followed<'a> {
        Followed {
            transport,
            place: Place::of(seen),
            is_local: matches!(seen.after.local, Known::Is(true)),
            going: seen.going,
            statuses: 0,
            statuses_us: 0,
            response_us: None,
            response_status: 0,
            times: None,
        }
    }

    /// Takes a status that shows one of these modes: what it is taken for, the command's mode where that is one of them.
    pub(crate) fn take_status(&mut self, modes: ModeSet, place: Place) -> ModeSet {
        self.statuses = self.statuses.saturating_add(1);
        self.statuses_us = place.since(self.place);
        match self.transport.mode {
            Some(mode) if modes.has(mode) => {
                if self.response_us.is_none() {
                    self.response_us = Some(self.statuses_us);
                    self.response_status = self.statuses;
                }
                ModeSet::just(mode)
            }
            _ => modes,
        }
    }

    /// Whether there were statuses, and none showed its mode.
    pub(crate) fn is_never_shown(&self) -> bool {
        self.transport.mode.is_some() && self.response_us.is_none() && self.statuses > 0
    }

    /// The command as one that was not obeyed, after which these modes were shown; none where it was, or may have been.
    pub(crate) fn not_obeyed(&self, shown: &[(ModeSet, u32)]) -> Option<NotObeyed<'a>> {
        let goal = self.transport.mode?;
        let may_be = self.is_local || shown.iter().any(|(modes, _)| is_on_the_way(goal, *modes));
        (self.is_never_shown() && !may_be).then_some(NotObeyed {
            called: self.transport.called,
            place: self.place,
            lasts_us: self.statuses_us,
        })
    }

    /// Puts its text: what came of it, how often which modes were shown, the times, and what the deck may do by itself after it.
    pub(crate) fn put(&self, line: &mut Text, shown: &[(ModeSet, u32)]) {
        line.put_with(|text| self.transport.called.put(text));
        line.put(if self.is_local { " in local: " } else { ": " });
        match (self.transport.mode, self.response_us) {
            (Some(mode), Some(us)) => self.put_response(line, mode, us),
            (mode, _) => self.put_statuses(line, mode),
        }
        put_shown(line, shown);
        put_track(line, &self.times);
        put_going(line, self.going);
    }

    /// Puts when the mode was shown first.
    fn put_response(&self, line: &mut Text, mode: Mode, us: u64) {
        line.put(mode.name())
            .put_seconds(" shown after ", us)
            .put_count(" s, by status ", u64::from(self.response_status))
            .put_count(" of ", u64::from(self.statuses));
    }

    /// Puts how many statuses came, none of which showed the mode.
    fn put_statuses(&self, line: &mut Text, mode: Option<Mode>) {
        match mode {
            Some(mode) if self.statuses > 0 => line.put(mode.name()).put(" not shown, "),
            Some(_) => line,
            None => line.put("no mode of its own, "),
        };
        if self.statuses == 0 {
            line.put("no status");
            return;
        }
        let noun = if self.statuses == 1 {
            " status"
        } else {
            " statuses"
        };
        line.put_count("", u64::from(self.statuses))
            .put(noun)
            .put_seconds(" over ", self.statuses_us)
            .put(" s");
    }
}

/// Whether a command that is not listed, and that the deck acknowledged, may change what the tape does by what a sheet says of it: by its
/// goals; and a command of the transport's group, unless it forgets nothing of the motion.
fn may_move(profile: &Profile, exchange: &Exchange) -> bool {
    if exchange.only_asks() {
        return false;
    }
    match profile.deck_ref().effect(&exchange.command) {
        Effect::KeepOr(_) => true,
        Effect::Forget(Forgotten::Motion | Forgotten::Tape | Forgotten::Everything) => exchange
            .block
            .group
            == 2,
        _ => false,
    }
}

/// Puts how often which modes were shown.
fn put_shown(line: &mut Text, shown: &[(ModeSet, u32)]) {
    let mut before = " (";
    for (modes, statuses) in shown {
        line.put(before)
            .put_with(|text| put_modes(text, *modes))
            .put_count(" ", u64::from(*statuses));
        before = ", ";
    }
    line.put(if shown.is_empty() { "" } else { ")" });
}
