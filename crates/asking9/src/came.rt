//! What judging a stretch of a capture comes to.

use crate::answer::check;
use crate::piece::Piece;
use crate::question::Unasked;
use block9::{Command, Exchange, Reason};
use deck9::{Deck, DeckRef, Effect, Forgotten, Mode, Profile};
use program9::Broken;
use report9::{Extent, JudgeError, Scope, Stretch, Verdict};
use seen9::{Ending, SeenBreak, SeenExchange, View, ViewOf};
use show9::show;
use std::alloc::Global;
use std::io::Read;

/// An exchange's command, and its first record in the capture.
#[derive(Clone, Copy)]
pub(crate) struct Place {
    pub(crate) record: u32,
    pub(crate) command: Command,
    /// The first two bytes of its block.
    pub(crate) head: u32,
    /// Whether the sheet says what the deck does at it.
    pub(crate) is_said: bool,
}

/// How a judging ends.
#[derive(Clone, Copy, PartialEq, Eq)]
pub(crate) enum End {
    /// No record breaks a rule.
    Yes,
    /// This one does.
    Broken(Broken),
    /// This row can't be read.
    BadRow(u32),
}

impl End {
    /// Whether judging over all parts comes to the same first break, or to none, where judging to the first break ends so.
    pub(crate) fn is_of_all_parts(self) -> bool {
        match self {
            End::Yes => true,
            End::Broken(broken) => broken.reason != Reason::LateReply,
            End::BadRow(_) => false,
        }
    }
}

/// What a judging comes to.
#[derive(Clone, Copy)]
pub(crate) struct Came {
    pub(crate) end: End,
    /// The last exchange at whose command the sheet says what the deck does; the last exchange where there is none.
    pub(crate) place: Option<Place>,
}

/// What is noted of a judging.
#[derive(Drop)]
struct Noted<'d> {
    /// The sheet whose commands are looked for, if there is one.
    sheet: Option<&'d Deck>,
    before: u32,
    broken: Option<Broken>,
    place: Option<Place>,
}

impl Noted<'_> {
    /// Notes an exchange, which begins with this record, unless one before it is of more use.
    fn note(&mut self, exchange: &Exchange, first: u32) {
        let is_said = match self.sheet {
            Some(sheet) => says_of(sheet, exchange),
            None => return,
        };
        let has_said = match &self.place {
            Some(place) => place.is_said,
            None => false,
        };
        if is_said || !has_said {
            self.place = Some(place_of(exchange, self.before.saturating_add(first), is_said));
        }
    }
}

/// The place of an exchange, which begins with this record of the capture.
fn place_of(exchange: &Exchange, record: u32, is_said: bool) -> Place {
    Place {
        record,
        command: exchange.command,
        head: exchange.block.head(),
        is_said,
    }
}

impl View for Noted<'_> {
    fn exchange(&mut self, seen: &SeenExchange<'_>) -> Result<(), JudgeError> {
        self.note(seen.exchange, seen.first);
        Ok(())
    }

    /// The first break ends the judging, as a write that failed does. A late reply is none over all parts.
    fn broken(&mut self, broken: &SeenBreak) -> Result<(), JudgeError> {
        self.broken = Some(Broken {
            at: self.before.saturating_add(broken.at),
            reason: broken.reason,
        });
        Err(JudgeError::Write)
    }
}

/// How judging a piece of a capture ends for a deck of this profile. Nothing is shown of it, which costs less. Over all parts a late reply
/// does not end it, and it may have more rows: then it is judged once more.
pub(crate) fn end_of_piece<R: Read + Drop>(
    alloc: Global,
    piece: Piece<'_>,
    extent: Extent,
    profile: &Profile,
) -> Result<End, Unasked> {
    let end = first_end::<R>(alloc, piece, profile)?;
    if extent == Extent::FirstBreak || end.is_of_all_parts() {
        return Ok(end);
    }
    Ok(judge_piece::<R>(alloc, piece, extent, profile, None)?.end)
}

/// How judging a piece of a capture to its first break ends.
pub(crate) fn first_end<R: Read + Drop>(
    alloc: Global,
    piece: Piece<'_>,
    profile: &Profile,
) -> Result<End, Unasked> {
    let scope = Scope {
        extent: Extent::FirstBreak,
        beginning: piece.beginning,
    };
    match check(alloc, piece.reader::<R>(), scope, profile) {
        Ok(Ending::Verdict(Verdict::No { at, reason })) => Ok(End::Broken(Broken {
            at: piece.before.saturating_add(at),
            reason,
        })),
        Ok(_) => Ok(End::Yes),
        Err(JudgeError::Capture(e)) => Ok(End::BadRow(piece.before.saturating_add(e.row))),
        Err(_) => Err(Unasked),
    }
}

/// Judges a piece of a capture for a deck of this profile, and looks for the commands at which the sheet says what the deck does.
pub(crate) fn judge_piece<R: Read + Drop>(
    alloc: Global,
    piece: Piece<'_>,
    extent: Extent,
    profile: &Profile,
    sheet: Option<&Deck>,
) -> Result<Came, Unasked> {
    let mut noted = Noted {
        sheet,
        before: piece.before,
        broken: None,
        place: None,
    };
    let of = ViewOf {
        scope: Scope {
            extent,
            beginning: piece.beginning,
        },
        stretch: Stretch::ALL,
        profile,
    };
    let shown = show(alloc, piece.reader::<R>(), &mut noted, of);
    let end = match (noted.broken, shown) {
        (Some(broken), _) => End::Broken(broken),
        (None, Ok(_)) => End::Yes,
        (None, Err(JudgeError::Capture(e))) => End::BadRow(piece.before.saturating_add(e.row)),
        (None, Err(_)) => return Err(Unasked),
    };
    let place = noted.place;
    Ok(Came { end, place })
}

/// Whether a sheet says what the deck does at an exchange's command: that it forgets something there, may go on to a mode or begin
/// something by itself, or shows other modes on the way to what it was told to do.
fn says_of(sheet: &Deck, exchange: &Exchange) -> bool {
    let head = exchange.block.head();
    if sheet.goals.contains_key(&head) || sheet.acts.contains_key(&head) {
        return true;
    }
    let forgets = sheet.forgets.get(&head).or(sheet.also_forgets.get(&head));
    if forgets.is_some_and(|forgotten| *forgotten != Forgotten::Nothing) {
        return true;
    }
    match DeckRef::none().effect(&exchange.command) {
        Effect::Go(mode) => shows_more(sheet, mode) || shows_more(sheet, Mode::Stop),
        Effect::KeepOr(_) => shows_more(sheet, Mode::Stop),
        _ => false,
    }
}

/// Whether a sheet names modes on the way to a goal. Every goal may end in STOP.
fn shows_more(sheet: &Deck, goal: Mode) -> bool {
    match sheet.ways.get(goal.index()) {
        Some(way) => *way != DeckRef::none().way(goal),
        None => false,
    }
}
