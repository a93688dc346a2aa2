//! What happened at a break, in one sentence, and the command at which it happened.

use crate::html::put_lasting;
use block9::{Open, Reason};
use capture9::{LineByte, Wire};
use deck9::Profile;
use picture9::command_name;
use report9::{WhyNo, end_before, put_bytes, put_text};
use std::alloc::{AllocError, Global};
use text9::{Done, Markup};
use view9::Called;

/// The command at which a break came: the last of the replies that contradict one another has answered it, it is open, or it is that
/// of the exchange before. None where less than two bytes of it came.
pub(crate) fn asked_at<'a>(profile: &'a Profile, why: &WhyNo) -> Option<Called<'a>> {
    match why {
        WhyNo::Contradiction { exchanges, .. } => {
            let last = exchanges.last()?;
            Some(Called::of(profile, last))
        }
        WhyNo::Break {
            tail,
            open,
            before,
            ..
        } => match before {
            Some(ended) if tail.is_empty() => Some(Called::of(profile, &ended.exchange)),
            _ => asked_open(profile, tail.as_slice(), open),
        },
    }
}

/// The command that is open: by its name, or else by its first two bytes.
fn asked_open<'a>(profile: &'a Profile, tail: &[LineByte], open: &Open) -> Option<Called<'a>> {
    if let Some(command) = &open.command {
        if let Some(name) = profile.name_of(command) {
            return Some(Called::Name(name));
        }
    }
    let asked = tail.get(..open.asked)?;
    let (first, second) = (asked.first()?.byte, asked.get(1)?.byte);
    match command_name(profile, first, second) {
        Some(name) => Some(Called::Name(name)),
        None => Some(Called::Head(
            u32::from(first)
                .saturating_mul(256)
                .saturating_add(u32::from(second)),
        )),
    }
}

/// What a sentence is made of.
#[derive(Drop)]
struct Said {
    /// What the command is called.
    asked: Vec<u8>,
    /// How long the record came after the one before, in microseconds; none before the first record of a part.
    after_us: Option<u64>,
    /// The record that breaks.
    sent: LineByte,
}

/// Puts the sentence of a break, whose record came at this time.
pub(super) fn put_sentence(
    html: &mut Markup,
    profile: &Profile,
    why: &WhyNo,
    time_us: u64,
) -> Done {
    let WhyNo::Break {
        reason,
        tail,
        open,
        before,
        breaking,
        ..
    } = why
    else {
        put_contradiction(html, why, time_us);
        return Ok(());
    };
    let tail = tail.as_slice();
    let end_us = end_before(tail, before);
    let said = Said {
        asked: name_of(html.alloc(), asked_at(profile, why))?,
        after_us: end_us.map(|end_us| breaking.time_us.saturating_sub(end_us)),
        sent: *breaking,
    };
    match reason {
        Reason::LateReply | Reason::NoReply | Reason::CommandBeforeReply => said.put_wait(
            html, *reason,
        ),
        Reason::ReplyWithoutCommand => said.put_without_command(html),
        Reason::ReplyInsideCommand | Reason::CommandInsideReply => said.put_inside(
            html, *reason, open,
        ),
        Reason::WrongGroup => said.put_wrong_group(html),
        Reason::WrongSum => said.put_wrong_sum(html, open.sum),
        Reason::ByteGap => said.put_gap(html),
        _ => said.put_block(html, *reason, tail, open.asked)?,
    }
    Ok(())
}

/// Puts how many replies contradict one another, and over how long.
fn put_contradiction(html: &mut Markup, why: &WhyNo, time_us: u64) {
    let WhyNo::Contradiction {
        exchanges,
        places,
        ..
    } = why
    else {
        return;
    };
    if places.len() == 1 {
        html.put_mark("No deck can have given this reply.");
        return;
    }
    let first = places.first().and_then(|place| exchanges.get(*place));
    let first_us = first.map_or(time_us, |first| first.time_us);
    let replies = places.len() as u64;
    html.put_filled("{c} replies contradict one another, over ", &[replies]);
    put_lasting(html, time_us.saturating_sub(first_us));
    html.put_mark(".");
}

impl Said {
    /// Puts the sentence of a reply that did not come in time, or not before the next command.
    fn put_wait(&self, html: &mut Markup, reason: Reason) {
        let after_us = self.after_us.unwrap_or(0);
        let asked = self.asked.as_slice();
        let sent = u64::from(self.sent.byte);
        match reason {
            Reason::LateReply => html.put_woven(
                "The reply to {t} began {c} &#181;s after it.",
                &[after_us],
                &[asked],
            ),
            Reason::NoReply => html.put_woven(
                "{t} got no reply; the next command came {c} &#181;s after it.",
                &[after_us],
                &[asked],
            ),
            _ => html.put_woven(
                "The controller sent {x}, {c} &#181;s after {t}.",
                &[sent, after_us],
                &[asked],
            ),
        }
    }

    /// Puts the sentence of a byte of the deck while no command waited.
    fn put_without_command(&self, html: &mut Markup) {
        let sent = u64::from(self.sent.byte);
        match self.after_us {
            Some(after_us) => html.put_woven(
                "After the reply to {t} the deck sent {x}, {c} &#181;s later.",
                &[sent, after_us],
                &[self.asked.as_slice()],
            ),
            None => html.put_filled("The deck sent {x}.", &[sent]),
        }
    }

    /// Puts the sentence of a byte inside the other wire's block.
    fn put_inside(&self, html: &mut Markup, reason: Reason, open: &Open) {
        let (sent, wanted) = (u64::from(self.sent.byte), open.wanted as u64);
        if reason == Reason::ReplyInsideCommand {
            html.put_filled(
                "The deck sent {x} when {n} of {n} bytes of the command had come.",
                &[sent, open.asked as u64, wanted],
            );
            return;
        }
        html.put_woven(
            "{n} of {n} bytes of the reply to {t} had come; {c} &#181;s later the controller sent {x}.",
            &[
                open.answered as u64,
                wanted,
                self.after_us.unwrap_or(0),
                sent,
            ],
            &[self.asked.as_slice()],
        );
    }

    /// Puts the sentence of a group of the other wire.
    fn put_wrong_group(&self, html: &mut Markup) {
        let form = match (self.sent.wire, self.after_us.is_some()) {
            (Wire::Controller, true) =>
                "{x} on the controller's wire, {c} &#181;s after the reply to {t}.",
            (Wire::Controller, false) => "{x} on the controller's wire.",
            (Wire::Deck, true) => "{x} on the deck's wire, {c} &#181;s after {t}.",
            (Wire::Deck, false) => "{x} on the deck's wire.",
        };
        let (sent, after_us) = (u64::from(self.sent.byte), self.after_us.unwrap_or(0));
        html.put_woven(form, &[sent, after_us], &[self.asked.as_slice()]);
    }

    /// Puts the sentence of a wrong sum, where this one is right.
    fn put_wrong_sum(&self, html: &mut Markup, sum: u8) {
        let form = match self.sent.wire {
            Wire::Controller => "The sum is {x}; the controller sent {x}, in {t}.",
            Wire::Deck => "The sum is {x}; the deck sent {x}, in the reply to {t}.",
        };
        let sums = [u64::from(sum), u64::from(self.sent.byte)];
        html.put_woven(form, &sums, &[self.asked.as_slice()]);
    }

    /// Puts the sentence of a silence inside a block.
    fn put_gap(&self, html: &mut Markup) {
        let form = match self.sent.wire {
            Wire::Controller => "{c} &#181;s between two bytes of the controller's block.",
            Wire::Deck => "{c} &#181;s between two bytes of the deck's block.",
        };
        html.put_filled(form, &[self.after_us.unwrap_or(0)]);
    }

    /// Puts the sentence of a block that is whole and wrong, of which these records came, so many of them the command's.
    fn put_block(
        &self,
        html: &mut Markup,
        reason: Reason,
        tail: &[LineByte],
        asked: usize,
    ) -> Done {
        let (command, reply) = tail.split_at(asked.min(tail.len()));
        let (form, records) = match reason {
            Reason::WrongReply => ("{t} was answered with {t} {x}.", reply),
            Reason::InvalidCommandTime => ("{t} carries {t}.", time_in(command)),
            _ => ("The reply to {t} carries {t}.", time_in(reply)),
        };
        let mut bytes = Vec::new(html.alloc());
        put_bytes(&mut bytes, records)?;
        let texts = [self.asked.as_slice(), bytes.as_slice()];
        html.put_woven(form, &[u64::from(self.sent.byte)], &texts);
        Ok(())
    }
}

/// The records of a block that carry its time.
fn time_in(block: &[LineByte]) -> &[LineByte] {
    block.get(2..6).unwrap_or(&[])
}

/// What a command is called that may not be known.
fn name_of(alloc: Global, asked: Option<Called<'_>>) -> Result<Vec<u8>, AllocError> {
    let mut name = Vec::new(alloc);
    match asked {
        Some(asked) => asked.put(&mut name)?,
        None => put_text(&mut name, "the command")?,
    }
    Ok(name)
}

/// Puts what a command is called.
pub(super) fn put_called(html: &mut Markup, called: Called<'_>) {
    html.put_with(|name| called.put(name));
}
