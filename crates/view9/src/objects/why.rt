//! Why a record breaks a rule, as JSON.

use crate::field::Field;
use crate::objects::Json;
use crate::objects::line::Line;
use crate::objects::told::Told;
use block9::{Exchange, Open, Reason, records_in};
use capture9::{LineByte, Wire};
use deck9::Profile;
use report9::{JudgeError, WhyNo, end_before, put_bytes, still_wanted};
use seen9::ExplainedView;
use std::io::Write;

impl<W: Write> ExplainedView for Json<'_, W> {
    fn why(&mut self, why: WhyNo, is_shown: bool) -> Result<(), JudgeError> {
        if !is_shown {
            return Ok(());
        }
        self.write_contradiction(&why)?;
        self.write_break(&why)
    }
}

impl<W: Write> Json<'_, W> {
    /// Writes the exchanges that contradict one another, and what the deck could show when it gave the last of them. Writes nothing of
    /// a break.
    fn write_contradiction(&mut self, why: &WhyNo) -> Result<(), JudgeError> {
        let WhyNo::Contradiction {
            at,
            exchanges,
            places,
            known,
            shown,
        } = why
        else {
            return Ok(());
        };
        let (alloc, profile) = (self.alloc, self.profile);
        let records = u64::try_from(records_in(exchanges.as_slice())).unwrap_or(0);
        let mut last = u64::from(*at).saturating_sub(records);
        let mut told = 0usize;
        for (place, exchange) in exchanges.iter().enumerate() {
            last = last.saturating_add(exchange.records() as u64);
            if places.get(told).copied() == Some(place) {
                told = told.saturating_add(1);
                let mut line = Line::new(alloc, "contradicting_exchange");
                put_exchange(&mut line, profile, last, exchange);
                line.put_says(exchange);
                line.write(self.writer)?;
            }
        }
        let mut line = Line::new(alloc, "could_show");
        line.put("modes", Told::Modes(*shown));
        let fields = Field::told(profile.hands);
        line.put_fields(profile, known, fields.get(2..).unwrap_or(&[]));
        line.write(self.writer)
    }

    /// Writes the exchange before, where none is open; the open command and its reply, each where it has records; and the record that
    /// breaks. Writes nothing of a contradiction.
    fn write_break(&mut self, why: &WhyNo) -> Result<(), JudgeError> {
        let WhyNo::Break {
            at,
            reason,
            tail,
            open,
            before,
            breaking,
        } = why
        else {
            return Ok(());
        };
        let (alloc, profile) = (self.alloc, self.profile);
        let last = u64::from(*at).saturating_sub(1);
        if let Some(ended) = before {
            let mut line = Line::new(alloc, "exchange_before");
            put_exchange(&mut line, profile, last, &ended.exchange);
            line.write(self.writer)?;
        }
        let (asked, answered) = tail.as_slice().split_at(open.asked.min(tail.len()));
        let last_asked = last.saturating_sub(answered.len() as u64);
        if let Some(first) = asked.first() {
            let mut line = Line::new(alloc, "open_command");
            line.put_records(last_asked, asked.len(), first.time_us);
            put_command(&mut line, profile, asked, open, breaking.wire);
            line.write(self.writer)?;
        }
        if let Some(first) = answered.first() {
            let mut line = Line::new(alloc, "open_reply");
            line.put_records(last, answered.len(), first.time_us);
            line.put_text("reply_bytes", |text| put_bytes(text, answered));
            line.put_length(still_wanted(Wire::Deck, breaking.wire, open));
            line.write(self.writer)?;
        }
        let mut line = Line::new(alloc, "breaking_record");
        put_breaking(
            &mut line,
            *at,
            *breaking,
            end_before(tail.as_slice(), before),
        );
        put_rule(&mut line, *reason, open.sum);
        line.write(self.writer)
    }
}

/// Puts an exchange, whose last record has this number.
fn put_exchange<'a>(line: &mut Line<'a>, profile: &'a Profile, last: u64, exchange: &Exchange) {
    line.put_records(last, exchange.records(), exchange.time_us);
    line.put_name(profile, &exchange.command);
    line.put_blocks(profile.rate, exchange);
}

/// Puts what came of a command. The record that breaks is on `wire`.
fn put_command<'a>(
    line: &mut Line<'a>,
    profile: &'a Profile,
    records: &[LineByte],
    open: &Open,
    wire: Wire,
) {
    if let Some(command) = &open.command {
        line.put_name(profile, command);
        line.put_time("command_time", profile.rate, command.time());
    }
    line.put_text("command_bytes", |text| put_bytes(text, records));
    line.put_length(still_wanted(Wire::Controller, wire, open));
}

/// Puts the record that breaks a rule, and how long it comes after the one before, where there is one.
fn put_breaking(line: &mut Line<'_>, at: u32, breaking: LineByte, end_us: Option<u64>) {
    line.put("record", Told::Count(u64::from(at)));
    line.put("time_us", Told::Count(breaking.time_us));
    let wire = match breaking.wire {
        Wire::Controller => "C",
        Wire::Deck => "D",
    };
    line.put("wire", Told::Word(wire));
    line.put_byte("byte", breaking.byte);
    if let Some(end_us) = end_us {
        let elapsed_us = breaking.time_us.saturating_sub(end_us);
        line.put("elapsed_us", Told::Count(elapsed_us));
    }
}

/// Puts the limit of a rule that is one of time, and the right checksum where it is that of a wrong one.
fn put_rule(line: &mut Line<'_>, reason: Reason, sum: u8) {
    if let Some(limit_us) = reason.limit_us() {
        line.put("limit_us", Told::Count(limit_us));
    }
    if reason == Reason::WrongSum {
        line.put_byte("sum", sum);
    }
}
