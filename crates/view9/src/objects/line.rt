//! A line of JSON: an object, member by member.
ghost use Rattle.std.specs.Prelude.{◌≡◌, ◌++◌, [], ◌∷◌, ℕ, List, IfOk, OnOk, false};
ghost use Rattle.std.specs.Io.KnownBytes.{Appends};
ghost use Rattle.view9.specs.Json.{IsObject};
ghost use Rattle.view9.specs.Working.{AppendsMembers};

use crate::by_itself::registers_of;
use crate::field::Field;
use crate::not_obeyed::NotObeyed;
use crate::objects::told::{Told, text_in};
use bitflags::Flags;
use block9::{Command, Exchange, NakBits, Reason};
use deck9::{Going, Knowledge, Profile};
use json::Writer;
use report9::{
    JudgeError, Totals, put_block, put_command, put_hex, put_reply, status_in, time_told, write_all,
};
use std::alloc::{AllocError, Global};
use std::io::Write;
use tc25::{Rate, TimeCode};

/// Room for the members that most lines have.
const MEMBERS: usize = 24;

/// Room for the bytes that most lines have.
const LENGTH: usize = 512;

/// An object, which stands on a line of its own. It remembers whether memory was refused for a member, so that no call has to be
/// checked by itself: `write` tells.
#[derive(Drop)]
pub(super) struct Line<'a> {
    members: Vec<(&'a str, Told<'a>)>,
    /// Whether memory was refused, so that a member is missing or is not whole.
    is_short: bool,
}

impl<'a> Line<'a> {
    /// A line of this kind.
    pub(super) fn new(alloc: Global, kind: &'a str) -> Line<'a> {
        let (members, is_short) = match Vec::with_capacity(alloc, MEMBERS) {
            Ok(members) => (members, false),
            Err(_) => (Vec::new(alloc), true),
        };
        let mut line = Line { members, is_short };
        line.put("line", Told::Word(kind));
        line
    }

    /// The verdict, where it is a yes.
    pub(super) fn yes(alloc: Global, records: u32, exchanges: u64, open: u32) -> Line<'a> {
        let mut line = Line::new(alloc, "verdict");
        line.put("verdict", Told::Word("yes"));
        line.put("records", Told::Count(u64::from(records)));
        line.put("exchanges", Told::Count(exchanges));
        line.put("open", Told::Count(u64::from(open)));
        line
    }

    /// The verdict, where it is a no.
    pub(super) fn no(alloc: Global, at: u32, reason: Reason) -> Line<'a> {
        let mut line = Line::new(alloc, "verdict");
        line.put("verdict", Told::Word("no"));
        line.put_break(at, reason);
        line
    }

    /// A late reply that ends no part.
    pub(super) fn late(alloc: Global, at: u32) -> Line<'a> {
        let mut line = Line::new(alloc, "late_reply");
        line.put_break(at, Reason::LateReply);
        line
    }

    /// The totals.
    pub(super) fn totals(alloc: Global, totals: &Totals) -> Line<'a> {
        let mut line = Line::new(alloc, "breaks");
        line.put("breaks", Told::Count(totals.breaks));
        line.put("records", Told::Count(u64::from(totals.records)));
        line.put("exchanges", Told::Count(u64::from(totals.exchanges)));
        line.put("passed_over", Told::Count(u64::from(totals.passed_over)));
        line.put("open", Told::Count(u64::from(totals.tail)));
        line
    }

    /// A command that was not obeyed.
    pub(super) fn not_obeyed(alloc: Global, not_obeyed: &NotObeyed<'_>) -> Line<'a> {
        let mut line = Line::new(alloc, "not_obeyed");
        let place = not_obeyed.place;
        line.put("record", Told::Count(u64::from(place.record)));
        line.put("time_us", Told::Count(place.time_us));
        line.put_text("command", |text| not_obeyed.called.put(text));
        line.put("lasts_us", Told::Count(not_obeyed.lasts_us));
        line
    }

    /// Puts a member at the end.
    pub(super) fn put(&mut self, name: &'a str, told: Told<'a>) {
        self.is_short |= self.members.push((name, told)).is_err();
    }

    /// Puts a member that is the text that `put` writes into an empty buffer.
    pub(super) fn put_text<F: FnOnce(&mut Vec<u8>) -> Result<(), AllocError>>(
        &mut self,
        name: &'a str,
        put: F,
    )
        requires { F.IsAlwaysCallable put }
    {
        let mut text = Vec::new(*self.members.allocator());
        self.is_short |= put(&mut text).is_err();
        self.put(name, Told::Text(text));
    }

    /// Puts a byte.
    pub(super) fn put_byte(&mut self, name: &'a str, byte: u8) {
        self.put_text(name, |text| put_hex(text, u32::from(byte)));
    }

    /// Puts a member, where there is one.
    pub(super) fn put_some(&mut self, name: &'a str, told: Option<Told<'a>>) {
        match told {
            Some(told) => self.put(name, told),
            None => {}
        }
    }

    /// Puts a time, where there is one.
    pub(super) fn put_time(&mut self, name: &'a str, rate: Rate, time: Option<TimeCode>) {
        self.put_some(name, time.map(|time| Told::Time(time.text_at(rate))));
    }

    /// Puts what a command is called, where it has a name.
    pub(super) fn put_name(&mut self, profile: &'a Profile, command: &Command) {
        let name = profile.name_of(command);
        self.put_some("command", name.map(|name| Told::Word(text_in(name))));
    }

    /// Puts the numbers of the first and the last of `records` records, and the time of the first.
    pub(super) fn put_records(&mut self, last: u64, records: usize, time_us: u64) {
        let first = last.saturating_sub(records as u64).saturating_add(1);
        self.put("first_record", Told::Count(first));
        self.put("record", Told::Count(last));
        self.put("time_us", Told::Count(time_us));
    }

    /// Puts how many bytes the open block is to have, where more of them are missing than the one that breaks a rule.
    pub(super) fn put_length(&mut self, wanted: Option<usize>) {
        self.put_some(
            "block_length",
            wanted.map(|wanted| Told::Count(wanted as u64)),
        );
    }

    /// Puts what the command and the reply of an exchange are called, with the bits of a NAK.
    pub(super) fn put_called(&mut self, profile: &Profile, exchange: &Exchange) {
        self.put_text("command", |text| put_command(text, "", profile, exchange));
        let reply = &exchange.reply;
        match NakBits::of(reply) {
            Some(nak) => {
                self.put("reply", Told::Word("NAK"));
                self.put_byte("nak", nak.bits());
                self.put("bits", Told::Bits(nak))
            }
            None => self.put_text("reply", |text| put_reply(text, "", reply)),
        }
    }

    /// Puts what is known of these fields.
    pub(super) fn put_fields(&mut self, profile: &Profile, known: &Knowledge, fields: &[Field]) {
        for field in fields {
            self.put(field.name(), Told::of(*field, known, profile.rate));
        }
    }

    /// Puts what the deck may do by itself, where there is something.
    pub(super) fn put_going(&mut self, going: Going) {
        if going.modes.is_some() {
            self.put("may_run", Told::Modes(going.modes));
        }
        let registers = registers_of(going.lost);
        if !registers.is_empty() {
            self.put("may_lose", Told::Fields(registers));
        }
    }

    /// Puts the times and the bytes of an exchange.
    pub(super) fn put_blocks(&mut self, rate: Rate, exchange: &Exchange) {
        self.put_time("command_time", rate, exchange.command.time());
        self.put_text("command_bytes", |text| put_block(text, &exchange.block));
        self.put_time("reply_time", rate, time_told(rate, exchange));
        self.put_text("reply_bytes", |text| put_block(text, &exchange.reply));
    }

    /// Puts what an exchange's reply says.
    pub(super) fn put_says(&mut self, exchange: &Exchange) {
        self.put("says", Told::Says(status_in(exchange)));
    }

    /// Puts the record that breaks a rule, and the rule.
    pub(super) fn put_break(&mut self, record: u32, reason: Reason) {
        self.put("record", Told::Count(u64::from(record)));
        self.put("reason", Told::Word(reason.name()));
        self.put("text", Told::Word(reason.text()));
    }

    /// Writes the line, in one piece; an error where memory was refused for a member.
    pub(super) fn write<W: Write>(&self, writer: &mut W) -> Result<(), JudgeError>
        ensures whole { OnOk result (self.now.is_short ≡ false) }
        ensures object { OnOk result ((text : List ℕ) × IsObject text × Appends (W.contents writer.old) (W.contents writer.new) (text ++ 0x0A ∷ [])) }
    {
        if self.is_short {
            return Err(AllocError.into());
        }
        let mut text = self.text()?;
        text.push(b'\n').map_err(AllocError::from)?;
        Ok(write_all(writer, text.as_slice())?)
    }

    /// The object.
    fn text(&self) -> Result<Vec<u8>, AllocError>
        ensures { IfOk result (λ text. IsObject text.items) }
    {
        let room = Vec::with_capacity(*self.members.allocator(), LENGTH)?;
        let mut out = Writer::new(room);
        out.begin_object()?;
        self.write_members(&mut out)?;
        out.end_object()?;
        Ok(out.into_inner())
    }

    /// Writes the members.
    fn write_members(&self, out: &mut Writer) -> Result<(), AllocError>
        ensures { OnOk result (AppendsMembers 2 out.old out.new) }
    {
        for member in &self.members {
            out.key(member.0)?;
            member.1.write(out)?;
        }
        Ok(())
    }
}
