//! What a status says of the deck by itself, in a row of words.
ghost use Rattle.std.specs.Prelude.{◌≡◌, ◌++◌, codes, if◌then◌else◌, IfOk, OnOk};
ghost use Rattle.report9.specs.Row.{in_a_row};
ghost use Rattle.report9.specs.ExchangeBytes.{local_said, register_said, registers_said, said, said_by_status, shown_said, status_in};
ghost use Rattle.report9.specs.Working.{next_before};
ghost use Rattle.deck9.specs.Shows.{shown_by};

use crate::exchange_bytes::modes::put_modes;
use crate::pieces::{put_text, put_word};
use crate::row::put_in_row;
use block9::Exchange;
use deck9::{ModeSet, RegistersSet, Sense, Status};
use std::alloc::AllocError;

/// Puts what an exchange's reply says of the deck, where it carries status data: the first words after `, says `.
pub(super) fn put_said(line: &mut Vec<u8>, exchange: &Exchange) -> Result<(), AllocError>
    ensures { OnOk result (line.new.items ≡ line.old.items
        ++ in_a_row (codes ", says ") (codes ", ") (said (status_in (shown_by exchange.now.command exchange.now.reply) exchange.now.reply))) }
{
    match status_in(exchange) {
        Some(status) => put_reported(line, &status),
        None => Ok(()),
    }
}

/// The status data that an exchange's reply carries, where it does; a NAK carries none.
pub fn status_in(exchange: &Exchange) -> Option<Status>
    ensures { result ≡ status_in (shown_by exchange.now.command exchange.now.reply) exchange.now.reply }
{
    let reply = &exchange.reply;
    match Sense::shown_by(&exchange.command, reply) {
        Sense::Status(asked) if !reply.is_nak() => Some(Status::of(asked, reply)),
        _ => None,
    }
}

/// Puts what a status reports: LOCAL, the modes that may be shown, and the registers.
fn put_reported(line: &mut Vec<u8>, status: &Status) -> Result<(), AllocError>
    ensures { OnOk result (line.new.items ≡ line.old.items
        ++ in_a_row (codes ", says ") (codes ", ") (said_by_status status.now)) }
{
    let before = put_local(line, ", says ", status.local)?;
    let before = put_shown(line, before, status.shown)?;
    put_registers(line, before, &status.registers)
}

/// Puts what is reported of LOCAL, if it is, and answers what stands before the next words.
fn put_local<'a>(
    line: &mut Vec<u8>,
    before: &'a str,
    local: Option<bool>,
) -> Result<&'a str, AllocError>
    ensures text { OnOk result (line.new.items ≡ line.old.items
        ++ in_a_row before.entry.now (codes ", ") (local_said local)) }
    ensures next { IfOk result (λ s. s.now ≡ next_before before.entry.now (codes ", ") (local_said local)) }
{
    match local {
        Some(true) => put_in_row(line, before, ", ", "local yes"),
        Some(false) => put_in_row(line, before, ", ", "local no"),
        None => Ok(before),
    }
}

/// Puts the modes that are reported, if they are, and answers what stands before the next words.
fn put_shown<'a>(
    line: &mut Vec<u8>,
    before: &'a str,
    shown: Option<ModeSet>,
) -> Result<&'a str, AllocError>
    ensures text { OnOk result (line.new.items ≡ line.old.items
        ++ in_a_row before.entry.now (codes ", ") (shown_said shown)) }
    ensures next { IfOk result (λ s. s.now ≡ next_before before.entry.now (codes ", ") (shown_said shown)) }
{
    let Some(modes) = shown else {
        return Ok(before);
    };
    let next = put_in_row(line, before, ", ", "shown ")?;
    put_modes(line, modes)?;
    Ok(next)
}

/// Puts which registers are reported to be Set, if they are.
fn put_registers(
    line: &mut Vec<u8>,
    before: &str,
    registers: &Option<RegistersSet>,
) -> Result<(), AllocError>
    ensures { OnOk result (line.new.items ≡ line.old.items
        ++ in_a_row before.now (codes ", ") (registers_said registers.now)) }
{
    let Some(set) = registers else {
        return Ok(());
    };
    put_text(line, before)?;
    put_register(line, "in ", set.ins)?;
    put_text(line, ", ")?;
    put_register(line, "out ", set.outs)?;
    put_text(line, ", ")?;
    put_register(line, "ain ", set.ains)?;
    put_text(line, ", ")?;
    put_register(line, "aout ", set.aouts)
}

/// Puts whether a register is Set.
fn put_register(line: &mut Vec<u8>, label: &str, is_set: bool) -> Result<(), AllocError>
    ensures { OnOk result (line.new.items ≡ line.old.items ++ register_said label.now is_set) }
{
    put_word(line, label, if is_set { "set" } else { "clear" })
}
