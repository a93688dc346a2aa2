//! An exchange with the bytes of its blocks, put to the end of a line.
pub(crate) mod block_bytes;
pub(crate) mod modes;
pub(crate) mod said;

ghost use Rattle.std.specs.Prelude.{◌≡◌, ◌++◌, OnOk};
ghost use Rattle.deck9.specs.Names.{name_told};
ghost use Rattle.report9.specs.ExchangeBytes.{records_told, text_of_command_sent, text_of_exchange, text_of_records, text_of_reply_given};
ghost use Rattle.report9.specs.ExchangeBytes.{text_of_reply_sent, time_told, time_with_space, with_space, words_of};

use crate::pieces::{put_count, put_text, put_wide};
use block_bytes::put_block;
use block9::{Command, Exchange};
use deck9::{Profile, Sense};
use said::put_said;
use std::alloc::AllocError;
use tc25::{Rate, TimeCode};

/// Puts an exchange: the numbers of its first and its last record, its time, what was asked and what was answered. `at` is the
/// number of its last record.
pub fn put_exchange(
    line: &mut Vec<u8>,
    profile: &Profile,
    at: u128,
    exchange: &Exchange,
) -> Result<(), AllocError>
    ensures { OnOk result (line.new.items ≡ line.old.items ++ text_of_exchange profile.now at exchange.now) }
{
    put_exchange_records(line, at, exchange)?;
    put_command_sent(line, ": ", profile, exchange)?;
    put_reply_given(line, " -> ", profile, exchange)
}

/// Puts the beginning of the line of an exchange: the numbers of its first and its last record, and its time. `at` is the number of
/// its last record.
pub fn put_exchange_records(
    line: &mut Vec<u8>,
    at: u128,
    exchange: &Exchange,
) -> Result<(), AllocError>
    ensures { OnOk result (line.new.items ≡ line.old.items ++ records_told at exchange.now) }
{
    let before = at.saturating_sub(exchange.records() as u128);
    put_records(line, before + 1, at, exchange.time_us)
}

/// Puts the beginning of a line of records: the numbers of the first and the last, and the time of the first.
pub fn put_records(
    line: &mut Vec<u8>,
    first: u128,
    last: u128,
    time_us: u64,
) -> Result<(), AllocError>
    ensures { OnOk result (line.new.items ≡ line.old.items ++ text_of_records first last time_us) }
{
    put_wide(line, "records ", first)?;
    put_wide(line, " to ", last)?;
    put_count(line, " at ", time_us)
}

/// Puts a label and what was asked: the name of the command, where it has one, its time, and the bytes of its block.
pub fn put_command_sent(
    line: &mut Vec<u8>,
    label: &str,
    profile: &Profile,
    exchange: &Exchange,
) -> Result<(), AllocError>
    ensures { OnOk result (line.new.items ≡ line.old.items ++ (label.now ++ text_of_command_sent profile.now exchange.now)) }
{
    put_text(line, label)?;
    put_words(line, profile, &exchange.command)?;
    put_block(line, &exchange.block)
}

/// Puts the name of a command, where it has one, and its time.
pub fn put_words(line: &mut Vec<u8>, profile: &Profile, command: &Command) -> Result<(), AllocError>
    ensures { OnOk result (line.new.items ≡ line.old.items ++ words_of profile.now command.now) }
{
    put_name(line, profile, command)?;
    put_time(line, profile.rate, command.time())
}

/// Puts a label and what was answered: the time in the reply, the bytes of its block, and what status data say.
fn put_reply_given(
    line: &mut Vec<u8>,
    label: &str,
    profile: &Profile,
    exchange: &Exchange,
) -> Result<(), AllocError>
    ensures { OnOk result (line.new.items ≡ line.old.items ++ (label.now ++ text_of_reply_given profile.now exchange.now)) }
{
    put_reply_sent(line, label, profile, exchange)?;
    put_said(line, exchange)
}

/// Puts a label, the time in a reply and the bytes of its block.
pub fn put_reply_sent(
    line: &mut Vec<u8>,
    label: &str,
    profile: &Profile,
    exchange: &Exchange,
) -> Result<(), AllocError>
    ensures { OnOk result (line.new.items ≡ line.old.items ++ (label.now ++ text_of_reply_sent profile.now exchange.now)) }
{
    put_text(line, label)?;
    put_time(line, profile.rate, time_told(profile.rate, exchange))?;
    put_block(line, &exchange.reply)
}

/// Puts the name of a command and a space, where it has one.
fn put_name(line: &mut Vec<u8>, profile: &Profile, command: &Command) -> Result<(), AllocError>
    ensures { OnOk result (line.new.items ≡ line.old.items ++ with_space (name_told profile.now.deck command.now)) }
{
    let Some(name) = profile.name_of(command) else {
        return Ok(());
    };
    line.extend_from_slice(name)?;
    put_text(line, " ")
}

/// Puts a time and a space, where there is a time.
fn put_time(line: &mut Vec<u8>, rate: Rate, time: Option<TimeCode>) -> Result<(), AllocError>
    ensures { OnOk result (line.new.items ≡ line.old.items ++ time_with_space rate time) }
{
    let Some(time) = time else {
        return Ok(());
    };
    line.extend_from_slice(&time.text_at(rate))?;
    put_text(line, " ")
}

/// The time that a reply tells, where it is valid: the deck's own, or that of a register.
pub fn time_told(rate: Rate, exchange: &Exchange) -> Option<TimeCode>
    ensures { result ≡ time_told rate exchange.now.command exchange.now.reply }
{
    let (command, reply) = (&exchange.command, &exchange.reply);
    let is_told = match command {
        Command::CurrentTimeSense { .. } => command.is_own(reply),
        _ => matches!(Sense::shown_by(command, reply), Sense::Register(_)),
    };
    if is_told { reply.time_at(rate) } else { None }
}
