//! The replies that contradict one another, as rows: what is written of each, and its records.

use crate::names::put_reply_name;
use block9::Exchange;
use capture9::{GREATEST_LIMIT, LineByte, Records};
use deck9::Profile;
use report9::{
    JudgeError, TextBuffer, WhyNo, put_command_sent, put_exchange, put_exchange_records,
    put_reply_sent, put_text, time_told,
};
use std::alloc::{AllocError, Global};
use std::io::Read;
use tc25::{Rate, TimeCode};
use text9::Done;
use view9::Called;

/// An exchange, as a row has it.
#[derive(Drop)]
pub(crate) struct ExchangeRow {
    /// The number of its first record.
    pub(crate) first: u32,
    /// The number of its last record.
    pub(crate) last: u32,
    /// What the command is called, with its time.
    pub(crate) asked: Vec<u8>,
    /// What the reply is called, with its time.
    pub(crate) answered: Vec<u8>,
    /// What the reply says of the deck.
    pub(crate) says: Vec<u8>,
    /// How many of its records are the command's.
    pub(crate) command_len: usize,
    pub(crate) records: Vec<LineByte>,
    /// Whether its last record is the one that breaks.
    pub(crate) breaks: bool,
}

impl ExchangeRow {
    /// The time of its first record, in microseconds.
    pub(crate) fn time_us(&self) -> u64 {
        self.records.first().map_or(0, |first| first.time_us)
    }

    /// The time of its last record, in microseconds.
    pub(crate) fn end_us(&self) -> u64 {
        self.records.last().map_or(0, |last| last.time_us)
    }
}

/// The rows of the exchanges that contradict one another, whose records are read of the whole capture; none of a break. The last of all
/// exchanges ends with the record that breaks.
pub(crate) fn rows_of<R: Read + Drop>(
    alloc: Global,
    reader: R,
    profile: &Profile,
    why: &WhyNo,
) -> Result<Vec<ExchangeRow>, JudgeError> {
    let mut rows = Vec::new(alloc);
    let WhyNo::Contradiction {
        at,
        exchanges,
        places,
        ..
    } = why
    else {
        return Ok(rows);
    };
    let mut reading = Records::new(alloc, reader, GREATEST_LIMIT);
    let mut last = first_before(*at, exchanges.as_slice());
    for (place, exchange) in exchanges.iter().enumerate() {
        let first = last.saturating_add(1);
        last = last.saturating_add(exchange.records() as u32);
        if places.get(rows.len()).copied() == Some(place) {
            let row = ExchangeRow {
                first,
                last,
                asked: asked_of(alloc, profile, exchange)?,
                answered: answered_of(alloc, profile, exchange)?,
                says: says_of(alloc, profile, exchange)?,
                command_len: exchange.block.bytes.len() + 3,
                records: read_records(alloc, &mut reading, first, last)?,
                breaks: last == *at,
            };
            rows.push(row).map_err(AllocError::from)?;
        }
    }
    Ok(rows)
}

/// The number of the record before the first exchange, of which the last ends with the record of the number `at`.
fn first_before(at: u32, exchanges: &[Exchange]) -> u32 {
    exchanges.iter().fold(
        at,
        |before, exchange| before.saturating_sub(exchange.records() as u32),
    )
}

/// Reads the records from the first number to the last. Those before are passed over.
fn read_records<R: Read + Drop>(
    alloc: Global,
    reading: &mut Records<R>,
    first: u32,
    last: u32,
) -> Result<Vec<LineByte>, JudgeError> {
    let mut records = Vec::new(alloc);
    for number in reading.given().saturating_add(1)..=last {
        let Some(record) = reading.next()? else {
            break;
        };
        if number >= first {
            records.push(record).map_err(AllocError::from)?;
        }
    }
    Ok(records)
}

/// What the command is called, with its time.
pub fn asked_of(
    alloc: Global,
    profile: &Profile,
    exchange: &Exchange,
) -> Result<Vec<u8>, AllocError> {
    let mut text = Vec::new(alloc);
    Called::of(profile, exchange).put(&mut text)?;
    put_time(&mut text, profile.rate, exchange.command.time())?;
    Ok(text)
}

/// What the reply is called, with its time.
pub fn answered_of(
    alloc: Global,
    profile: &Profile,
    exchange: &Exchange,
) -> Result<Vec<u8>, AllocError> {
    let mut text = Vec::new(alloc);
    put_reply_name(&mut text, exchange.reply.head())?;
    put_time(&mut text, profile.rate, time_told(profile.rate, exchange))?;
    Ok(text)
}

/// Puts a time after a blank, where there is one.
fn put_time(text: &mut Vec<u8>, rate: Rate, time: Option<TimeCode>) -> Done {
    let Some(time) = time else {
        return Ok(());
    };
    put_text(text, " ")?;
    text.put(&time.text_at(rate))
}

/// What the reply says of the deck, taken by itself: the end of a report's line of the exchange, after the bytes and a comma.
pub fn says_of(
    alloc: Global,
    profile: &Profile,
    exchange: &Exchange,
) -> Result<Vec<u8>, AllocError> {
    let mut sent = Vec::new(alloc);
    put_exchange_records(&mut sent, 0, exchange)?;
    put_command_sent(&mut sent, ": ", profile, exchange)?;
    put_reply_sent(&mut sent, " -> ", profile, exchange)?;
    let mut whole = Vec::new(alloc);
    put_exchange(&mut whole, profile, 0, exchange)?;
    let behind = sent.len().saturating_add(2);
    let mut says = Vec::new(alloc);
    says.extend_from_slice(whole.as_slice().get(behind..).unwrap_or(&[]))?;
    Ok(says)
}
