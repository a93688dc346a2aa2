//! The fields of a row: from bytes to the record that they spell.

ghost use Rattle.std.specs.Prelude.{◌≡◌, ◌≢◌, ◌+◌, ◌*◌, ◌^◌, ◌≤◌, ◌∷◌, [], ◌&&◌, ℕ, length, IfErr, MatchOption};
ghost use Rattle.std.specs.Char.{is_ascii_digit};
ghost use Rattle.std.specs.Result.{result_ok};
ghost use Rattle.csv.specs.Records.{fields_of};
ghost use Rattle.capture9.specs.Fields.{byte_in, hex_digit_of, is_header, time_in, wire_in};
ghost use Rattle.capture9.specs.Rows.{row_fault, row_of};
ghost use Rattle.capture9.specs.Working.{digits_after};

use crate::error::{CaptureError, CaptureKind};
use crate::line_byte::{LineByte, Wire};
use csv::ByteRecord;
use std::simd::prelude::*;

/// The most digits of a time.
const MAX_TIME_DIGITS: usize = 15;

/// What a one is worth at each place of eight decimal digits.
const WORTHS: [u32; 8] = [10_000_000, 1_000_000, 100_000, 10_000, 1_000, 100, 10, 1];

/// The three fields of a row.
#[derive(Clone, Copy)]
struct Columns<'a> {
    time: &'a [u8],
    wire: &'a [u8],
    byte: &'a [u8],
}

/// The fields of a CSV record, where it has three.
fn three_columns(row: &ByteRecord) -> Option<Columns<'_>>
    ensures { MatchOption result (length (fields_of row.now) ≢ 3)
        (λ c. fields_of row.now ≡ c.time.now ∷ c.wire.now ∷ c.byte.now ∷ []) }
{
    if row.len() != 3 {
        return None;
    }
    Some(Columns {
        time: row.get(0)?,
        wire: row.get(1)?,
        byte: row.get(2)?,
    })
}

/// Whether a CSV record is the header of a capture.
pub(crate) fn is_header(row: &ByteRecord) -> bool
    ensures { result ≡ is_header (fields_of row.now) }
{
    match three_columns(row) {
        Some(names) => {
            names.time == b"time_us".as_slice()
                && names.wire == b"wire".as_slice()
                && names.byte == b"byte".as_slice()
        },
        None => false,
    }
}

/// The record of the data row with this number, after a row of the time `before`, or None where the row
/// breaks a rule. There may be `most_rows` rows.
#[inline(always)] // else each record is handed on through memory
pub(crate) fn read_row(
    number: u32,
    most_rows: u32,
    before: u64,
    row: &ByteRecord,
) -> Option<LineByte>
    ensures { result ≡ result_ok (row_of most_rows number before (fields_of row.now)) }
{
    let columns = three_columns(row)?;
    let time_us = read_time(columns.time)?;
    let wire = read_wire(columns.wire)?;
    let byte = read_byte(columns.byte)?;
    if time_us < before || number > most_rows {
        return None;
    }
    Some(LineByte {
        time_us,
        wire,
        byte,
    })
}

/// The fault of the data row with this number, where it breaks a rule: that of the first one in order.
///
/// It reads the fields again, so that `read_row` says nothing of rules: nearly every row keeps them all.
#[cold]
#[inline(never)]
pub(crate) fn fault_in(number: u32, most_rows: u32, row: &ByteRecord) -> CaptureError
    ensures { (before : ℕ) → IfErr (row_of most_rows number before (fields_of row.now))
        (λ k. result ≡ row_fault number (fields_of row.now) k) }
{
    if number > most_rows {
        return CaptureError::of_row(CaptureKind::TooMany, number);
    }
    let Some(columns) = three_columns(row) else {
        return CaptureError::of_row(CaptureKind::Fields, number);
    };
    if read_time(columns.time).is_none() {
        return CaptureError::of_field(CaptureKind::Time, number, columns.time);
    }
    if read_wire(columns.wire).is_none() {
        return CaptureError::of_field(CaptureKind::Wire, number, columns.wire);
    }
    if read_byte(columns.byte).is_none() {
        return CaptureError::of_field(CaptureKind::Byte, number, columns.byte);
    }
    // No other rule is left.
    CaptureError::of_field(CaptureKind::Backwards, number, columns.time)
}

/// The time that a field tells, in microseconds: 1 to 15 decimal digits.
///
/// From ten seconds on a time has eight digits and more, and the first eight are read at once: digit by digit they would
/// take a tenth of all the time that a capture takes.
#[inline(always)] // else each time is handed on through memory
fn read_time(field: &[u8]) -> Option<u64>
    ensures { result ≡ time_in field.now }
{
    if field.is_empty() || field.len() > MAX_TIME_DIGITS {
        return None;
    }
    match field.split_first_chunk::<8>() {
        Some((front, rest)) => {
            let first = eight_digits(front)?;
            digits_after(first, rest)
        }
        None => digits_after(0, field),
    }
}

/// The number that eight decimal digits spell. They are tested, and then summed, all at once.
#[inline(always)] // else each time costs a call
fn eight_digits(digits: &[u8; 8]) -> Option<u64>
    ensures { result ≡ digits_after 0 digits.now }
{
    let values = u8x8::from_array(*digits) - u8x8::splat(b'0');
    if !values.simd_lt(u8x8::splat(10)).all() {
        return None;
    }
    let worths = values.cast::<u32>() * u32x8::from_array(WORTHS);
    Some(u64::from(worths.reduce_sum()))
}

/// The number that these decimal digits make after the digits of `front`.
fn digits_after(front: u64, digits: &[u8]) -> Option<u64>
    requires { (front + 1) * 10 ^ length digits.now ≤ 10 ^ 15 }
    ensures { result ≡ digits_after front digits.now }
{
    let mut time = front;
    for byte in digits {
        if !byte.is_ascii_digit() {
            return None;
        }
        time = time * 10 + u64::from(*byte - b'0');
    }
    Some(time)
}

/// The wire that a field names: `C` or `D`.
fn read_wire(field: &[u8]) -> Option<Wire>
    ensures { result ≡ wire_in field.now }
{
    match field {
        b"C" => Some(Wire::Controller),
        b"D" => Some(Wire::Deck),
        _ => None,
    }
}

/// The byte that a field tells: two hexadecimal digits, of either case.
#[inline(always)] // else each loop over records costs each byte a call
fn read_byte(field: &[u8]) -> Option<u8>
    ensures { result ≡ byte_in field.now }
{
    match field {
        [high, low] => Some(hex_digit(*high)? * 16 + hex_digit(*low)?),
        _ => None,
    }
}

/// The value of a hexadecimal digit.
fn hex_digit(byte: u8) -> Option<u8>
    ensures { result ≡ hex_digit_of byte }
{
    // Tested apart, since a range among the arms takes two tests.
    if byte.is_ascii_digit() {
        return Some(byte - b'0');
    }
    match byte {
        b'a'..=b'f' => Some(byte - b'a' + 10),
        b'A'..=b'F' => Some(byte - b'A' + 10),
        _ => None,
    }
}
