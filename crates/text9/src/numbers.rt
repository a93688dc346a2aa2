//! Numbers as texts have them: with commas, with a point before their last digits, and times. No float is used.
ghost use Rattle.std.specs.Prelude.{◌≡◌, ◌≤◌, ◌++◌, OnOk};
ghost use Rattle.text9.specs.Form.{clock, grouped, hundredths, last_digit, millionths, tenths, thousandths, to_hundreds};

use crate::markup::Done;
use report9::{TextBuffer, put_count, put_text};
use std::alloc::{AllocError, Global};

/// A number divided and rounded. A half goes to the even neighbour, as where floats are printed.
fn rounded(number: u64, by: u64) -> u64
    requires { 1 ≤ by }
{
    let (whole, rest) = (number / by, number % by);
    let twice = rest.saturating_mul(2);
    if twice > by || (twice == by && whole % 2 == 1) {
        whole.saturating_add(1)
    } else {
        whole
    }
}

/// Puts a place in pixels, to a tenth.
pub fn put_px(text: &mut Vec<u8>, place: u64) -> Done
    ensures { OnOk result (text.new.items ≡ text.old.items ++ tenths (to_hundreds place)) }
{
    put_tenths(text, to_hundreds(place))
}

/// A number divided by 100 and rounded. A half goes to the even neighbour.
fn to_hundreds(number: u64) -> u64
    ensures { result ≡ to_hundreds number }
{
    let (whole, rest) = (number / 100, number % 100);
    if rest > 50 || (rest == 50 && whole % 2 == 1) {
        whole + 1
    } else {
        whole
    }
}

/// Puts microseconds as milliseconds.
pub fn put_milliseconds(text: &mut Vec<u8>, us: u64) -> Done {
    put_thousandths(text, us)?;
    put_text(text, " ms")
}

/// Microseconds as milliseconds.
pub fn milliseconds(alloc: Global, us: u64) -> Result<Vec<u8>, AllocError> {
    let mut text = Vec::new(alloc);
    put_milliseconds(&mut text, us)?;
    Ok(text)
}

/// Puts microseconds as seconds from one second on, and below as milliseconds.
pub fn put_long_time(text: &mut Vec<u8>, us: u64) -> Done {
    if us < 1_000_000 {
        return put_milliseconds(text, us);
    }
    put_thousandths(text, rounded(us, 1_000))?;
    put_text(text, " s")
}

/// Puts a number with a comma before each three of its last digits.
pub(crate) fn put_thousands(text: &mut Vec<u8>, number: u64) -> Done
    ensures { OnOk result (text.new.items ≡ text.old.items ++ grouped 6 number) }
{
    put_grouped(text, 6, number)
}

/// Puts a number with a comma before each three of its last digits, as far as so many commas go.
#[tactic(auto, using(crate::proofs::Grouped::grouped_whole, crate::proofs::Grouped::grouped_few, crate::proofs::Grouped::grouped_more))]
fn put_grouped(text: &mut Vec<u8>, commas: u32, number: u64) -> Done
    ensures { OnOk result (text.new.items ≡ text.old.items ++ grouped commas number) }
{
    if commas == 0 || number < 1_000 {
        return put_count(text, "", number);
    }
    put_grouped(text, commas - 1, number / 1_000)?;
    text.put(&[b',', digit(number / 100), digit(number / 10), digit(number)])
}

/// Puts a number with a point before its last digit.
pub fn put_tenths(text: &mut Vec<u8>, number: u64) -> Done
    ensures { OnOk result (text.new.items ≡ text.old.items ++ tenths number) }
{
    put_count(text, "", number / 10)?;
    text.put(&[b'.', digit(number)])
}

/// Puts a number with a point before its last two digits.
pub fn put_hundredths(text: &mut Vec<u8>, number: u64) -> Done
    ensures { OnOk result (text.new.items ≡ text.old.items ++ hundredths number) }
{
    put_count(text, "", number / 100)?;
    text.put(&[b'.', digit(number / 10), digit(number)])
}

/// Puts a number with a point before its last three digits.
pub(crate) fn put_thousandths(text: &mut Vec<u8>, number: u64) -> Done
    ensures { OnOk result (text.new.items ≡ text.old.items ++ thousandths number) }
{
    put_count(text, "", number / 1_000)?;
    text.put(&[b'.', digit(number / 100), digit(number / 10), digit(number)])
}

/// Puts a number with a point before its last six digits.
pub(crate) fn put_millionths(text: &mut Vec<u8>, number: u64) -> Done
    ensures { OnOk result (text.new.items ≡ text.old.items ++ millionths number) }
{
    put_count(text, "", number / 1_000_000)?;
    let first = [
        b'.',
        digit(number / 100_000),
        digit(number / 10_000),
        digit(number / 1_000),
    ];
    text.put(&first)?;
    text.put(&[digit(number / 100), digit(number / 10), digit(number)])
}

/// Puts microseconds as seconds, with six decimals.
pub fn put_seconds(text: &mut Vec<u8>, us: u64) -> Done
    ensures { OnOk result (text.new.items ≡ text.old.items ++ millionths us) }
{
    put_millionths(text, us)
}

/// Puts microseconds as hours, minutes and seconds, cut to the millisecond.
pub(crate) fn put_clock(text: &mut Vec<u8>, us: u64) -> Done
    ensures { OnOk result (text.new.items ≡ text.old.items ++ clock us) }
{
    let hours = us / 3_600_000_000;
    put_count(text, if hours < 10 { "0" } else { "" }, hours)?;
    let (minutes, seconds) = (us / 60_000_000, us / 1_000_000);
    text.put(&[b':', b'0' + (us / 600_000_000 % 6) as u8, digit(minutes)])?;
    text.put(&[b':', b'0' + (us / 10_000_000 % 6) as u8, digit(seconds)])?;
    text.put(&[
        b'.',
        digit(us / 100_000),
        digit(us / 10_000),
        digit(us / 1_000),
    ])
}

/// The last decimal digit of a number.
pub(crate) fn digit(number: u64) -> u8
    ensures { result ≡ last_digit number }
{
    b'0' + (number % 10) as u8
}
