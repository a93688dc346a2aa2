//! Seconds in decimal digits, cut to whole microseconds. The digits are what counts: no float is used.

use crate::digits::{number_of, signed, split_digits, with_digit};

/// A decimal number, by its parts.
#[derive(Clone, Copy)]
struct Number<'a> {
    is_negative: bool,
    whole: &'a [u8],
    decimals: &'a [u8],
    /// The power of ten.
    power: i32,
}

/// The microseconds that a number of seconds names: digits, with decimals behind a point or without, and a sign where it is below 0.
/// More than an `i64` holds is its limit.
pub(crate) fn read_seconds(text: &[u8]) -> Option<i64> {
    let (number, rest) = split_number(text)?;
    rest.is_empty().then_some(us_of(&number))
}

/// The same, where a power of ten may follow: `e` or `E`, a sign, and one digit or two.
pub(crate) fn read_seconds_with_power(text: &[u8]) -> Option<i64> {
    let (number, rest) = split_number(text)?;
    if rest.is_empty() {
        return Some(us_of(&number));
    }
    let power = read_power(rest)?;
    Some(us_of(&Number { power, ..number }))
}

/// The number that a text begins with, and what comes after it.
fn split_number(text: &[u8]) -> Option<(Number<'_>, &[u8])> {
    let (is_negative, unsigned) = match text {
        [b'-', unsigned @ ..] => (true, unsigned),
        unsigned => (false, unsigned),
    };
    let (whole, rest) = split_digits(unsigned);
    if whole.is_empty() {
        return None;
    }
    let (decimals, rest) = match rest {
        [b'.', behind @ ..] => split_digits(behind),
        rest => (&rest[..0], rest),
    };
    let ends_with_point = decimals.is_empty()
        && whole.len().saturating_add(rest.len()) != unsigned.len();
    if ends_with_point {
        return None;
    }
    let number = Number {
        is_negative,
        whole,
        decimals,
        power: 0,
    };
    Some((number, rest))
}

/// A power of ten.
fn read_power(text: &[u8]) -> Option<i32> {
    let (sign, digits) = match text {
        [b'e' | b'E', sign, digits @ ..] => (*sign, digits),
        _ => return None,
    };
    let are_digits = digits.iter().all(|byte| byte.is_ascii_digit());
    if !are_digits || !matches!(digits.len(), 1 | 2) {
        return None;
    }
    let power = i32::try_from(number_of(digits)).ok()?;
    match sign {
        b'+' => Some(power),
        b'-' => Some(0i32.saturating_sub(power)),
        _ => None,
    }
}

/// The microseconds of a number of seconds, cut downwards.
fn us_of(number: &Number<'_>) -> i64 {
    let (whole, decimals) = (number.whole, number.decimals);
    let places = whole.len().saturating_add(6);
    let places = match u32::try_from(number.power) {
        Ok(more) => places.saturating_add(more as usize),
        Err(_) => places.saturating_sub(number.power.unsigned_abs() as usize),
    };
    let behind = places.saturating_sub(whole.len());
    let us = whole.iter().take(places).fold(0, with_digit);
    let us = decimals.iter().take(behind).fold(us, with_digit);
    let us = (decimals.len()..behind).fold(us, |us, _| us.saturating_mul(10));
    let us = signed(us);
    if !number.is_negative {
        return us;
    }
    let is_cut = has_more(whole, places) || has_more(decimals, behind);
    0i64.saturating_sub(us).saturating_sub(i64::from(is_cut))
}

/// Whether digits have more than zeros from this place on.
fn has_more(digits: &[u8], place: usize) -> bool {
    digits.iter().skip(place).any(|byte| *byte != b'0')
}
