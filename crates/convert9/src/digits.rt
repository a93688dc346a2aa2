//! Digits, as exports and captures have them.
ghost use Rattle.std.specs.Prelude.{◌≡◌, ◌<◌};
ghost use Rattle.convert9.specs.Spelled.{hex};

use hex::decode_to_slice;

/// The digits that a text begins with, and what comes after them.
pub(crate) fn split_digits(text: &[u8]) -> (&[u8], &[u8]) {
    let count = text.iter().take_while(|byte| byte.is_ascii_digit()).count();
    text.split_at(count.min(text.len()))
}

/// The number that decimal digits are. More than a `u64` holds is its limit.
pub(crate) fn number_of(digits: &[u8]) -> u64 {
    digits.iter().fold(0, with_digit)
}

/// The number from 1 to `most` that a text is: decimal digits, of which the first is no 0.
pub(crate) fn number_up_to(text: &[u8], most: u64) -> Option<u64> {
    let (digits, rest) = split_digits(text);
    let number = number_of(digits);
    let is_number = rest.is_empty() && matches!(digits, [b'1'..=b'9', ..]);
    (is_number && number <= most).then_some(number)
}

/// A number as an `i64`. More than that holds is its limit.
pub(crate) fn signed(number: u64) -> i64 {
    i64::try_from(number).unwrap_or(i64::MAX)
}

/// A number with one more digit behind it.
pub(crate) fn with_digit(number: u64, byte: &u8) -> u64 {
    number.saturating_mul(10).saturating_add(digit(*byte))
}

/// What a decimal digit counts.
fn digit(byte: u8) -> u64 {
    u64::from(byte.wrapping_sub(b'0'))
}

/// The byte that two hexadecimal digits are.
pub(crate) fn byte_of(text: &[u8]) -> Option<u8> {
    let mut bytes = [0];
    decode_to_slice(text, &mut bytes).ok()?;
    Some(bytes[0])
}

/// A hexadecimal digit, in upper case.
pub(crate) fn hex_digit(value: u8) -> u8
    requires { value < 16 }
    ensures { result ≡ hex value }
{
    if value < 10 {
        b'0' + value
    } else {
        b'A' + value - 10
    }
}
