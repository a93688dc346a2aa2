//! The command that a key names, by the first two bytes of its block as one number: its head. Or CURRENT TIME SENSE with a selector,
//! by the first three. Of what kind it is, and hexadecimal digits.
ghost use Rattle.std.specs.Prelude.{◌≡◌, [], ◌∷◌};
ghost use Rattle.capture9.specs.Fields.{byte_in, hex_digit_of};
ghost use Rattle.sheet9.specs.Head.{head_named, head_or_selector, is_reply, is_transport, selector_named};

use block9::{TIME_SENSE, time_sense_with};

/// The head that a key names: two hexadecimal digits for each of the two bytes, of either case, with one blank between.
pub(crate) fn head_named(key: &[u8]) -> Option<u32>
    ensures { result ≡ head_named key.now }
{
    match key {
        [a, b, b' ', c, d] => Some(256 * u32::from(byte_of(*a, *b)?) + u32::from(byte_of(*c, *d)?)),
        _ => None,
    }
}

/// The head that a key names, or CURRENT TIME SENSE with a selector, where the key has three bytes.
pub(crate) fn head_or_selector(key: &[u8]) -> Option<u32>
    ensures { result ≡ head_or_selector key.now }
{
    match key.len() {
        8 => selector_named(key),
        _ => head_named(key),
    }
}

/// What a key of three bytes names: CURRENT TIME SENSE, and behind a blank a selector, which may be any byte.
fn selector_named(key: &[u8]) -> Option<u32>
    ensures { result ≡ selector_named key.now }
{
    match key {
        [a, b, first, c, d, second, e, f] => {
            let head = head_named(&[*a, *b, *first, *c, *d])?;
            let selector = byte_of(*e, *f)?;
            (*second == b' ' && head == TIME_SENSE).then_some(time_sense_with(selector))
        }
        _ => None,
    }
}

/// The byte that two hexadecimal digits are.
pub(crate) fn byte_of(high: u8, low: u8) -> Option<u8>
    ensures { result ≡ byte_in (high ∷ low ∷ []) }
{
    Some(hex_digit(high)? * 16 + hex_digit(low)?)
}

/// The value of a hexadecimal digit.
pub(crate) fn hex_digit(byte: u8) -> Option<u8>
    ensures { result ≡ hex_digit_of byte }
{
    Some(char::from(byte).to_digit(16)? as u8)
}

/// Whether the head is a reply's.
pub(crate) fn is_reply(head: u32) -> bool
    ensures { result ≡ is_reply head }
{
    matches!(head / 0x10_00, 1 | 7)
}

/// Whether the head is of group 2: transport control.
pub(crate) fn is_transport(head: u32) -> bool
    ensures { result ≡ is_transport head }
{
    head / 0x10_00 == 2
}
