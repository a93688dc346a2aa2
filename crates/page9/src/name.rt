//! The names of files on the page, which may hold any bytes. HTML holds no control characters.

use report9::{TextBuffer, put_text};
use text9::{Done, Markup};

/// Puts a name as a reader sees it: each byte of a control character as a backslash with three octal digits.
pub(crate) fn put_name(html: &mut Markup, name: &[u8]) {
    html.put_with(|text| put_visible(text, name));
}

/// Puts a name without control characters.
fn put_visible(text: &mut Vec<u8>, name: &[u8]) -> Done {
    for (at, byte) in name.iter().enumerate() {
        if is_control(name, at) {
            put_octal(text, *byte)?;
        } else {
            text.put(&[*byte])?;
        }
    }
    Ok(())
}

/// Puts a name as a shell takes it: in quotes where it would take a part of it otherwise. Where the name has control characters these are
/// the quotes in which bash, ksh and zsh take them as digits.
pub(crate) fn put_word(words: &mut Vec<u8>, name: &[u8]) -> Done {
    if !name.is_empty() && name.iter().all(|byte| is_plain(*byte)) {
        return words.put(name);
    }
    if has_control(name) {
        return put_in_digits(words, name);
    }
    put_text(words, "'")?;
    for byte in name {
        match byte {
            b'\'' => put_text(words, "'\\''")?,
            byte => words.put(&[*byte])?,
        }
    }
    put_text(words, "'")
}

/// Puts a name in the quotes in which control characters are digits.
fn put_in_digits(words: &mut Vec<u8>, name: &[u8]) -> Done {
    put_text(words, "$'")?;
    for (at, byte) in name.iter().enumerate() {
        match byte {
            b'\'' => put_text(words, "\\'")?,
            b'\\' => put_text(words, "\\\\")?,
            byte if is_control(name, at) => put_octal(words, *byte)?,
            byte => words.put(&[*byte])?,
        }
    }
    put_text(words, "'")
}

/// Whether a shell takes a byte of a word as it stands.
fn is_plain(byte: u8) -> bool {
    byte.is_ascii_alphanumeric() || b"_.,/+:=@%-".contains(&byte)
}

/// Whether a name has a control character.
fn has_control(name: &[u8]) -> bool {
    let mut has = false;
    for at in 0..name.len() {
        has = has || is_control(name, at);
    }
    has
}

/// Whether the byte at this place is one of a control character: below a blank, a delete, or one of the two bytes that UTF-8 has for
/// U+0080 to U+009F.
fn is_control(name: &[u8], at: usize) -> bool {
    match name.get(at..).unwrap_or(&[]) {
        [0x00..=0x1F | 0x7F, ..] => true,
        [0xC2, 0x80..=0x9F, ..] => true,
        [0x80..=0x9F, ..] => name.get(at.wrapping_sub(1)).copied() == Some(0xC2),
        _ => false,
    }
}

/// Puts a byte as a backslash with three octal digits.
fn put_octal(text: &mut Vec<u8>, byte: u8) -> Done {
    text.put(&[
        b'\\',
        b'0' + byte / 64,
        b'0' + byte / 8 % 8,
        b'0' + byte % 8,
    ])
}
