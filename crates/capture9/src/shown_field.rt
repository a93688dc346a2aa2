//! What is shown of the field of a bad row.

ghost use Rattle.std.specs.Prelude.{◌≡◌, map, take};
ghost use Rattle.std.specs.Fmt.{WritesOnOk};
ghost use Rattle.capture9.specs.Shown.{printed, shown_of};

use std::fmt;

/// The most bytes of a field that are shown.
const MOST_SHOWN: usize = 24;

/// The first 24 bytes of a field, and whether it has more.
///
/// Its text has these bytes in double quotes, `?` for each that is not printable ASCII, and after the closing quote `...` where
/// the field has more.
#[derive(Clone, Copy, Debug, PartialEq, Eq)]
pub struct ShownField {
    bytes: [u8; 24], // filled up with zeros
    len: u8,
    is_cut: bool,
}

impl ShownField {
    /// What is shown of this field.
    pub fn of(field: &[u8]) -> ShownField
        ensures { result ≡ shown_of field.now }
    {
        let len = field.len().min(MOST_SHOWN);
        let mut bytes = [0; 24];
        bytes[..len].copy_from_slice(&field[..len]);
        ShownField {
            bytes,
            len: len as u8,
            is_cut: field.len() > MOST_SHOWN,
        }
    }

    /// The bytes that are shown.
    fn bytes(&self) -> &[u8]
        ensures { result.now ≡ take self.now.len self.now.bytes }
    {
        &self.bytes[..usize::from(self.len).min(MOST_SHOWN)]
    }
}

impl fmt::Display for ShownField {
    ghost use Rattle.std.specs.Prelude.{Some};
    ghost use Rattle.capture9.specs.Shown.{shown_text};

    ghost output = { λ field. Some (shown_text field) };

    fn fmt<W: fmt::Write>(&self, f: &mut fmt::Formatter<W>) -> fmt::Result {
        f.write_str("\"")?;
        write_printed(self.bytes(), f)?;
        f.write_str(if self.is_cut { "\"..." } else { "\"" })
    }
}

/// Writes each byte as it is printed.
fn write_printed<W: fmt::Write>(bytes: &[u8], f: &mut fmt::Formatter<W>) -> fmt::Result
    ensures { WritesOnOk W.write_str_gives f.old result (map printed bytes.now) f.new }
{
    for byte in bytes {
        f.write_char(printed(*byte))?;
    }
    Ok(())
}

/// A byte as it is printed: itself where it is printable ASCII, and else a question mark.
fn printed(byte: u8) -> char
    ensures { result ≡ printed byte }
{
    match byte {
        b' '..=b'~' => char::from(byte),
        _ => '?',
    }
}
