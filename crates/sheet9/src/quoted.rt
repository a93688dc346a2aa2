//! A key of a sheet, as a message shows it.
//!
//! A TOML key may hold any character, and some of them would break the line or drive the terminal. So all but printable ASCII is
//! escaped.
ghost use Rattle.std.specs.Prelude.{flat_map};
ghost use Rattle.std.specs.Fmt.{WritesOnOk};
ghost use Rattle.sheet9.specs.Text.{escaped};

use std::fmt;

/// A text that its `Display` puts in quotes, with its bytes as `escape_ascii` has them.
#[derive(Clone, Copy)]
pub(crate) struct Quoted<'a>(pub(crate) &'a str);

impl fmt::Display for Quoted<'_> {
    ghost use Rattle.std.specs.Prelude.{Some};
    ghost use Rattle.sheet9.specs.Text.{quoted};

    ghost output = { λ text. Some (quoted text.0.now) };

    fn fmt<W: fmt::Write>(&self, f: &mut fmt::Formatter<W>) -> fmt::Result {
        f.write_str("\"")?;
        write_escaped(self.0.as_bytes(), f)?;
        f.write_str("\"")
    }
}

/// Writes each byte escaped.
fn write_escaped<W: fmt::Write>(bytes: &[u8], f: &mut fmt::Formatter<W>) -> fmt::Result
    ensures { WritesOnOk W.write_str_gives f.old result (flat_map escaped bytes.now) f.new }
{
    for byte in bytes {
        write_byte(*byte, f)?;
    }
    Ok(())
}

/// Writes a byte escaped.
fn write_byte<W: fmt::Write>(byte: u8, f: &mut fmt::Formatter<W>) -> fmt::Result
    ensures { WritesOnOk W.write_str_gives f.old result (escaped byte) f.new }
{
    let mut rest = byte.escape_ascii();
    while let Some(escaped) = rest.next() {
        f.write_char(char::from(escaped))?;
    }
    Ok(())
}
