//! How the lines of a report are written.
ghost use Rattle.std.specs.Prelude.{◌≡◌, ◌≤◌, length, take, OnOk, OnErr};
ghost use Rattle.std.specs.Io.KnownBytes.{Appends};
ghost use Rattle.report9.specs.Writing.{AppendsPart};

use arrayvec::CapacityError;
use std::io::{self, Write};

/// The writer failed, was interrupted, or took no byte.
#[derive(Clone, Copy, PartialEq, Eq)]
pub struct WriteFault;

/// A line that its buffer has no room for can't be written.
impl From<CapacityError> for WriteFault {
    fn from(_: CapacityError) -> WriteFault {
        WriteFault
    }
}

/// Writes all the bytes, and goes on after a call that takes some of them. A call that fails, is interrupted or
/// takes none is a fault, and is not tried again; what was taken until then is a first part of the bytes.
pub fn write_all<W: Write>(writer: &mut W, bytes: &[u8]) -> Result<(), WriteFault>
    ensures ok { OnOk result (Appends (W.contents writer.old) (W.contents writer.new) bytes.now) }
    ensures err { OnErr result (AppendsPart (W.contents writer.old) (W.contents writer.new) bytes.now) }
{
    match write_some(writer, bytes) {
        (_, Ok(())) => Ok(()),
        (_, Err(_)) => Err(WriteFault),
    }
}

/// Writes until all bytes are taken, or a call fails, is interrupted or takes none: how many were taken, and whether
/// all were. No call is tried again.
pub fn write_some<W: Write>(writer: &mut W, bytes: &[u8]) -> (usize, io::Result<()>)
    ensures bound { result.0 ≤ length bytes.now }
    ensures all { OnOk result.1 (result.0 ≡ length bytes.now) }
    ensures bytes { Appends (W.contents writer.old) (W.contents writer.new) (take result.0 bytes.now) }
{
    let mut at = 0;
    while at < bytes.len() {
        match writer.write(&bytes[at..]) {
            Ok(0) => return (at, Err(io::Error::from(io::ErrorKind::WriteZero))),
            Ok(n) => at += n,
            Err(e) => return (at, Err(e)),
        }
    }
    (at, Ok(()))
}
