//! What the program says where it is asked for its version.
ghost use Rattle.program9.specs.Version.{TellsVersion};

use crate::ending::{Message, Outcome};
use report9::write_all;
use std::io::Write;
use words9::VERSION_LINE;

/// Writes the program's name and version: the end, and the writer as it is left. Takes no memory.
pub(crate) fn tell_version<W: Write + Drop>(out: W) -> (Outcome, W)
    ensures { TellsVersion (W.contents out) result.0 (W.contents result.1) }
{
    let mut writer = out;
    let Ok(()) = write_all(&mut writer, VERSION_LINE.as_bytes()) else {
        return (Outcome::new(4, Message::WriteFault), writer);
    };
    match writer.flush() {
        Ok(()) => (Outcome::new(0, Message::Nothing), writer),
        Err(_) => (Outcome::new(4, Message::WriteFault), writer),
    }
}
