//! A maker that makes nothing, and tells what it was asked for.

use program9::{Buffered, Job, Keeping, Maker, Message, Named, Outcome, Told};
use std::alloc::Global;
use std::io::{Read, Write};
use words9::Made;

/// Makes nothing. Its end has a status that no other has.
pub(super) struct Idle;

/// The status of what it was asked for: of a digest, of what the capture says of itself, and of all else.
pub(super) fn status_of(made: Made) -> u8 {
    match made {
        Made::Digest(_) => 101,
        Made::Info => 102,
        _ => 103,
    }
}

impl Maker for Idle {
    ghost use Rattle.std.specs.Prelude.{⊤};

    ghost makes = { λ made job capture old end now. ⊤ };

    fn make<R: Read + Drop, W: Write + Drop>(
        &self,
        _alloc: Global,
        _reader: R,
        _out: &mut Buffered<W>,
        made: Made,
        _job: Job,
        _named: &Named,
    ) -> Outcome {
        Outcome::new(status_of(made), Message::Nothing)
    }

    fn ask_next<R: Read + Drop>(
        &self,
        _alloc: Global,
        _kept: Keeping<R>,
        _told: Told<'_>,
    ) -> Message {
        Message::Nothing
    }
}
