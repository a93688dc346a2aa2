//! The reasons that a NAK gives.

use crate::block::Block;
use bitflags::{Flag, Flags};

/// Why the deck refused a command: the byte of a NAK, with a bit for each reason.
///
/// The names of the bits are a choice of these rules; bits 1 and 3 have none.
#[derive(Clone, Copy, PartialEq, Eq)]
pub struct NakBits(u8);

impl NakBits {
    ghost use Rattle.std.specs.Prelude.{◌≡◌, if◌then◌else◌, Some, None};
    ghost use Rattle.block9.specs.Block.{first_datum};
    ghost use Rattle.block9.specs.Command.{is_nak};

    /// Bit 0: the command is not defined.
    pub const UNDEFINED: NakBits = NakBits(0x01);
    /// Bit 2: the command's sum was wrong.
    pub const CHECKSUM: NakBits = NakBits(0x04);
    /// Bit 4: a byte came with a wrong parity.
    pub const PARITY: NakBits = NakBits(0x10);
    /// Bit 5: a byte came before the one before it was read.
    pub const OVERRUN: NakBits = NakBits(0x20);
    /// Bit 6: a byte came without its stop bit.
    pub const FRAMING: NakBits = NakBits(0x40);
    /// Bit 7: the rest of the command did not come in time.
    pub const TIMEOUT: NakBits = NakBits(0x80);

    /// The flags in the order of their bits.
    const FLAGS: &'static [Flag<NakBits>] = &[
        Flag {
            name: "undefined",
            value: NakBits::UNDEFINED,
        },
        Flag {
            name: "checksum",
            value: NakBits::CHECKSUM,
        },
        Flag {
            name: "parity",
            value: NakBits::PARITY,
        },
        Flag {
            name: "overrun",
            value: NakBits::OVERRUN,
        },
        Flag {
            name: "framing",
            value: NakBits::FRAMING,
        },
        Flag {
            name: "timeout",
            value: NakBits::TIMEOUT,
        },
    ];

    /// The reasons that a reply gives: `None` exactly where it is no NAK.
    pub fn of(reply: &Block) -> Option<NakBits>
        ensures { result ≡ (if is_nak reply.now then Some (record { 0 = first_datum reply.now }) else None) }
    {
        reply.is_nak().then(|| NakBits(reply.first_datum()))
    }
}

impl Flags for NakBits {
    ghost use Rattle.std.specs.Prelude.{⊤};
    ghost use Rattle.block9.specs.Nak.{nak_bits};

    type Bits = u8;

    ghost exact = { ⊤ };

    ghost table = { nak_bits };

    ghost set_of = { λ b. b.0 };

    fn flags<'a>() -> &'a [Flag<NakBits>] {
        NakBits::FLAGS
    }

    fn bits(&self) -> u8 {
        self.0
    }

    fn from_bits_retain(bits: u8) -> NakBits {
        NakBits(bits)
    }
}
