//! The bits of a NAK and their names, by hand.

use crate::tests::same;
use bitflags::Flags;
use block9::NakBits;

#[test]
fn each_reason_has_its_bit_and_name(rt: HostRuntime) {
    for (bit, flag, name) in [
        (0x01, NakBits::UNDEFINED, "undefined"),
        (0x04, NakBits::CHECKSUM, "checksum"),
        (0x10, NakBits::PARITY, "parity"),
        (0x20, NakBits::OVERRUN, "overrun"),
        (0x40, NakBits::FRAMING, "framing"),
        (0x80, NakBits::TIMEOUT, "timeout"),
    ] {
        same(&rt, NakBits::from_bits_retain(bit), flag, name);
        same(&rt, NakBits::from_name(name), Some(flag), name);
    }
    same(&rt, NakBits::all().bits(), 0xF5, "all");
    for (bits, flag, is_set) in [
        (0x14, NakBits::PARITY, true),
        (0x0A, NakBits::OVERRUN, false),
    ] {
        let bits = NakBits::from_bits_retain(bits);
        same(&rt, bits.contains(flag), is_set, flag.bits());
    }
}
