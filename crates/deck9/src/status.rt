//! What a reply to STATUS SENSE reports.
ghost use Rattle.std.specs.Prelude.{◌≡◌, if◌then◌else◌};
ghost use Rattle.std.specs.List.{filter};
ghost use Rattle.deck9.specs.Mode.{every_mode};
ghost use Rattle.deck9.specs.ModeSet.{bit_of, either, modes, of_modes};
ghost use Rattle.deck9.specs.Status.{datum, has_bit, has_bits, may_show, set_by, shown_by};

use crate::mode::Mode;
use crate::mode_set::ModeSet;
use block9::Block;

/// What a reply to STATUS SENSE reports of a deck, each part only where the reply carries its data.
#[derive(Clone, Copy, PartialEq, Eq)]
pub struct Status {
    /// Whether the deck is in LOCAL, by datum 0.
    pub local: Option<bool>,
    /// The modes that data 1 and 2 allow; one that the reply does not carry allows every mode.
    pub shown: Option<ModeSet>,
    /// Which registers are Set, by datum 3.
    pub registers: Option<RegistersSet>,
}

/// Which registers are Set.
#[derive(Clone, Copy, PartialEq, Eq)]
pub struct RegistersSet {
    /// Whether the register IN is.
    pub ins: bool,
    /// Whether the register OUT is.
    pub outs: bool,
    /// Whether the register audio IN is.
    pub ains: bool,
    /// Whether the register audio OUT is.
    pub aouts: bool,
}

impl Status {
    ghost use Rattle.std.specs.Prelude.{◌≡◌};
    ghost use Rattle.deck9.specs.Status.{status_of};

    /// What a reply that is no NAK reports. `asked` is the request's data byte: the number of the first status datum is in
    /// its high four bits.
    pub fn of(asked: u8, reply: &Block) -> Status
        ensures { result ≡ status_of asked reply.now }
    {
        Status {
            local: datum(asked, reply, 0).map(|byte| has_bit(0x01, byte)),
            shown: shown_by(datum(asked, reply, 1), datum(asked, reply, 2)),
            registers: datum(asked, reply, 3).map(set_by),
        }
    }
}

/// The status datum with this number, if the reply carries it.
fn datum(asked: u8, reply: &Block, number: u8) -> Option<u8>
    ensures { result ≡ datum asked reply.now number }
{
    let place = number.checked_sub(asked / 16)?;
    reply.bytes.as_slice().get(usize::from(place)).copied()
}

/// Which registers datum 3 says to be Set.
fn set_by(byte: u8) -> RegistersSet
    ensures { result ≡ set_by byte }
{
    RegistersSet {
        ins: has_bit(0x01, byte),
        outs: has_bit(0x02, byte),
        ains: has_bit(0x04, byte),
        aouts: has_bit(0x08, byte),
    }
}

/// The modes that data 1 and 2 allow, if the reply carries one of them.
fn shown_by(datum1: Option<u8>, datum2: Option<u8>) -> Option<ModeSet>
    ensures { result ≡ shown_by datum1 datum2 }
{
    if datum1.is_none() && datum2.is_none() {
        return None;
    }
    Some(modes_allowed(datum1, datum2))
}

/// The modes that data 1 and 2 allow, put together from the last to the first.
fn modes_allowed(datum1: Option<u8>, datum2: Option<u8>) -> ModeSet
    ensures { result ≡ of_modes (filter (may_show datum1 datum2) every_mode) }
{
    let allowed = with_allowed(ModeSet::NONE, Mode::Eject, datum1, datum2);
    let allowed = with_allowed(allowed, Mode::Cued, datum1, datum2);
    let allowed = with_allowed(allowed, Mode::Var, datum1, datum2);
    let allowed = with_allowed(allowed, Mode::Jog, datum1, datum2);
    let allowed = with_allowed(allowed, Mode::Shuttle, datum1, datum2);
    let allowed = with_allowed(allowed, Mode::Rewind, datum1, datum2);
    let allowed = with_allowed(allowed, Mode::FastForward, datum1, datum2);
    let allowed = with_allowed(allowed, Mode::Rec, datum1, datum2);
    let allowed = with_allowed(allowed, Mode::Play, datum1, datum2);
    with_allowed(allowed, Mode::Stop, datum1, datum2)
}

/// These modes, and one more where the data allow it.
fn with_allowed(allowed: ModeSet, mode: Mode, datum1: Option<u8>, datum2: Option<u8>) -> ModeSet
    ensures { result ≡ (if may_show datum1 datum2 mode then either (modes (bit_of mode)) allowed else allowed) }
{
    if fits(mode, datum1, datum2) {
        ModeSet::just(mode).or(allowed)
    } else {
        allowed
    }
}

/// Whether status data 1 and 2 may come where a mode is shown; one that the reply does not carry fits every mode.
fn fits(mode: Mode, datum1: Option<u8>, datum2: Option<u8>) -> bool
    ensures { result ≡ may_show datum1 datum2 mode }
{
    let (fits1, fits2) = match mode {
        Mode::Stop => (has_bits(0x20, 0x1F, datum1), has_bits(0x00, 0x38, datum2)),
        Mode::Play => (has_bits(0x01, 0x3E, datum1), has_bits(0x00, 0x38, datum2)),
        Mode::Rec => (has_bits(0x02, 0x3C, datum1), has_bits(0x00, 0x38, datum2)),
        Mode::FastForward => (has_bits(0x04, 0x3B, datum1), has_bits(0x00, 0x18, datum2)),
        Mode::Rewind => (has_bits(0x08, 0x37, datum1), has_bits(0x00, 0x18, datum2)),
        Mode::Shuttle => (has_bits(0x00, 0x12, datum1), has_bits(0x20, 0x18, datum2)),
        Mode::Jog => (has_bits(0x00, 0x12, datum1), has_bits(0x10, 0x28, datum2)),
        Mode::Var => (has_bits(0x00, 0x12, datum1), has_bits(0x08, 0x30, datum2)),
        Mode::Cued => (has_bits(0x00, 0x1F, datum1), has_bits(0x01, 0x38, datum2)),
        // with a cassette on its way out, and without one
        Mode::Eject => (
            has_bits(0x10, 0x0F, datum1) || has_bits(0x00, 0x3F, datum1),
            has_bits(0x00, 0x38, datum2),
        ),
    };
    fits1 && fits2
}

/// Whether a bit of a byte is 1.
fn has_bit(bit: u8, byte: u8) -> bool
    ensures { result ≡ has_bit bit byte }
{
    byte & bit == bit
}

/// Whether a datum has these bits set and those clear; one that the reply does not carry fits.
fn has_bits(set: u8, clear: u8, datum: Option<u8>) -> bool
    ensures { result ≡ has_bits set clear datum }
{
    match datum {
        None => true,
        Some(byte) => byte & set == set && byte & clear == 0,
    }
}
