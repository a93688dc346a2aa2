//! Sets of modes.

use crate::knowledge::Known;
use crate::mode::Mode;
use bitflags::{Flag, Flags};

/// A set of modes, a bit for each.
#[derive(Clone, Copy, PartialEq, Eq)]
pub struct ModeSet(u16);

impl ModeSet {
    ghost use Rattle.std.specs.Prelude.{◌≡◌, ◌<◌, ◌^◌, ◌&&◌, ◌||◌, true, false};
    ghost use Rattle.std.specs.List.{list_all};
    ghost use Rattle.deck9.specs.Mode.{every_mode, is_mode, is_one_of, on_the_way};
    ghost use Rattle.deck9.specs.ModeSet.{bit_of, either, has};
    ghost use Rattle.deck9.specs.ModeCalls.{KnowsModes, both, is_some, way};
    ghost use Rattle.deck9.specs.declared.mode.Mode.{Mode as AMode};

    /// No mode.
    pub const NONE: ModeSet = ModeSet(0);
    /// Every mode.
    pub const ALL: ModeSet = ModeSet(0x3FF);

    const STOP: ModeSet = ModeSet(0x001);

    const PLAY: ModeSet = ModeSet(0x002);

    const REC: ModeSet = ModeSet(0x004);

    const FAST_FORWARD: ModeSet = ModeSet(0x008);

    const REWIND: ModeSet = ModeSet(0x010);

    const SHUTTLE: ModeSet = ModeSet(0x020);

    const JOG: ModeSet = ModeSet(0x040);

    const VAR: ModeSet = ModeSet(0x080);

    const CUED: ModeSet = ModeSet(0x100);

    const EJECT: ModeSet = ModeSet(0x200);

    /// The modes on the way to REC: STOP and PLAY.
    const BEFORE_REC: ModeSet = ModeSet(ModeSet::STOP.0 | ModeSet::PLAY.0);

    /// The modes on the way to CUED: STOP, and each in which the tape moves, but REC.
    const BEFORE_CUED: ModeSet = ModeSet(
        ModeSet::BEFORE_REC.0
            | ModeSet::FAST_FORWARD.0
            | ModeSet::REWIND.0
            | ModeSet::SHUTTLE.0
            | ModeSet::JOG.0
            | ModeSet::VAR.0,
    );

    /// The modes on the way to each goal, in the order of the modes.
    pub(crate) const WAYS: &'static [ModeSet; 10] = &[
        ModeSet::STOP,
        ModeSet::STOP,
        ModeSet::BEFORE_REC,
        ModeSet::STOP,
        ModeSet::STOP,
        ModeSet::STOP,
        ModeSet::STOP,
        ModeSet::STOP,
        ModeSet::BEFORE_CUED,
        ModeSet::STOP,
    ];

    /// The flags in the order of their bits.
    const FLAGS: &'static [Flag<ModeSet>] = &[
        Flag {
            name: "STOP",
            value: ModeSet::STOP,
        },
        Flag {
            name: "PLAY",
            value: ModeSet::PLAY,
        },
        Flag {
            name: "REC",
            value: ModeSet::REC,
        },
        Flag {
            name: "FF",
            value: ModeSet::FAST_FORWARD,
        },
        Flag {
            name: "REW",
            value: ModeSet::REWIND,
        },
        Flag {
            name: "SHUTTLE",
            value: ModeSet::SHUTTLE,
        },
        Flag {
            name: "JOG",
            value: ModeSet::JOG,
        },
        Flag {
            name: "VAR",
            value: ModeSet::VAR,
        },
        Flag {
            name: "CUED",
            value: ModeSet::CUED,
        },
        Flag {
            name: "EJECT",
            value: ModeSet::EJECT,
        },
    ];

    /// The set of one mode.
    pub fn just(mode: Mode) -> ModeSet
        ensures bits { result.0 ≡ bit_of mode }
        ensures one { (m : AMode) → has result.0 m ≡ is_mode m mode }
    {
        match mode {
            Mode::Stop => ModeSet::STOP,
            Mode::Play => ModeSet::PLAY,
            Mode::Rec => ModeSet::REC,
            Mode::FastForward => ModeSet::FAST_FORWARD,
            Mode::Rewind => ModeSet::REWIND,
            Mode::Shuttle => ModeSet::SHUTTLE,
            Mode::Jog => ModeSet::JOG,
            Mode::Var => ModeSet::VAR,
            Mode::Cued => ModeSet::CUED,
            Mode::Eject => ModeSet::EJECT,
        }
    }

    /// Whether a mode is in the set.
    pub fn has(self, mode: Mode) -> bool
        ensures { result ≡ has self.0 mode }
    {
        self.contains(ModeSet::just(mode))
    }

    /// Whether there is a mode in the set.
    pub fn is_some(self) -> bool
        ensures { result ≡ is_some self }
    {
        self.intersects(ModeSet::ALL)
    }

    /// Whether every mode is in the set.
    pub fn is_every(self) -> bool
        ensures { result ≡ list_all (has self.0) every_mode }
    {
        self.contains(ModeSet::ALL)
    }

    /// The modes of either set.
    pub fn or(self, other: ModeSet) -> ModeSet
        ensures bits { result ≡ either self other }
        ensures has { (m : AMode) → has result.0 m ≡ (has self.0 m || has other.0 m) }
    {
        self.union(other)
    }

    /// The modes of both sets.
    pub fn and(self, other: ModeSet) -> ModeSet
        ensures bits { result ≡ both self other }
        ensures has { (m : AMode) → has result.0 m ≡ (has self.0 m && has other.0 m) }
    {
        self.intersection(other)
    }

    /// These modes, with no bit above theirs.
    pub fn without_other_bits(self) -> ModeSet
        ensures has { (m : AMode) → has result.0 m ≡ has self.0 m }
        ensures ten { result.0 < 2 ^ 10 }
    {
        self.intersection(ModeSet::ALL)
    }

    /// The mode of the set, where it is the only one. There is at least one.
    pub fn known(self) -> Known<Mode>
        requires { is_some self ≡ true }
        ensures { KnowsModes self result }
    {
        let first = self.first();
        let ten = self.0 & ModeSet::ALL.0;
        let alone = ModeSet::just(first).0;
        if ten == alone {
            Known::Is(first)
        } else {
            Known::Unknown
        }
    }

    /// The first mode of the set, in the order of the modes. There is at least one.
    pub fn first(self) -> Mode
        requires { is_some self ≡ true }
        ensures { has self.0 result ≡ true }
    {
        if self.has(Mode::Stop) {
            Mode::Stop
        } else if self.has(Mode::Play) {
            Mode::Play
        } else if self.has(Mode::Rec) {
            Mode::Rec
        } else if self.has(Mode::FastForward) {
            Mode::FastForward
        } else if self.has(Mode::Rewind) {
            Mode::Rewind
        } else if self.has(Mode::Shuttle) {
            Mode::Shuttle
        } else if self.has(Mode::Jog) {
            Mode::Jog
        } else if self.has(Mode::Var) {
            Mode::Var
        } else if self.has(Mode::Cued) {
            Mode::Cued
        } else {
            Mode::Eject
        }
    }

    /// The modes that may be shown on the way to a goal.
    pub fn on_the_way(goal: Mode) -> ModeSet
        ensures bits { result ≡ way goal }
        ensures has { (m : AMode) → has result.0 m ≡ is_one_of (on_the_way goal) m }
    {
        ModeSet::WAYS[goal.index()]
    }
}

impl Flags for ModeSet {
    ghost use Rattle.std.specs.Prelude.{⊤};
    ghost use Rattle.deck9.specs.ModeSet.{flags};

    type Bits = u16;

    ghost exact = { ⊤ };

    ghost table = { flags };

    ghost set_of = { λ s. s.0 };

    fn flags<'a>() -> &'a [Flag<ModeSet>] {
        ModeSet::FLAGS
    }

    fn bits(&self) -> u16 {
        self.0
    }

    fn from_bits_retain(bits: u16) -> ModeSet {
        ModeSet(bits)
    }
}
