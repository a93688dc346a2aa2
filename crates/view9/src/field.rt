//! The fields of what is known of a deck, each by itself.

use deck9::{Hands, Knowledge, Known, KnownEntry, Mode};
use report9::{TextBuffer, put_text};
use tc25::{Rate, TimeCode};

/// A field of what is known of a deck, in the order in which reports tell them.
#[derive(Clone, Copy, PartialEq, Eq)]
pub enum Field {
    /// The commanded mode.
    Goal,
    /// The mode that the status shows.
    Shown,
    /// The register IN.
    In,
    /// The register OUT.
    Out,
    /// Whether the deck is in LOCAL.
    Local,
    /// The register audio IN.
    AudioIn,
    /// The register audio OUT.
    AudioOut,
    /// Whether the panel is on.
    Panel,
}

/// What is known of a field.
#[derive(Clone, Copy, PartialEq, Eq)]
pub enum Value {
    /// Nothing.
    Unknown,
    /// A mode.
    Mode(Mode),
    /// The register is clear.
    Clear,
    /// The register is set, and nobody knows to which time.
    Set,
    /// The register is set to this time.
    At(TimeCode),
    /// The deck is in LOCAL, or it is not.
    Local(bool),
    /// The panel is on, or it is off.
    Panel(bool),
}

/// How many fields there are.
pub const FIELDS: usize = 8;

impl Field {
    /// Every field, in their order.
    pub const ALL: [Field; FIELDS] = [
        Field::Goal,
        Field::Shown,
        Field::In,
        Field::Out,
        Field::Local,
        Field::AudioIn,
        Field::AudioOut,
        Field::Panel,
    ];

    /// The fields that are told: the panel only where hands are allowed.
    pub fn told(hands: Hands) -> &'static [Field] {
        match hands {
            Hands::None => &Field::ALL[..7],
            Hands::Allowed => &Field::ALL,
        }
    }

    /// The name that reports give.
    pub fn name(self) -> &'static str {
        match self {
            Field::Goal => "goal",
            Field::Shown => "shown",
            Field::In => "in",
            Field::Out => "out",
            Field::Local => "local",
            Field::AudioIn => "ain",
            Field::AudioOut => "aout",
            Field::Panel => "panel",
        }
    }

    /// Whether only a command, a query's answer or a hand changes it. The mechanics change what is shown at any time.
    pub fn is_kept(self) -> bool {
        matches!(
            self,
            Field::In | Field::Out | Field::Local | Field::AudioIn | Field::AudioOut
        )
    }

    /// Whether it is a mode.
    pub fn is_mode(self) -> bool {
        matches!(self, Field::Goal | Field::Shown)
    }

    /// What is known of it.
    pub fn value_in(self, known: &Knowledge) -> Value {
        match self {
            Field::Goal => mode(&known.goal),
            Field::Shown => mode(&known.shown),
            Field::In => entry(&known.ins),
            Field::Out => entry(&known.outs),
            Field::Local => match known.local {
                Known::Is(local) => Value::Local(local),
                Known::Unknown => Value::Unknown,
            },
            Field::AudioIn => entry(&known.ains),
            Field::AudioOut => entry(&known.aouts),
            Field::Panel => match known.panel {
                Known::Is(panel) => Value::Panel(panel),
                Known::Unknown => Value::Unknown,
            },
        }
    }
}

/// What is known of a mode.
fn mode(known: &Known<Mode>) -> Value {
    match known {
        Known::Is(mode) => Value::Mode(*mode),
        Known::Unknown => Value::Unknown,
    }
}

/// What is known of a register.
fn entry(known: &KnownEntry) -> Value {
    match known {
        KnownEntry::Clear => Value::Clear,
        KnownEntry::At(time) => Value::At(*time),
        KnownEntry::SetSomewhere => Value::Set,
        KnownEntry::Unknown => Value::Unknown,
    }
}

impl Value {
    /// Whether anything is known.
    pub fn is_known(self) -> bool {
        self != Value::Unknown
    }

    /// Puts the word for it, with times at this rate.
    pub fn put<B: TextBuffer>(self, line: &mut B, rate: Rate) -> Result<(), B::Refusal> {
        match self {
            Value::At(time) => line.put(&time.text_at(rate)),
            _ => put_text(line, self.word()),
        }
    }

    /// The word for it; for a time there is none.
    pub(crate) fn word(self) -> &'static str {
        match self {
            Value::Unknown => "unknown",
            Value::Mode(mode) => mode.name(),
            Value::Clear => "clear",
            Value::Set => "set",
            Value::At(_) => "",
            Value::Local(true) => "yes",
            Value::Local(false) => "no",
            Value::Panel(true) => "on",
            Value::Panel(false) => "off",
        }
    }
}
