//! What is known of the deck, put to the end of a line.
ghost use Rattle.std.specs.Prelude.{◌≡◌, ◌++◌, OnOk, codes};
ghost use Rattle.report9.specs.Explanation.{text_of_fields, text_of_knowledge, text_of_local, text_of_mode, text_of_panel, text_of_register, word_of};

use crate::buffer::TextBuffer;
use crate::pieces::{put_text, put_word};
use deck9::{Hands, Knowledge, Known, KnownEntry, Mode, Profile};
use tc25::Rate;

/// The word for a field on which two possible states differ.
const UNKNOWN: &str = "unknown";

/// Puts a label and what is known, field by field; of the panel only where hands are allowed.
pub fn put_knowledge<B: TextBuffer>(
    line: &mut B,
    label: &str,
    profile: &Profile,
    knowledge: &Knowledge,
) -> Result<(), B::Refusal>
    ensures { OnOk result (B.held line.new ≡ B.held line.old ++ (label.now ++ text_of_knowledge profile.now knowledge.now)) }
{
    put_text(line, label)?;
    put_columns(line, profile, knowledge)
}

/// Puts what is known, field by field.
fn put_columns<B: TextBuffer>(
    line: &mut B,
    profile: &Profile,
    knowledge: &Knowledge,
) -> Result<(), B::Refusal>
    ensures { OnOk result (B.held line.new ≡ B.held line.old ++ text_of_knowledge profile.now knowledge.now) }
{
    put_word(line, "goal ", mode_word(&knowledge.goal))?;
    put_word(line, ", shown ", mode_word(&knowledge.shown))?;
    put_fields_for(line, profile, knowledge)
}

/// Puts what is known of the registers, of local and, where hands are allowed, of the panel. An error comes where the buffer has
/// no room and gets none; then a part of it may be there.
pub fn put_fields_for<B: TextBuffer>(
    line: &mut B,
    profile: &Profile,
    knowledge: &Knowledge,
) -> Result<(), B::Refusal>
    ensures { OnOk result (B.held line.new ≡ B.held line.old ++ text_of_fields profile.now knowledge.now) }
{
    put_register(line, ", in ", profile.rate, &knowledge.ins)?;
    put_register(line, ", out ", profile.rate, &knowledge.outs)?;
    put_word(line, ", local ", local_word(&knowledge.local))?;
    put_register(line, ", ain ", profile.rate, &knowledge.ains)?;
    put_register(line, ", aout ", profile.rate, &knowledge.aouts)?;
    put_panel(line, profile.hands, &knowledge.panel)
}

/// Puts a label and a register.
#[inline(always)] // so that the lengths of its words are known where they are put
fn put_register<B: TextBuffer>(
    line: &mut B,
    label: &str,
    rate: Rate,
    register: &KnownEntry,
) -> Result<(), B::Refusal>
    ensures { OnOk result (B.held line.new ≡ B.held line.old ++ (label.now ++ text_of_register rate register.now)) }
{
    put_text(line, label)?;
    put_entry(line, rate, register)
}

/// Puts what is known of a register.
#[inline(always)] // the same
#[tactic(auto, unfolding(crate::specs::Explanation::text_of_register))]
fn put_entry<B: TextBuffer>(
    line: &mut B,
    rate: Rate,
    register: &KnownEntry,
) -> Result<(), B::Refusal>
    ensures { OnOk result (B.held line.new ≡ B.held line.old ++ text_of_register rate register.now) }
{
    match register {
        KnownEntry::Clear => put_text(line, "clear"),
        KnownEntry::At(time) => line.put(&time.text_at(rate)),
        KnownEntry::SetSomewhere => put_text(line, "set"),
        KnownEntry::Unknown => put_text(line, UNKNOWN),
    }
}

/// Puts what is known of the panel, where it is told.
#[tactic(auto, unfolding(crate::specs::Explanation::text_of_panel))]
fn put_panel<B: TextBuffer>(
    line: &mut B,
    hands: Hands,
    panel: &Known<bool>,
) -> Result<(), B::Refusal>
    ensures { OnOk result (B.held line.new ≡ B.held line.old ++ text_of_panel hands panel.now) }
{
    match hands {
        Hands::None => Ok(()),
        Hands::Allowed => put_word(line, ", panel ", panel_word(panel)),
    }
}

/// The name of a mode, where it is known.
#[tactic(auto, unfolding(crate::specs::Explanation::text_of_mode))]
fn mode_word<'a>(mode: &Known<Mode>) -> &'a str
    ensures { result.now ≡ text_of_mode mode.now }
{
    match mode {
        Known::Is(mode) => mode.name(),
        Known::Unknown => UNKNOWN,
    }
}

/// Whether the deck is in LOCAL, where it is known.
#[tactic(auto, unfolding(crate::specs::Explanation::text_of_local))]
fn local_word<'a>(local: &Known<bool>) -> &'a str
    ensures { result.now ≡ text_of_local local.now }
{
    match local {
        Known::Is(true) => "yes",
        Known::Is(false) => "no",
        Known::Unknown => UNKNOWN,
    }
}

/// Whether the panel is on, where it is known.
fn panel_word<'a>(panel: &Known<bool>) -> &'a str
    ensures { result.now ≡ word_of (codes "on") (codes "off") panel.now }
{
    match panel {
        Known::Is(true) => "on",
        Known::Is(false) => "off",
        Known::Unknown => UNKNOWN,
    }
}
