//! What is known of a deck, in the words of a report: a field of which nothing is known is left out.

use deck9::{Knowledge, Known, KnownEntry, Mode};
use std::alloc::AllocError;

/// The name of a switch, if it is known.
fn name_of(known: Known<bool>, on: &'static str, off: &'static str) -> &'static str {
    match known {
        Known::Is(true) => on,
        Known::Is(false) => off,
        Known::Unknown => "",
    }
}

/// Adds a field, if something is known of it.
fn tell(text: &mut String, field: &str, known: &str) -> Result<(), AllocError> {
    if known.is_empty() {
        return Ok(());
    }
    if !text.is_empty() {
        text.push_str(", ")?;
    }
    text.push_str(field)?;
    text.push_str(" ")?;
    text.push_str(known)
}

fn tell_mode(text: &mut String, field: &str, known: &Known<Mode>) -> Result<(), AllocError> {
    match known {
        Known::Is(mode) => tell(text, field, mode.name()),
        Known::Unknown => Ok(()),
    }
}

fn tell_entry(text: &mut String, field: &str, known: &KnownEntry) -> Result<(), AllocError> {
    match known {
        KnownEntry::Clear => tell(text, field, "clear"),
        KnownEntry::At(time) => {
            let digits = time.text();
            tell(text, field, str::from_utf8(&digits).unwrap_or("no text"))
        }
        KnownEntry::SetSomewhere => tell(text, field, "set"),
        KnownEntry::Unknown => Ok(()),
    }
}

/// What is known, field by field.
pub(super) fn tell_all(text: &mut String, knowledge: &Knowledge) -> Result<(), AllocError> {
    text.clear();
    tell_mode(text, "goal", &knowledge.goal)?;
    tell_mode(text, "shown", &knowledge.shown)?;
    tell_entry(text, "in", &knowledge.ins)?;
    tell_entry(text, "out", &knowledge.outs)?;
    tell(text, "local", name_of(knowledge.local, "yes", "no"))?;
    tell_entry(text, "ain", &knowledge.ains)?;
    tell_entry(text, "aout", &knowledge.aouts)?;
    tell(text, "panel", name_of(knowledge.panel, "on", "off"))
}
