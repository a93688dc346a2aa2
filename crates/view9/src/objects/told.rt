//! What a member of an object tells, as JSON has it.
ghost use Rattle.std.specs.Prelude.{OnOk};
ghost use Rattle.view9.specs.Working.{AppendsItems, AppendsMembers, AppendsValue};

use crate::field::{Field, Value};
use bitflags::Flags;
use block9::NakBits;
use deck9::{Knowledge, Mode, ModeSet, Status};
use json::Writer;
use std::alloc::AllocError;
use tc25::Rate;

/// What a member of an object tells.
#[derive(Drop)]
pub(super) enum Told<'a> {
    /// A number.
    Count(u64),
    /// A word.
    Word(&'a str),
    /// A text.
    Text(Vec<u8>),
    /// A time.
    Time([u8; 11]),
    /// The names of modes, as a list.
    Modes(ModeSet),
    /// The names of fields, as a list.
    Fields(&'a [Field]),
    /// The names of the bits of a NAK that are set, as a list.
    Bits(NakBits),
    /// What a reply says of the deck by itself, as an object: nothing, where it carries no status data.
    Says(Option<Status>),
}

impl<'a> Told<'a> {
    /// What is known of a field, with a time at this rate.
    pub(super) fn of(field: Field, known: &Knowledge, rate: Rate) -> Told<'a> {
        match field.value_in(known) {
            Value::At(time) => Told::Time(time.text_at(rate)),
            value => Told::Word(value.word()),
        }
    }
}

impl Told<'_> {
    /// Writes it, as one value.
    pub(super) fn write(&self, out: &mut Writer) -> Result<(), AllocError>
        ensures { OnOk result (AppendsValue 2 out.old out.new) }
    {
        match self {
            Told::Count(count) => write_count(out, *count),
            Told::Word(word) => write_text(out, word),
            Told::Text(text) => write_text(out, text_in(text.as_slice())),
            Told::Time(time) => write_text(out, text_in(time)),
            Told::Modes(modes) => write_modes(out, *modes),
            Told::Fields(fields) => write_fields(out, fields),
            Told::Bits(nak) => write_bits(out, *nak),
            Told::Says(status) => write_says(out, status),
        }
    }
}

/// The text that these bytes are. What commands are called is text, and so are times.
pub(super) fn text_in(bytes: &[u8]) -> &str {
    std::str::from_utf8(bytes).unwrap_or("")
}

/// Writes a number.
fn write_count(out: &mut Writer, count: u64) -> Result<(), AllocError>
    ensures { OnOk result (AppendsValue 2 out.old out.new) }
{
    out.u64(count)
}

/// Writes a text.
fn write_text(out: &mut Writer, text: &str) -> Result<(), AllocError>
    ensures { OnOk result (AppendsValue 2 out.old out.new) }
{
    out.string(text)
}

/// Writes the names of modes, as a list.
fn write_modes(out: &mut Writer, modes: ModeSet) -> Result<(), AllocError>
    ensures { OnOk result (AppendsValue 1 out.old out.new) }
{
    out.begin_array()?;
    write_mode_names(out, modes)?;
    out.end_array()
}

/// Writes the name of each of these modes.
fn write_mode_names(out: &mut Writer, modes: ModeSet) -> Result<(), AllocError>
    ensures { OnOk result (AppendsItems 0 out.old out.new) }
{
    for mode in &Mode::ALL {
        write_item(out, modes.has(*mode).then_some(mode.name()))?;
    }
    Ok(())
}

/// Writes the names of fields, as a list.
fn write_fields(out: &mut Writer, fields: &[Field]) -> Result<(), AllocError>
    ensures { OnOk result (AppendsValue 1 out.old out.new) }
{
    out.begin_array()?;
    write_field_names(out, fields)?;
    out.end_array()
}

/// Writes the name of each of these fields.
fn write_field_names(out: &mut Writer, fields: &[Field]) -> Result<(), AllocError>
    ensures { OnOk result (AppendsItems 0 out.old out.new) }
{
    for field in fields {
        write_item(out, Some(field.name()))?;
    }
    Ok(())
}

/// Writes the names of the bits that are set, as a list.
fn write_bits(out: &mut Writer, nak: NakBits) -> Result<(), AllocError>
    ensures { OnOk result (AppendsValue 1 out.old out.new) }
{
    out.begin_array()?;
    write_bit_names(out, nak)?;
    out.end_array()
}

/// Writes the name of each bit that is set.
fn write_bit_names(out: &mut Writer, nak: NakBits) -> Result<(), AllocError>
    ensures { OnOk result (AppendsItems 0 out.old out.new) }
{
    for flag in NakBits::flags() {
        write_item(out, nak.contains(flag.value).then_some(flag.name))?;
    }
    Ok(())
}

/// Writes an item of a list, where there is one.
fn write_item(out: &mut Writer, name: Option<&str>) -> Result<(), AllocError>
    ensures { OnOk result (AppendsItems 0 out.old out.new) }
{
    let Some(name) = name else {
        return Ok(());
    };
    out.string(name)
}

/// Writes what status data say, as an object; an empty one where there are none.
fn write_says(out: &mut Writer, status: &Option<Status>) -> Result<(), AllocError>
    ensures { OnOk result (AppendsValue 2 out.old out.new) }
{
    out.begin_object()?;
    write_status(out, status)?;
    out.end_object()
}

/// Writes what status data say, member by member.
fn write_status(out: &mut Writer, status: &Option<Status>) -> Result<(), AllocError>
    ensures { OnOk result (AppendsMembers 1 out.old out.new) }
{
    let Some(status) = status else {
        return Ok(());
    };
    write_word(out, "local", status.local, ["yes", "no"])?;
    write_shown(out, status.shown)?;
    let set = status.registers;
    write_word(out, "in", set.map(|set| set.ins), ["set", "clear"])?;
    write_word(out, "out", set.map(|set| set.outs), ["set", "clear"])?;
    write_word(out, "ain", set.map(|set| set.ains), ["set", "clear"])?;
    write_word(out, "aout", set.map(|set| set.aouts), ["set", "clear"])
}

/// Writes a member for the modes that are shown, where they are.
fn write_shown(out: &mut Writer, shown: Option<ModeSet>) -> Result<(), AllocError>
    ensures { OnOk result (AppendsMembers 1 out.old out.new) }
{
    let Some(modes) = shown else {
        return Ok(());
    };
    out.key("modes")?;
    write_modes(out, modes)
}

/// Writes a member for what is so or is not, where that is said.
fn write_word(
    out: &mut Writer,
    name: &str,
    said: Option<bool>,
    words: [&str; 2],
) -> Result<(), AllocError>
    ensures { OnOk result (AppendsMembers 1 out.old out.new) }
{
    let Some(is_so) = said else {
        return Ok(());
    };
    out.key(name)?;
    out.string(if is_so { words[0] } else { words[1] })
}
