//! A capture that is made of an export, and one that is cut into parts.
ghost use Rattle.std.specs.Prelude.{◌≡◌};
ghost use Rattle.maker9.specs.Making.{EndsConverted, EndsSplit};

use crate::part_files::PartFiles;
use crate::status::{outcome_converted, outcome_of_split, outcome_told};
use convert9::{
    ConvertFault, LogWords, Notice, Refusal, SaleaeWords, SigrokWords, Split, SplitFault,
    SplitWords, Wrong, convert_log, convert_saleae, convert_sigrok, part_name, split_capture,
};
use program9::{
    Again, BadRow, Buffered, FileRow, Followed, Message, Named, Outcome, ended, read_whole,
};
use report9::{JudgeError, write_all};
use std::alloc::{AllocError, Global};
use std::io::{self, Read, Write};
use words9::Export;

/// Makes a capture of the export that the reader gives, behind which the deck's file follows, where there is one: how that ends.
#[inline(never)] // else the loops over records of the reports are compiled with it in one function, and worse
pub(crate) fn convert<R: Read + Drop, W: Write + Drop>(
    alloc: Global,
    reader: R,
    out: &mut Buffered<W>,
    export: Export,
    named: &Named,
) -> Outcome
    ensures { EndsConverted export result }
{
    match &named.deck_text {
        Some(text) => convert_both(alloc, reader, text.as_slice(), out, export, named),
        None => {
            let told = convert_export(alloc, Again::Opened(reader), out, export, named);
            outcome_converted(export, file_of(alloc, named), told)
        }
    }
}

/// The same where the deck's file has this text. The other is kept, so that it is known in which of the two a line stands.
fn convert_both<R: Read + Drop, W: Write + Drop>(
    alloc: Global,
    reader: R,
    deck_text: &[u8],
    out: &mut Buffered<W>,
    export: Export,
    named: &Named,
) -> Outcome
    ensures { EndsConverted export result }
{
    let first = match read_whole(alloc, reader) {
        Ok(first) => first,
        Err(e) => return outcome_converted(export, None, Err(fault_of(&e))),
    };
    let both = Followed::new(first.as_slice(), deck_text);
    match convert_export(alloc, Again::Followed(both), out, export, named) {
        Err(ConvertFault::Refused(refusal)) => {
            let lines = lines_in(first.as_slice());
            let (file, refusal) = placed(alloc, named, lines, refusal);
            outcome_converted(export, file, Err(ConvertFault::Refused(refusal)))
        }
        told => outcome_converted(export, None, told),
    }
}

/// What is wrong where an export could not be read.
fn fault_of(e: &io::Error) -> ConvertFault {
    match e.kind() {
        io::ErrorKind::OutOfMemory => ConvertFault::OutOfMemory,
        _ => ConvertFault::Read,
    }
}

/// How many lines a text has, one that has not ended among them.
fn lines_in(text: &[u8]) -> u64 {
    let ended = text.iter().filter(|byte| **byte == b'\n').count() as u64;
    let is_inside_line = text.last().is_some_and(|last| *last != b'\n');
    ended.saturating_add(u64::from(is_inside_line))
}

/// The file that a line stands in, where two were read of which the first has so many lines, and what was refused, with its line in that
/// file.
fn placed(
    alloc: Global,
    named: &Named,
    first_lines: u64,
    refusal: Refusal,
) -> (Option<String>, Refusal) {
    if refusal.line <= first_lines {
        return (file_of(alloc, named), refusal);
    }
    let Refusal { line, wrong, text } = refusal;
    let refusal = Refusal {
        line: line.saturating_sub(first_lines),
        wrong,
        text,
    };
    (String::from_str(alloc, "the deck's file").ok(), refusal)
}

/// The file that the words name first. Where memory is refused for its name, it is not told.
fn file_of(alloc: Global, named: &Named) -> Option<String> {
    match &named.file {
        Some(file) => String::from_str(alloc, file.as_str()).ok(),
        None => None,
    }
}

/// Makes a capture of the export that the reader gives, and answers what there is to say of it.
fn convert_export<R: Read + Drop, W: Write + Drop>(
    alloc: Global,
    reader: R,
    out: &mut Buffered<W>,
    export: Export,
    named: &Named,
) -> Result<Option<Notice>, ConvertFault> {
    let words = &named.export;
    let (controller, deck) = (bytes_of(&words.controller), bytes_of(&words.deck));
    let (from, to) = (bytes_of(&words.from), bytes_of(&words.to));
    match export {
        Export::Sigrok => {
            let words = SigrokWords {
                samplerate: bytes_of(&words.samplerate),
                from,
                to,
            };
            convert_sigrok(alloc, reader, out, words)?;
            Ok(None)
        }
        Export::Saleae => {
            let words = SaleaeWords {
                controller,
                deck,
                from,
                to,
            };
            convert_saleae(alloc, reader, out, words)?;
            Ok(None)
        }
        Export::Log => {
            let words = LogWords {
                controller,
                deck,
                unit: bytes_of(&words.unit),
                live: words.live,
                from,
                to,
            };
            convert_log(alloc, reader, out, words)
        }
    }
}

/// The bytes of a word.
fn bytes_of(word: &Option<String>) -> Option<&[u8]> {
    match word {
        Some(word) => Some(word.as_bytes()),
        None => None,
    }
}

/// Cuts the capture that the reader gives into parts, each a new file, and writes their names: how that ends. Where it ends early, the message says
/// which parts are left.
#[inline(never)] // as above
pub(crate) fn split<R: Read + Drop, W: Write + Drop, F: PartFiles>(
    alloc: Global,
    reader: R,
    out: &mut Buffered<W>,
    named: &Named,
    files: &F,
) -> Outcome
    ensures { EndsSplit result }
{
    let name = match &named.export.name {
        Some(name) => name.as_str(),
        None => "",
    };
    let rows = match &named.export.rows {
        Some(rows) => Some(rows.as_str()),
        None => None,
    };
    let words = SplitWords {
        name: Some(name),
        rows,
    };
    if name.chars().any(|character| character.is_control()) {
        return outcome_of_split(None, name_with_control(alloc));
    }
    let make_part = |name: &str| files.create_new(name);
    let Split { parts, fault } = split_capture(alloc, reader, words, &make_part);
    match fault {
        Some(fault) => {
            let end = outcome_of_split(file_of(alloc, named), fault);
            with_left(alloc, end, named, name, parts)
        }
        None => {
            let told = write_names(alloc, out, name, parts);
            outcome_told(&ended(out, told))
        }
    }
}

/// The fault of a name with a control character: the names of the parts are written, and a terminal would act on it.
fn name_with_control(alloc: Global) -> SplitFault {
    match String::from_str(alloc, "--to NAME has a control character") {
        Ok(text) => SplitFault::Refused(Refusal {
            line: 0,
            wrong: Wrong::Words,
            text,
        }),
        Err(_) => SplitFault::OutOfMemory,
    }
}

/// Writes the names of the parts, a line each.
fn write_names<W: Write>(
    alloc: Global,
    writer: &mut W,
    name: &str,
    parts: u32,
) -> Result<(), JudgeError> {
    for number in 1..=parts {
        let Ok(mut line) = part_name(alloc, name, number) else {
            return Err(JudgeError::OutOfMemory);
        };
        if line.push_str("\n").is_err() {
            return Err(JudgeError::OutOfMemory);
        }
        write_all(writer, line.as_bytes())?;
    }
    Ok(())
}

/// The same end, whose message also says which parts are left: so many. Where memory is refused for that, it is left out.
fn with_left(alloc: Global, end: Outcome, named: &Named, name: &str, parts: u32) -> Outcome
    ensures { result.status ≡ end.status }
{
    if parts == 0 {
        return end;
    }
    let Outcome { status, message } = end;
    let message = with_file(message, file_of(alloc, named));
    match left_text(alloc, &message, name, parts) {
        Ok(text) => Outcome::new(status, Message::Lines(text)),
        Err(_) => Outcome::new(status, message),
    }
}

/// The same message, with the file whose row is bad or can't be read: behind lines of text the program does not add it.
fn with_file(message: Message, file: Option<String>) -> Message {
    match (message, file) {
        (Message::Unreadable(fault), Some(file)) => Message::BadRow(BadRow { file, fault }),
        (Message::ReadFault(row), Some(file)) => Message::CannotRead(FileRow { file, row }),
        (message, _) => message,
    }
}

/// The message, and below it which parts are left.
fn left_text(
    alloc: Global,
    message: &Message,
    name: &str,
    parts: u32,
) -> Result<String, AllocError> {
    let mut text = message.to_string(alloc)?;
    text.push_str("\nleft behind: ")?;
    if parts > 1 {
        text.push_str(part_name(alloc, name, 1)?.as_str())?;
        text.push_str(if parts > 2 { " to " } else { " and " })?;
    }
    text.push_str(part_name(alloc, name, parts)?.as_str())?;
    text.push_str(if parts > 1 {
        ", of which the last may not be whole"
    } else {
        ", which may not be whole"
    })?;
    Ok(text)
}
