//! The deck's sheets: from the files that the words name to what the deck does of its own.
ghost use Rattle.std.specs.Prelude.{◌≡◌, Err, IfErr, IfOk, Ok, map};
ghost use Rattle.std.specs.Fn.{FnReturnsAt};
ghost use Rattle.std.specs.String.{string_bytes};
ghost use Rattle.program9.specs.Sheet.{AreTexts, EndsNotRead, EndsOther, EndsReading, EndsUnread, FindsDeck, IsNamed, IsTextOf, IsToldOf, IsUnopened};

use crate::again::read_whole;
use crate::ending::{ClashingSheets, Message, Outcome, Unopened, UnreadSheet};
use crate::program::{not_opened, why_of};
use crate::shipped::shipped_sheet;
use deck9::Deck;
use sheet9::{Clash, SheetsError, read_sheets};
use std::alloc::{AllocError, Global};
use std::io::{self, Read};

/// What came of the other files that the words name, beside that of the capture or the export.
#[derive(Drop)]
pub(crate) struct Other {
    /// What the deck does of its own, where sheets say it.
    pub(crate) deck: Option<Deck>,
    /// The texts of these sheets.
    pub(crate) sheet_texts: Vec<Vec<u8>>,
    /// The text of the deck's file, where an export has one.
    pub(crate) deck_text: Option<Vec<u8>>,
}

/// What came of the deck's sheets.
#[derive(Drop)]
struct Sheets {
    /// What the deck does of its own, where there are sheets.
    deck: Option<Deck>,
    texts: Vec<Vec<u8>>,
}

/// Opens the other files that the words name, and reads them: the deck's sheets, or the deck's file of an export. Else it is the end of
/// the program.
pub(crate) fn read_other<G: Fn(&String) -> io::Result<S>, S: Read + Drop>(
    alloc: Global,
    sheets: &[String],
    deck_file: Option<String>,
    opener: &G,
) -> Result<Other, Outcome>
    requires { G.IsAlwaysCallable opener.now }
    ensures found { IfOk result (λ other. FindsDeck (FnReturnsAt G.Fn opener.now) S.remaining sheets.now (Ok other.deck)) }
    ensures ends { IfErr result (λ end. EndsOther (FnReturnsAt G.Fn opener.now) S.remaining sheets.now deck_file end) }
{
    let Sheets { deck, texts } = find_deck(alloc, sheets, opener)?;
    let deck_text = match deck_file {
        Some(file) => match read_text(alloc, file, opener) {
            Ok(text) => Some(text),
            Err(end) => return Err(end),
        },
        None => None,
    };
    Ok(Other {
        deck,
        sheet_texts: texts,
        deck_text,
    })
}

/// Opens a file, and reads its text to the end.
fn read_text<G: Fn(&String) -> io::Result<S>, S: Read + Drop>(
    alloc: Global,
    file: String,
    opener: &G,
) -> Result<Vec<u8>, Outcome>
    requires { G.IsAlwaysCallable opener.now }
    ensures { IfErr result (λ end. IsUnopened file end) }
{
    let reader = match opener(&file) {
        Ok(reader) => reader,
        Err(e) => return Err(not_opened(Some(file), &e)),
    };
    match read_whole(alloc, reader) {
        Ok(text) => Ok(text),
        Err(e) => Err(not_opened(Some(file), &e)),
    }
}

/// Opens the sheets that the words name, and reads what the deck does of its own: nothing where they name none. Else it is the end of the
/// program.
fn find_deck<G: Fn(&String) -> io::Result<S>, S: Read + Drop>(
    alloc: Global,
    files: &[String],
    opener: &G,
) -> Result<Sheets, Outcome>
    requires { G.IsAlwaysCallable opener.now }
    ensures found { IfOk result (λ found. FindsDeck (FnReturnsAt G.Fn opener.now) S.remaining files.now (Ok found.deck)) }
    ensures ends { IfErr result (λ end. FindsDeck (FnReturnsAt G.Fn opener.now) S.remaining files.now (Err end)) }
{
    if files.is_empty() {
        return Ok(Sheets {
            deck: None,
            texts: Vec::new(alloc),
        });
    }
    let texts = read_texts(alloc, files, opener)?;
    match read_sheets(alloc, texts.as_slice()) {
        Ok(deck) => Ok(Sheets {
            deck: Some(deck),
            texts,
        }),
        Err(error) => Err(told_of(alloc, files, error)),
    }
}

/// Opens the sheets, and reads the text of each.
fn read_texts<G: Fn(&String) -> io::Result<S>, S: Read + Drop>(
    alloc: Global,
    files: &[String],
    opener: &G,
) -> Result<Vec<Vec<u8>>, Outcome>
    requires { G.IsAlwaysCallable opener.now }
    ensures texts { IfOk result (λ texts. AreTexts (FnReturnsAt G.Fn opener.now) S.remaining files.now (map (λ t. t.items) texts.items)) }
    ensures ends { IfErr result (EndsReading (FnReturnsAt G.Fn opener.now) S.remaining files.now) }
{
    let mut texts = Vec::new(alloc);
    for file in files {
        let text = match read_one(alloc, file, opener) {
            Ok(text) => text,
            Err(end) => return Err(end),
        };
        match texts.push(text) {
            Ok(()) => {}
            Err(_) => return Err(Outcome::new(5, Message::NoMemory)),
        }
    }
    Ok(texts)
}

/// Opens a sheet, unless its name is one of those that the program has in itself, and reads its text.
fn read_one<G: Fn(&String) -> io::Result<S>, S: Read + Drop>(
    alloc: Global,
    file: &String,
    opener: &G,
) -> Result<Vec<u8>, Outcome>
    requires { G.IsAlwaysCallable opener.now }
    ensures text { IfOk result (λ text. IsTextOf (FnReturnsAt G.Fn opener.now) S.remaining file.now text.items) }
    ensures ends { IfErr result (EndsUnread (FnReturnsAt G.Fn opener.now) file.now) }
{
    if let Some(text) = shipped_sheet(file.as_str()) {
        return match Vec::from_slice(alloc, text.as_bytes()) {
            Ok(text) => Ok(text),
            Err(_) => Err(Outcome::new(5, Message::NoMemory)),
        };
    }
    match opener(file) {
        Ok(reader) => match read_whole(alloc, reader) {
            Ok(text) => Ok(text),
            Err(e) => Err(not_read(alloc, file.as_str(), &e)),
        },
        Err(e) => Err(not_read(alloc, file.as_str(), &e)),
    }
}

/// The end where a sheet was not opened, or not read to its end.
fn not_read(alloc: Global, file: &str, e: &io::Error) -> Outcome
    ensures { EndsNotRead file.now e.now result }
{
    let Ok(file) = String::from_str(alloc, file) else {
        return Outcome::new(5, Message::NoMemory);
    };
    match e.kind() {
        io::ErrorKind::OutOfMemory => Outcome::new(5, Message::NoMemory),
        kind => {
            let unopened = Unopened {
                file: Some(file),
                why: why_of(kind),
            };
            Outcome::new(4, Message::CannotOpenSheet(unopened))
        }
    }
}

/// The end where the text of a sheet is none, or where two sheets say different things.
fn told_of(alloc: Global, files: &[String], error: SheetsError) -> Outcome
    ensures { IsToldOf (map (λ s. string_bytes s) files.now) error result }
{
    match error {
        SheetsError::OutOfMemory => Outcome::new(5, Message::NoMemory),
        SheetsError::Refused { at, refusal } => match name_at(alloc, files, at) {
            Ok(file) => {
                let unread = UnreadSheet { file, refusal };
                Outcome::new(3, Message::UnreadableSheet(unread))
            }
            Err(_) => Outcome::new(5, Message::NoMemory),
        },
        SheetsError::Clash { at, earlier, clash } => match clashing(
            alloc, files, at, earlier, clash,
        ) {
            Ok(told) => Outcome::new(3, Message::ClashingSheets(told)),
            Err(_) => Outcome::new(5, Message::NoMemory),
        }
    }
}

/// What is told of two sheets that say different things.
fn clashing(
    alloc: Global,
    files: &[String],
    at: usize,
    earlier: usize,
    clash: Clash,
) -> Result<ClashingSheets, AllocError>
    ensures later { IfOk result (λ told. IsNamed (map (λ s. string_bytes s) files.now) at told.file) }
    ensures earlier { IfOk result (λ told. IsNamed (map (λ s. string_bytes s) files.now) earlier told.earlier) }
{
    Ok(ClashingSheets {
        file: name_at(alloc, files, at)?,
        earlier: name_at(alloc, files, earlier)?,
        key: format!(in alloc; "{clash}")?,
    })
}

/// The name of a sheet by its place. The error is that memory is refused, and that of a place where there is none.
fn name_at(alloc: Global, files: &[String], place: usize) -> Result<String, AllocError>
    ensures { IfOk result (IsNamed (map (λ s. string_bytes s) files.now) place) }
{
    match files.get(place) {
        Some(file) => String::from_str(alloc, file.as_str()),
        None => Err(AllocError),
    }
}
