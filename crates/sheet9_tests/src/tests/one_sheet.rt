//! Sheets as texts.

use deck9::Deck;
use sheet9::{SheetsError, read_sheets};
use std::alloc::Global;
use std::test::Fail;

/// What comes of one text as a sheet.
pub(super) fn read_sheet(alloc: Global, text: &[u8]) -> Result<Deck, SheetsError> {
    let mut texts = Vec::new(alloc);
    if texts.push(Vec::from_slice(alloc, text)?).is_err() {
        return Err(SheetsError::OutOfMemory);
    }
    read_sheets(alloc, texts.as_slice())
}

/// What comes of these texts as sheets, of which there is one at least.
pub(super) fn read_all(alloc: Global, texts: &[&'static str]) -> Result<Deck, SheetsError> {
    let mut all = Vec::new(alloc);
    for text in texts {
        if all.push(Vec::from_slice(alloc, text.as_bytes())?).is_err() {
            return Err(SheetsError::OutOfMemory);
        }
    }
    if all.is_empty() {
        return Err(SheetsError::OutOfMemory);
    }
    read_sheets(alloc, all.as_slice())
}

/// The deck of these sheets, which are taken.
pub(super) fn taken(alloc: Global, texts: &[&'static str]) -> Result<Deck, Fail> {
    read_all(alloc, texts).map_err(|_| Fail::from("refused"))
}
