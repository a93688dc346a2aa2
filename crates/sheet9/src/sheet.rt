//! From a text to what it says.
ghost use Rattle.std.specs.Prelude.{◌≡◌, ◌+◌, ◌≤◌, ◌<◌, ◌^◌, IfOk, IfErr, OnOk, IsOkAnd, Some, None, length, option_map};
ghost use Rattle.toml.specs.Data.{get_member};
ghost use Rattle.toml.specs.View.{table_view, view};
ghost use Rattle.sheet9.specs.Refusal.{NamesFaultLine, Reports, line_after};
ghost use Rattle.sheet9.specs.Sheet.{document_of, meaning_of, sheet_of, unknown_key};
ghost use Rattle.sheet9.specs.Working.{ReportsWithoutLine, IsSaid};

use crate::refusal::{Refusal, SheetError};
use crate::said::Said;
use std::alloc::Global;
use std::str;
use toml::{Table, Value};

/// Reads the text of a sheet: what it says.
///
/// An error is `Refused` where the text is not a sheet, and says what is wrong first: that it is not TOML (or not UTF-8), then
/// an unknown key at the top, then what is wrong with `[forgets]`, then with `[goals]`, `[loses]`, `[names]`, `[passes]`, `[replies]`
/// and `[runs]`. The line of `NotToml` is that of the first byte that is not UTF-8, where there is one. Else it is the line that the
/// toml library names: that the text has such a line is proved, and that it is the line of the fault is only tested. The error is
/// `OutOfMemory` where a growth of memory was refused, which says nothing of the text.
pub(crate) fn read_sheet(alloc: Global, text: &[u8]) -> Result<Said, SheetError>
    ensures said { IfOk result (λ said. IsOkAnd (sheet_of text.now) (λ sheet. IsSaid sheet said)) }
    ensures refused { IfErr result (Reports (sheet_of text.now)) }
    ensures line { IfErr result (NamesFaultLine text.now) }
{
    let top = read_document(alloc, text)?;
    Said::read(alloc, &top)
}

/// The value of a key.
pub(crate) fn value_at<'a>(table: &'a Table, key: &str) -> Option<&'a Value>
    ensures { option_map (λ v. view v.now) result ≡ get_member key.now (table_view table.now) }
{
    table.get(key)
}

/// Reads the text as a document.
fn read_document(alloc: Global, text: &[u8]) -> Result<Table, SheetError>
    ensures ok { IfOk result (λ table. document_of text.now ≡ Some (table_view table)) }
    ensures err { IfErr result (Reports (sheet_of text.now)) }
    ensures line { IfErr result (NamesFaultLine text.now) }
{
    match str::from_utf8(text) {
        Ok(text) => parse(alloc, text),
        Err(error) => {
            let line = line_after(&text[..error.valid_up_to()]);
            Err(SheetError::Refused(Refusal::NotToml { line }))
        }
    }
}

/// Reads a text that is UTF-8 as a document.
fn parse(alloc: Global, text: &str) -> Result<Table, SheetError>
    ensures ok { IfOk result (λ table. document_of text.now ≡ Some (table_view table)) }
    ensures err { IfErr result (Reports (sheet_of text.now)) }
    ensures line { IfErr result (NamesFaultLine text.now) }
{
    match toml::table_from_str(alloc, text) {
        Ok(table) => Ok(table),
        Err(error) => match error.span() {
            Some(span) => {
                let line = line_after(&text.as_bytes()[..span.start]);
                Err(SheetError::Refused(Refusal::NotToml { line }))
            }
            None => Err(SheetError::OutOfMemory),
        },
    }
}

/// The line, counted from 1, of the place after these bytes.
fn line_after(bytes: &[u8]) -> usize
    ensures { result ≡ line_after bytes.now }
{
    let mut line = 1;
    for byte in bytes {
        if *byte == b'\n' {
            line += 1;
        }
    }
    line
}

/// Refuses the first key at the top that no sheet has.
pub(crate) fn check_keys(alloc: Global, top: &Table) -> Result<(), SheetError>
    ensures ok { OnOk result (unknown_key (table_view top.now) ≡ None) }
    ensures err { IfErr result (ReportsWithoutLine (meaning_of (table_view top.now))) }
{
    'keys: for (key, _value) in top.iter() {
        match key.as_str() {
            "forgets" | "goals" | "loses" | "names" | "passes" | "replies" | "runs" => {}
            unknown => {
                let key = String::from_str(alloc, unknown)?;
                return Err(SheetError::Refused(Refusal::UnknownKey { key }));
            }
        }
    }
    Ok(())
}
