//! From the texts of sheets to one deck.
ghost use Rattle.std.specs.Prelude.{◌≡◌, ◌∷◌, ◌<◌, IfErr, IfOk, IfSome, List, None, length, map};
ghost use Rattle.std.specs.List.{fold};
ghost use Rattle.sheet9.specs.Sheet.{Sheet};
ghost use Rattle.sheet9.specs.Sheets.{AreRead, EachAgrees, IsDeckOfAll, IsFirstClash, ReportsOf, together};
ghost use Rattle.sheet9.specs.Working.{AreSaid, IsSaid};

use crate::clash::Clash;
use crate::refusal::{Refusal, SheetError};
use crate::said::Said;
use crate::sheet::read_sheet;
use deck9::Deck;
use std::alloc::{AllocError, Global};

/// Why [`read_sheets`] gives no deck.
#[derive(Drop, PartialEq, Eq)]
pub enum SheetsError {
    /// The text of a sheet is none.
    Refused {
        /// Which one, counted from 0.
        at: usize,
        /// What is wrong with it.
        refusal: Refusal,
    },
    /// Two sheets say different things of one key.
    Clash {
        /// The later one, counted from 0.
        at: usize,
        /// The earlier one: of several the first.
        earlier: usize,
        /// Of what they do.
        clash: Clash,
    },
    /// A growth of memory was refused, which says nothing of the texts.
    OutOfMemory,
}

impl From<AllocError> for SheetsError {
    ghost use Rattle.std.specs.Prelude.{◌≡◌};
    ghost use Rattle.sheet9.specs.declared.sheets.SheetsError.TheVariants.{OutOfMemory};

    ghost from_gives = { λ _ error. error ≡ OutOfMemory };

    fn from(_: AllocError) -> SheetsError {
        SheetsError::OutOfMemory
    }
}

/// Reads the texts of sheets: the deck that does what they say together. The entries of each table are those of all sheets, and the modes
/// on the way to a goal are those that any of them names.
///
/// * `Ok` only where each text is a sheet, and no two say different things of one key. What two say alike is taken.
/// * `Err(Refused)` and `Err(Clash)` tell of the first sheet that is none, or that says something different from one before it. All before
///   it are sheets that agree.
/// * `Err(OutOfMemory)` where a growth of memory was refused.
pub fn read_sheets(alloc: Global, texts: &[Vec<u8>]) -> Result<Deck, SheetsError>
    requires { 0 < length texts.now }
    ensures deck { IfOk result (IsDeckOfAll (map (λ t. t.items) texts.now)) }
    ensures refused { IfErr result (ReportsOf (map (λ t. t.items) texts.now)) }
{
    let all = read_each(alloc, texts)?;
    let said = taken_together(all)?;
    Ok(said.into_deck(alloc)?)
}

/// Reads each text: what it says.
fn read_each(alloc: Global, texts: &[Vec<u8>]) -> Result<Vec<Said>, SheetsError>
    ensures said { IfOk result (λ all. (sheets : List Sheet) × AreRead (map (λ t. t.items) texts.now) sheets × AreSaid sheets all.items) }
    ensures refused { IfErr result (ReportsOf (map (λ t. t.items) texts.now)) }
{
    let mut all = Vec::new(alloc);
    for text in texts {
        let said = match read_sheet(alloc, text.as_slice()) {
            Ok(said) => said,
            Err(SheetError::OutOfMemory) => return Err(SheetsError::OutOfMemory),
            Err(SheetError::Refused(refusal)) => {
                let at = all.len();
                return Err(SheetsError::Refused { at, refusal });
            }
        };
        if let Some((earlier, clash)) = first_clash(all.as_slice(), &said) {
            let at = all.len();
            return Err(SheetsError::Clash { at, earlier, clash });
        }
        match all.push(said) {
            Ok(()) => {}
            Err(_) => return Err(SheetsError::OutOfMemory),
        }
    }
    Ok(all)
}

/// The first of these sheets that says something different from this one, by its place, and of what.
fn first_clash(all: &[Said], said: &Said) -> Option<(usize, Clash)>
    ensures none { (sheets : List Sheet) (one : Sheet) → AreSaid sheets all.now → IsSaid one said.now → result ≡ None → EachAgrees sheets one }
    ensures some { (sheets : List Sheet) (one : Sheet) → AreSaid sheets all.now → IsSaid one said.now → IfSome result (λ found. IsFirstClash sheets found.0 one found.1) }
{
    let mut place = 0;
    for earlier in all {
        if let Some(clash) = earlier.clash_with(said) {
            return Some((place, clash));
        }
        place += 1;
    }
    None
}

/// What all of these sheets say together.
fn taken_together(all: Vec<Said>) -> Result<Said, AllocError>
    requires { 0 < length all.items }
    ensures { (first : Sheet) (rest : List Sheet) → AreSaid (first ∷ rest) all.items → IfOk result (λ said. IsSaid (fold together first rest) said) }
{
    let mut all = all;
    let mut said = all.remove(0);
    for other in all {
        said.take(other)?;
    }
    Ok(said)
}
