//! What makes of a capture, of a text or of an export what the program itself does not.

use crate::again::Keeping;
use crate::buffered::Buffered;
use crate::ending::{Message, Outcome};
use crate::judging::{Job, Named};
use block9::Reason;
use deck9::Hands;
use report9::{Scope, View};
use std::alloc::Global;
use std::io::{Read, Write};
use tc25::Rate;
use words9::Made;

/// A record that breaks a rule.
#[derive(Clone, Copy, PartialEq, Eq)]
pub struct Broken {
    /// The number of the record, counted from 1.
    pub at: u32,
    /// The rule.
    pub reason: Reason,
}

/// What a capture was asked with.
#[derive(Clone, Copy)]
pub struct AskedWith<'t> {
    /// The rate of the deck's time code.
    pub rate: Rate,
    /// Whether hands were allowed.
    pub hands: Hands,
    /// The texts of the sheets.
    pub sheets: &'t [Vec<u8>],
}

/// What was told of a capture, and so what may be asked again.
#[derive(Clone, Copy)]
pub struct Told<'t> {
    /// With which view.
    pub view: View,
    /// How far the capture was judged, and from where on.
    pub scope: Scope,
    /// What it was asked with.
    pub with: AskedWith<'t>,
    /// The record that breaks, of a judging to the first break: where there may be something to ask next.
    pub broken: Option<Broken>,
}

/// What makes the views, pictures, pages and captures that the words may ask for, and says what to ask next. The program is handed one, as
/// it is handed what opens files, so that it knows of no view.
pub trait Maker {
    ghost use Rattle.std.specs.Prelude.{ℕ, List, Option};
    ghost use Rattle.words9.specs.declared.task.Made.{Made as AMade};
    ghost use Rattle.program9.specs.declared.ending.Outcome.{Outcome as AnOutcome};
    ghost use Rattle.program9.specs.declared.judging.Job.{Job as AJob};
    ghost use Rattle.program9.specs.Judging.{IsHint};
    ghost use Rattle.program9.specs.Output.{contents_behind, held_contents};

    /// What is promised of what it makes: of this, with what the job asks for and for its deck, of a capture or an export whose text is
    /// given where it is known, before a writer that holds this; how it ends, and what the writer holds then.
    ghost makes: { AMade → AJob → Option (List ℕ) → Option (List ℕ) → AnOutcome → Option (List ℕ) → Type 0 };

    /// Makes this of what the reader gives, and hands it on to the writer behind the buffer: how it ends.
    fn make<R: Read + Drop, W: Write + Drop>(
        &self,
        alloc: Global,
        reader: R,
        out: &mut Buffered<W>,
        made: Made,
        job: Job,
        named: &Named,
    ) -> Outcome
        ensures { makes made job (R.remaining reader) (held_contents W.contents out.old) result (contents_behind W.contents out.new) };

    /// What to ask next after a `why` that is a no, of what was read for it.
    fn ask_next<R: Read + Drop>(&self, alloc: Global, kept: Keeping<R>, told: Told<'_>) -> Message
        ensures { IsHint result };
}
