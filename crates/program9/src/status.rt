//! From the result of a judging to how the program ends.
ghost use Rattle.std.specs.Prelude.{◌≡◌};
ghost use Rattle.program9.specs.Outcome.{outcome_in_parts, outcome_of, outcome_refused};

use crate::ending::{Message, Outcome};
use capture9::CaptureKind;
use report9::{JudgeError, Totals, Verdict};

/// How the program ends after a judging; the statuses are a choice of these rules. Takes no memory.
///
/// | `judge` answers | status | message |
/// |---|---|---|
/// | a yes | 0 | none |
/// | a no | 1 | none |
/// | a bad row, or a bad header | 3 | what is wrong, and the row |
/// | that the reader failed | 4 | the row |
/// | that the writer failed | 4 | a write fault |
/// | out of memory, in either form | 5 | out of memory |
pub fn outcome(judged: &Result<Verdict, JudgeError>) -> Outcome
    ensures { result ≡ outcome_of judged.now }
{
    match judged {
        Ok(Verdict::Yes { .. }) => Outcome::new(0, Message::Nothing),
        Ok(Verdict::No { .. }) => Outcome::new(1, Message::Nothing),
        Err(refusal) => outcome_refused(refusal),
    }
}

/// How the program ends after a judging part by part: with status 0 where no part breaks, with 1 where one does, and
/// after a refusal as [`outcome`] says. Takes no memory.
pub fn outcome_in_parts(judged: &Result<Totals, JudgeError>) -> Outcome
    ensures { result ≡ outcome_in_parts judged.now }
{
    match judged {
        Ok(totals) if totals.breaks == 0 => Outcome::new(0, Message::Nothing),
        Ok(_) => Outcome::new(1, Message::Nothing),
        Err(refusal) => outcome_refused(refusal),
    }
}

/// How the program ends after this refusal. Takes no memory.
pub fn outcome_refused(refusal: &JudgeError) -> Outcome
    ensures { result ≡ outcome_refused refusal.now }
{
    match refusal {
        JudgeError::Capture(e) => match e.kind {
            CaptureKind::Read => Outcome::new(4, Message::ReadFault(e.row)),
            CaptureKind::OutOfMemory => Outcome::new(5, Message::NoMemory),
            _ => Outcome::new(3, Message::Unreadable(*e)),
        },
        JudgeError::Write => Outcome::new(4, Message::WriteFault),
        JudgeError::OutOfMemory => Outcome::new(5, Message::NoMemory),
    }
}
