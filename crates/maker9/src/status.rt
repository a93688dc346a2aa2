//! From what was made to how the program ends.
ghost use Rattle.std.specs.Prelude.{◌≡◌};
ghost use Rattle.maker9.specs.Outcome.{file_told, said_of, outcome_converted, outcome_drawn, outcome_kept, outcome_made, outcome_of_split, outcome_refused_by, outcome_rewritten, outcome_told, status_of_nothing};

use convert9::{ConvertFault, Notice, Refusal, SplitFault, Wrong};
use program9::{
    Message, Notice as Said, Outcome, RefusedExport, Refuser, outcome, outcome_in_parts,
    outcome_refused,
};
use report9::JudgeError;
use seen9::{Drawn, Ending, WhyNothing};
use view9::ClockFault;
use words9::Export;

/// How the program ends after a view was made of a judging: as [`outcome`] says of its verdict, or [`outcome_in_parts`] of its totals.
/// Takes no memory.
pub fn outcome_made(judged: &Result<Ending, JudgeError>) -> Outcome
    ensures { result ≡ outcome_made judged.now }
{
    match judged {
        Ok(Ending::Verdict(verdict)) => outcome(&Ok(*verdict)),
        Ok(Ending::Totals(totals)) => outcome_in_parts(&Ok(*totals)),
        Err(refusal) => outcome_refused(refusal),
    }
}

/// How the program ends after the times of a text were rewritten: with status 0, or with 4 or 5 after a fault. Takes no memory.
pub fn outcome_rewritten(told: &Result<(), ClockFault>) -> Outcome
    ensures { result ≡ outcome_rewritten told.now }
{
    match told {
        Ok(()) => Outcome::new(0, Message::Nothing),
        Err(ClockFault::Read) => Outcome::new(4, Message::TextFault),
        Err(ClockFault::Write) => Outcome::new(4, Message::WriteFault),
        Err(ClockFault::OutOfMemory) => Outcome::new(5, Message::NoMemory),
    }
}

/// How the program ends after what a capture says of itself was told: with status 0, or after a refusal as [`outcome`] says. Takes
/// no memory.
pub fn outcome_told(told: &Result<(), JudgeError>) -> Outcome
    ensures { result ≡ outcome_told told.now }
{
    match told {
        Ok(()) => Outcome::new(0, Message::Nothing),
        Err(refusal) => outcome_refused(refusal),
    }
}

/// How the program ends after what a capture is kept for: as that came to, or after a refusal as [`outcome`] says. Takes no memory.
pub fn outcome_kept(told: Result<Outcome, JudgeError>) -> Outcome
    ensures { result ≡ outcome_kept told }
{
    match told {
        Ok(end) => end,
        Err(refusal) => outcome_refused(&refusal),
    }
}

/// How the program ends after a picture was to be drawn: as [`outcome_made`] says of the judging. Where there is nothing to draw the status
/// is 0, since nothing breaks, or 2 where the words name a record that breaks nothing. Takes no memory.
pub fn outcome_drawn(drawn: &Drawn) -> Outcome
    ensures { result ≡ outcome_drawn drawn.now }
{
    match drawn {
        Drawn::Picture(ending) => outcome_made(&Ok(*ending)),
        Drawn::Nothing(why) => Outcome::new(status_of(*why), Message::NothingToDraw(*why)),
    }
}

/// The status where there is nothing to draw.
fn status_of(why: WhyNothing) -> u8
    ensures { result ≡ status_of_nothing why }
{
    match why {
        WhyNothing::Yes | WhyNothing::NoPartBreaks => 0,
        WhyNothing::NoBreakAt(_) => 2,
    }
}

/// How the program ends after an export was to become a capture: with status 0, and maybe a notice; or with what was wrong, in this file.
/// Takes no memory.
pub fn outcome_converted(
    export: Export,
    file: Option<String>,
    told: Result<Option<Notice>, ConvertFault>,
) -> Outcome
    ensures { result ≡ outcome_converted export file told }
{
    match told {
        Ok(None) => Outcome::new(0, Message::Nothing),
        Ok(Some(notice)) => Outcome::new(0, Message::Notice(said_of(notice))),
        Err(ConvertFault::Refused(refusal)) => outcome_refused_by(
            Refuser::Convert(export),
            file,
            refusal,
        ),
        Err(ConvertFault::Read) => Outcome::new(4, Message::TextFault),
        Err(ConvertFault::Write) => Outcome::new(4, Message::WriteFault),
        Err(ConvertFault::OutOfMemory) => Outcome::new(5, Message::NoMemory),
    }
}

/// How the program ends after a split of this file that ended early so, whatever it left behind. Takes no memory.
pub fn outcome_of_split(file: Option<String>, fault: SplitFault) -> Outcome
    ensures { result ≡ outcome_of_split file fault }
{
    match fault {
        SplitFault::Refused(refusal) => outcome_refused_by(Refuser::Split, file, refusal),
        SplitFault::Capture(e) => outcome_refused(&JudgeError::Capture(e)),
        SplitFault::OutOfMemory => Outcome::new(5, Message::NoMemory),
    }
}

/// How the program ends after this word refused something of this file: with status 2 where the words are wrong, 3 where the export or the
/// capture is, and 4 where a part can't be written.
fn outcome_refused_by(by: Refuser, file: Option<String>, refusal: Refusal) -> Outcome
    ensures { result ≡ outcome_refused_by by file refusal }
{
    let status = match refusal.wrong {
        Wrong::Words => 2,
        Wrong::Export => 3,
        Wrong::Part => 4,
    };
    let Refusal { line, wrong, text } = refusal;
    let file = file_told(wrong, line, file);
    let refused = RefusedExport {
        by,
        file,
        line,
        text,
    };
    Outcome::new(status, Message::Refused(refused))
}

/// The file that is told where something was refused in this line of it: none where the words alone are at fault.
fn file_told(wrong: Wrong, line: u64, file: Option<String>) -> Option<String>
    ensures { result ≡ file_told wrong line file }
{
    match wrong {
        Wrong::Words if line == 0 => None,
        _ => file,
    }
}

/// What is said of the times of a log.
fn said_of(notice: Notice) -> Said
    ensures { result ≡ said_of notice }
{
    match notice {
        Notice::WholeNumbers => Said::WholeNumbers,
        Notice::Coarse => Said::Coarse,
    }
}
