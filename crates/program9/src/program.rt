//! From the words of the command line to how the program ends.
ghost use Rattle.std.specs.Prelude.{◌≡◌, IfErr, IfOk};
ghost use Rattle.std.specs.Fn.{FnOnceReturnsAt, FnReturnsAt};
ghost use Rattle.program9.specs.Opening.{outcome_unopened, why_of};
ghost use Rattle.program9.specs.Outcome.{told_after, without_write_fault};
ghost use Rattle.program9.specs.Output.{contents_behind};
ghost use Rattle.program9.specs.Program.{Begins, EndsBefore, EndsProgram, EndsTask, EndsWithout};

use crate::buffered::Buffered;
use crate::ending::{End, Message, Outcome, Unopened, WhyUnopened};
use crate::first_bytes::FirstBytes;
use crate::judging::{Job, Named, judge_and_flush};
use crate::maker::Maker;
use crate::no_header::{found_in, with_file};
use crate::sheet::{Other, read_other};
use crate::version::tell_version;
use crate::want::{kept_by, with_want};
use deck9::Profile;
use std::alloc::Global;
use std::io::{self, Read, Write};
use words9::{Task, WordsFault, read_words};

/// A task whose judging can begin.
#[derive(Drop)]
struct Begun<R: Read + Drop, W: Write + Drop> {
    /// The capture, which is opened.
    reader: R,
    /// The writer of the report, behind a buffer that holds nothing yet.
    out: Buffered<W>,
    /// What is asked of the capture, and for which deck.
    job: Job,
    /// What the words name.
    named: Named,
}

/// The program from its words, or from why there are none, to its end: reads the task, reads the deck's sheets that it names, opens
/// its capture, judges that and writes the report to `out`; or writes its version there. It answers how the program ends, and the
/// writer as it left it.
///
/// `sheet_opener` is asked for each of the task's sheets that the program does not have in itself, in their order, and for the deck's
/// file of an export, where it names one; and then `opener` once, for the task's file, where there is a task and none of its sheets
/// was refused. `maker` makes what the words ask for beside the reports of a judging, and promises what it says. The end is
///
/// * `Usage` only where the words are no command, or could not be fetched as text: nothing is written;
/// * `NoValue` only where the words are one, but for the value of an option, which can't be it: nothing is written;
/// * the `Outcome` of the judging that the words ask for, without the message of a write fault where `out` is a pipe whose reader is
///   gone: with their verb, at their rate, with hands where they say so, for a deck that does what the sheets say, from the first
///   record that may begin a command where they say `--sync`, with `explain` each exchange with its bytes where they say `--bytes`,
///   and with `check`, `explain` and `why` part by part where they say `--all`; its report went through a buffer, which hands on each
///   line at once exactly where they say `--line-buffered`; or, where they ask for something that is made, the `Outcome` of the maker;
/// * status 3 with `UnreadableSheet`, the file and what is wrong, where a sheet is none, or with `ClashingSheets`, both files and the key,
///   where two say different things of one; status 4 with `CannotOpenSheet`, the file and the reason, where `sheet_opener` or its reader
///   failed: nothing is written;
/// * status 4 with `CannotOpen`, the file and the reason where `opener` failed: nothing is written;
/// * status 0 where the words ask for the version: its line is written; or status 4 with `WriteFault`, and a first part of
///   it;
/// * status 5 with `NoMemory` where a growth of memory is refused; or with `TooLarge` and what the word keeps, where it keeps more than a
///   row.
pub fn run_program<
    G: Fn(&String) -> io::Result<S>,
    S: Read + Drop,
    F: FnOnce(&Option<String>) -> io::Result<R>,
    R: Read + Drop,
    M: Maker,
    W: Write + Drop,
>(
    alloc: Global,
    words: Result<Vec<String>, WordsFault>,
    sheet_opener: G,
    opener: F,
    maker: &M,
    out: W,
) -> (End, W)
    requires sheet { G.IsAlwaysCallable sheet_opener }
    requires capture { F.IsAlwaysCallable opener }
    ensures { EndsProgram M.makes (record { opens = FnOnceReturnsAt F.FnOnce opener; coming = R.remaining; opens_sheet = FnReturnsAt G.Fn sheet_opener; coming_sheet = S.remaining; contents = W.contents })
        words out result.0 (W.contents result.1) }
{
    let words = match words {
        Ok(words) => words,
        Err(fault) => return end_without(fault, out),
    };
    match read_words(alloc, words) {
        Ok(task) => {
            let (end, out) = carry_out(alloc, task, sheet_opener, opener, maker, out);
            (End::Told(end), out)
        }
        Err(fault) => end_without(fault, out),
    }
}

/// The end where there is no task, and the writer as it is left.
fn end_without<W: Write + Drop>(fault: WordsFault, out: W) -> (End, W)
    ensures { EndsWithout fault (W.contents out) result.0 (W.contents result.1) }
{
    match fault {
        WordsFault::Usage(text) => (End::Usage(text), out),
        WordsFault::Version => {
            let (end, out) = tell_version(out);
            (End::Told(end), out)
        }
        WordsFault::NoValue(text) => (End::NoValue(text), out),
        WordsFault::NoMemory => (End::Told(Outcome::new(5, Message::NoMemory)), out),
    }
}

/// Reads the task's sheets, opens its capture, judges that and hands the report on.
fn carry_out<
    G: Fn(&String) -> io::Result<S>,
    S: Read + Drop,
    F: FnOnce(&Option<String>) -> io::Result<R>,
    R: Read + Drop,
    M: Maker,
    W: Write + Drop,
>(alloc: Global, task: Task, sheet_opener: G, opener: F, maker: &M, out: W) -> (Outcome, W)
    requires sheet { G.IsAlwaysCallable sheet_opener }
    requires capture { F.IsAlwaysCallable opener }
    ensures { EndsTask M.makes (record { opens = FnOnceReturnsAt F.FnOnce opener; coming = R.remaining; opens_sheet = FnReturnsAt G.Fn sheet_opener; coming_sheet = S.remaining; contents = W.contents })
        task out result.0 (W.contents result.1) }
{
    match begin(alloc, task, sheet_opener, opener, out) {
        Ok(begun) => {
            let Begun {
                reader,
                mut out,
                job,
                named,
            } = begun;
            let kept = kept_by(job.asked.report, named.export.live);
            let mut reader = FirstBytes::of(reader);
            let judged = judge_and_flush(alloc, &mut reader, &mut out, job, &named, maker);
            let told = with_file(judged, named.file, found_in(reader.as_slice()));
            taken_back(out, with_want(told, kept))
        }
        Err(ended) => ended,
    }
}

/// Reads the task's sheets, and then opens its capture and makes the buffer: what the judging needs; or the end, and the writer as it
/// was.
fn begin<
    G: Fn(&String) -> io::Result<S>,
    S: Read + Drop,
    F: FnOnce(&Option<String>) -> io::Result<R>,
    R: Read + Drop,
    W: Write + Drop,
>(
    alloc: Global,
    task: Task,
    sheet_opener: G,
    opener: F,
    out: W,
) -> Result<Begun<R, W>, (Outcome, W)>
    requires sheet { G.IsAlwaysCallable sheet_opener }
    requires capture { F.IsAlwaysCallable opener }
    ensures begins { IfOk result (λ b. Begins (record { opens = FnOnceReturnsAt F.FnOnce opener; coming = R.remaining; opens_sheet = FnReturnsAt G.Fn sheet_opener; coming_sheet = S.remaining; contents = W.contents }) task out b.reader b.out b.job) }
    ensures file { IfOk result (λ b. b.named.file ≡ task.file) }
    ensures live { IfOk result (λ b. b.named.export.live ≡ task.export.live) }
    ensures ends { IfErr result (λ e. EndsBefore (record { opens = FnOnceReturnsAt F.FnOnce opener; coming = R.remaining; opens_sheet = FnReturnsAt G.Fn sheet_opener; coming_sheet = S.remaining; contents = W.contents }) task e.0) }
    ensures untouched { IfErr result (λ e. e.1 ≡ out) }
{
    let Task {
        asked,
        file,
        rate,
        hands,
        sheets,
        mut export,
    } = task;
    let deck_file = export.deck_file.take();
    let other = match read_other(alloc, sheets.as_slice(), deck_file, &sheet_opener) {
        Ok(other) => other,
        Err(end) => return Err((end, out)),
    };
    let Other {
        deck,
        sheet_texts,
        deck_text,
    } = other;
    let reader = match opener(&file) {
        Ok(reader) => reader,
        Err(e) => return Err((not_opened(file, &e), out)),
    };
    let profile = Profile { rate, hands, deck };
    match Buffered::new(alloc, out, asked.line_buffered) {
        Ok(out) => {
            let job = Job { asked, profile };
            Ok(Begun {
                reader,
                out,
                job,
                named: Named {
                    file,
                    sheets,
                    sheet_texts,
                    export,
                    deck_text,
                },
            })
        }
        Err(out) => Err((Outcome::new(5, Message::NoMemory), out)),
    }
}

/// The end, and the writer from behind the buffer that the report of this judging went through.
fn taken_back<W: Write + Drop>(out: Buffered<W>, judged: Outcome) -> (Outcome, W)
    ensures end { result.0 ≡ told_after out.held.failed judged }
    ensures writer { W.contents result.1 ≡ contents_behind W.contents out }
{
    let end = told_after(out.failed(), judged);
    (end, out.into_writer())
}

/// The end after this one of a judging, where a write or a flush may have failed so: nothing is said of a write fault where the
/// reader of a pipe is gone, since whoever ended it knows.
fn told_after(failed: Option<io::ErrorKind>, end: Outcome) -> Outcome
    ensures { result ≡ told_after failed end }
{
    match failed {
        Some(io::ErrorKind::BrokenPipe) => without_write_fault(end),
        _ => end,
    }
}

/// The same end, which says nothing of a write fault.
fn without_write_fault(end: Outcome) -> Outcome
    ensures { result ≡ without_write_fault end }
{
    match end.message {
        Message::WriteFault => Outcome::new(end.status, Message::Nothing),
        _ => end,
    }
}

/// The end where the capture was not opened.
pub(crate) fn not_opened(file: Option<String>, e: &io::Error) -> Outcome
    ensures { result ≡ outcome_unopened file e.now }
{
    match e.kind() {
        io::ErrorKind::OutOfMemory => Outcome::new(5, Message::NoMemory),
        kind => {
            let why = why_of(kind);
            Outcome::new(4, Message::CannotOpen(Unopened { file, why }))
        }
    }
}

/// Why a file was not opened whose opener failed so, or its reader.
pub(crate) fn why_of(kind: io::ErrorKind) -> WhyUnopened
    ensures { result ≡ why_of kind }
{
    match kind {
        io::ErrorKind::NotFound => WhyUnopened::NotFound,
        io::ErrorKind::PermissionDenied => WhyUnopened::PermissionDenied,
        io::ErrorKind::IsADirectory => WhyUnopened::IsADirectory,
        io::ErrorKind::NotADirectory => WhyUnopened::NotADirectory,
        io::ErrorKind::FilesystemLoop => WhyUnopened::FilesystemLoop,
        _ => WhyUnopened::Other,
    }
}
