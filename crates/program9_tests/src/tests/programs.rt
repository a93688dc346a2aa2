//! The program from its words to its end, over readers and writers that are made here.

use crate::tests::makers::Idle;
use crate::tests::same;
use crate::tests::writers::{Narrow, took, took_to_the_end};
use program9::{End, Message, Outcome, Unopened, WhyUnopened, run_program};
use std::alloc::{AllocError, Global};
use std::io;
use words9::WordsFault;

/// PLAY and its acknowledgement.
const PLAY: &str =
    "time_us,wire,byte\n400,C,20\n800,C,01\n1200,C,21\n1600,D,10\n2000,D,01\n2400,D,11\n";

/// What is answered to it.
const YES: &str = "yes: records 6, exchanges 1, open 0\n";

/// The totals of it.
const NO_BREAK: &str = "breaks 0: records 6, exchanges 1, passed over 0, open 0\n";

/// PLAY, its acknowledgement twice, and the first byte of a command.
const TWICE: &str =
    "time_us,wire,byte\n400,C,20\n800,C,01\n1200,C,21\n1600,D,10\n2000,D,01\n2400,D,11\n2800,D,10\n3200,D,01\n3600,D,11\n4000,C,20\n";

/// What is answered to it where the judging goes on. The second acknowledgement is passed over, and the last byte begins a part.
const ONE_BREAK: &str =
    "no at record 7: P1 reply without a command\nbreaks 1: records 10, exchanges 1, passed over 3, open 1\n";

/// The words of a command line.
pub(super) fn words_of(alloc: Global, words: &[&str]) -> Result<Vec<String>, AllocError> {
    let mut all = Vec::new(alloc);
    for word in words {
        all.push(String::from_str(alloc, word)?)?;
    }
    Ok(all)
}

/// What stands for the files: PLAY on standard input, and one with the acknowledgement twice. Nothing else can be opened.
fn opened<'a>(file: &Option<String>) -> io::Result<&'a [u8]> {
    match file {
        None => Ok(PLAY.as_bytes()),
        Some(name) => match name.as_str() {
            "twice.csv" => Ok(TWICE.as_bytes()),
            "" => Err(io::Error::from(io::ErrorKind::OutOfMemory)),
            "forbidden.csv" => Err(io::Error::from(io::ErrorKind::PermissionDenied)),
            "folder" => Err(io::Error::from(io::ErrorKind::IsADirectory)),
            "play.csv/more" => Err(io::Error::from(io::ErrorKind::NotADirectory)),
            "loop" => Err(io::Error::from(io::ErrorKind::FilesystemLoop)),
            "busy" => Err(io::Error::from(io::ErrorKind::ResourceBusy)),
            _ => Err(io::Error::from(io::ErrorKind::NotFound)),
        },
    }
}

/// No sheet can be opened.
fn no_sheet<'a>(_file: &String) -> io::Result<&'a [u8]> {
    Err(io::Error::from(io::ErrorKind::NotFound))
}

/// The end of the program on these words, before this writer.
fn end_on(rt: &HostRuntime, words: &[&str], writer: Narrow) -> (End, Narrow) {
    let words = words_of(rt.alloc(), words).map_err(|_| WordsFault::NoMemory);
    run_program(
        rt.alloc(),
        words,
        |file| no_sheet(file),
        |file| opened(file),
        &Idle,
        writer,
    )
}

/// Whether the program ends so.
pub(super) fn is_told(end: &End, status: u8, message: Message) -> bool {
    match end {
        End::Usage(_) | End::NoValue(_) => false,
        End::Told(outcome) => { end.status() == status && *outcome == Outcome { status, message } }
    }
}

#[test]
fn there_may_be_no_words(rt: HostRuntime) {
    let writer = Narrow::new(rt.alloc(), usize::MAX);
    let words = Err(WordsFault::Usage(None));
    let (end, writer) = run_program(
        rt.alloc(),
        words,
        |file| no_sheet(file),
        |file| opened(file),
        &Idle,
        writer,
    );
    let is_usage = matches!(&end, End::Usage(None));
    same(&rt, (end.status(), is_usage), (2, true), "no help");
    let words = Err(WordsFault::NoMemory);
    let (end, writer) = run_program(
        rt.alloc(),
        words,
        |file| no_sheet(file),
        |file| opened(file),
        &Idle,
        writer,
    );
    same(&rt, is_told(&end, 5, Message::NoMemory), true, "no memory");
    took(&rt, &writer, b"", 0, 0);
}

#[test]
fn a_file_that_is_not_opened(rt: HostRuntime) {
    let table = [
        ("absent.csv", WhyUnopened::NotFound),
        ("forbidden.csv", WhyUnopened::PermissionDenied),
        ("folder", WhyUnopened::IsADirectory),
        ("play.csv/more", WhyUnopened::NotADirectory),
        ("loop", WhyUnopened::FilesystemLoop),
        ("busy", WhyUnopened::Other),
    ];
    for verb in ["check", "explain", "run", "why"] {
        for (name, why) in &table {
            let (end, writer) = end_on(&rt, &[verb, *name], Narrow::new(rt.alloc(), usize::MAX));
            let file = Some(String::from_str(rt.alloc(), *name).expect(&rt, "memory"));
            let unopened = Unopened { file, why: *why };
            same(
                &rt,
                is_told(&end, 4, Message::CannotOpen(unopened)),
                true,
                *name,
            );
            took(&rt, &writer, b"", 0, 0);
        }
        let (end, writer) = end_on(&rt, &[verb, ""], Narrow::new(rt.alloc(), usize::MAX));
        same(&rt, is_told(&end, 5, Message::NoMemory), true, verb);
        took(&rt, &writer, b"", 0, 0);
    }
}

#[test]
fn the_version_is_told(rt: HostRuntime) {
    let (end, writer) = end_on(&rt, &["-V"], Narrow::new(rt.alloc(), usize::MAX));
    same(&rt, is_told(&end, 0, Message::Nothing), true, "-V");
    took(&rt, &writer, b"ninecheck 2.0.0\n", 0, 1);
    let (end, writer) = end_on(&rt, &["-V"], Narrow::new(rt.alloc(), 4));
    same(&rt, is_told(&end, 4, Message::WriteFault), true, "no room");
    took(&rt, &writer, b"nine", 1, 0);
    let (end, writer) = end_on(&rt, &["-V"], Narrow::that_fails_to_flush(rt.alloc()));
    same(&rt, is_told(&end, 4, Message::WriteFault), true, "no flush");
    took_to_the_end(&rt, &writer, b"ninecheck 2.0.0\n");
}

#[test]
fn the_whole_capture_is_judged(rt: HostRuntime) {
    let writer = Narrow::new(rt.alloc(), usize::MAX);
    let (end, writer) = end_on(&rt, &["check", "--all"], writer);
    same(&rt, is_told(&end, 0, Message::Nothing), true, NO_BREAK);
    took(&rt, &writer, NO_BREAK.as_bytes(), 0, 1);
    let writer = Narrow::new(rt.alloc(), usize::MAX);
    let (end, writer) = end_on(&rt, &["check", "--all", "twice.csv"], writer);
    same(&rt, is_told(&end, 1, Message::Nothing), true, ONE_BREAK);
    took(&rt, &writer, ONE_BREAK.as_bytes(), 0, 1);
    let writer = Narrow::new(rt.alloc(), usize::MAX);
    let (end, writer) = end_on(&rt, &["explain", "twice.csv", "--all"], writer);
    same(&rt, is_told(&end, 1, Message::Nothing), true, ONE_BREAK);
    let whole = writer.taken.as_slice();
    let begin = b"record 6: PLAY -> ACK, delay 400, ";
    same(&rt, whole.starts_with(begin), true, whole);
    took_to_the_end(&rt, &writer, ONE_BREAK.as_bytes());
}

/// Words, their last line, and how often the writer is flushed: once a line, and once at the end.
const LINE_BY_LINE: &[(&'static [&'static str], &'static str, usize)] = &[
    (&["check"], YES, 1),
    (&["check", "--line-buffered"], YES, 2),
    (&["explain"], YES, 1),
    (&["explain", "--line-buffered"], YES, 3),
    (&["explain", "--bytes", "--line-buffered"], YES, 3),
    (&["run"], YES, 1),
    (&["why", "--line-buffered"], YES, 2),
    (&["check", "--all"], NO_BREAK, 1),
    (&["check", "--all", "--line-buffered"], NO_BREAK, 2),
    (&["explain", "--all", "--line-buffered"], NO_BREAK, 3),
    (&["why", "--all", "--line-buffered"], NO_BREAK, 2),
    (
        &["check", "--all", "--line-buffered", "twice.csv"],
        ONE_BREAK,
        3,
    ),
    (
        &["explain", "--line-buffered", "--all", "twice.csv"],
        ONE_BREAK,
        4,
    ),
];

#[test]
fn each_line_is_flushed_where_the_words_say_so(rt: HostRuntime) {
    for (words, end_of_report, flushes) in LINE_BY_LINE {
        let (_, writer) = end_on(&rt, *words, Narrow::new(rt.alloc(), usize::MAX));
        let ended = writer.taken.ends_with(end_of_report.as_bytes());
        same(&rt, (ended, writer.flushes), (true, *flushes), *words);
    }
}

#[test]
fn a_writer_that_fails(rt: HostRuntime) {
    let asked: [(&[&str], &str); 6] = [
        (&["check"], YES),
        (&["explain"], YES),
        (&["run"], YES),
        (&["why"], YES),
        (&["check", "--all"], NO_BREAK),
        (&["explain", "--all"], NO_BREAK),
    ];
    for (words, line) in &asked {
        let (end, writer) = end_on(&rt, *words, Narrow::new(rt.alloc(), 4));
        same(&rt, is_told(&end, 4, Message::WriteFault), true, *words);
        let counts = (writer.taken.len(), writer.failures, writer.flushes);
        same(&rt, counts, (4, 1, 0), *words);
        let (end, writer) = end_on(&rt, *words, Narrow::that_fails_to_flush(rt.alloc()));
        same(&rt, is_told(&end, 4, Message::WriteFault), true, *words);
        took_to_the_end(&rt, &writer, line.as_bytes());
    }
}

#[test]
fn what_is_made_is_asked_of_the_maker(rt: HostRuntime) {
    let table: [(&[&str], u8); 4] = [
        (&["digest"], 101),
        (&["digest", "--all", "twice.csv"], 101),
        (&["info"], 102),
        (&["page"], 103),
    ];
    for (words, status) in &table {
        let (end, writer) = end_on(&rt, *words, Narrow::new(rt.alloc(), usize::MAX));
        same(&rt, is_told(&end, *status, Message::Nothing), true, *words);
        took(&rt, &writer, b"", 0, 0);
    }
}
