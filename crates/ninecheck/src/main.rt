//! Judges a capture as the words of the command line say: the report on standard output, what went wrong on
//! standard error.
#![tactic(auto)]

mod maker;
mod source;

use crate::maker::maker;
use crate::source::Source;
use program9::{End, Message, run_program};
use std::alloc::{AllocError, Global};
use std::fmt::Display;
use std::process::ExitCode;
use std::{env, fs, io};
use words9::{WordsFault, hint_for};

fn main(rt: HostRuntime) -> ExitCode {
    let words = arguments(&rt);
    let open = |file: &Option<String>| match file {
        None => Ok(Source::Standard(rt.reader())),
        Some(name) => Ok(Source::File(open_file(&rt, name.as_str())?)),
    };
    let open_other = |file: &String| open_file(&rt, file.as_str());
    let out = io::writer(&rt);
    let (end, _) = run_program(rt.alloc(), words, open_other, open, &maker(&rt), out);
    tell(&rt, &end);
    ExitCode::from(end.status())
}

/// Opens a file. A directory, which the system opens and refuses to read, is refused here, so that it is told by its name.
fn open_file(rt: &HostRuntime, name: &str) -> io::Result<fs::File> {
    let file = fs::open(rt, name)?;
    match file.metadata() {
        Ok(told) if told.is_dir() => Err(io::Error::from(io::ErrorKind::IsADirectory)),
        _ => Ok(file),
    }
}

/// The words of the command line after the program's own name. There is no text for the user where one of them
/// is not UTF-8.
fn arguments(rt: &HostRuntime) -> Result<Vec<String>, WordsFault> {
    let all = env::args(rt).map_err(|e| match e.kind() {
        io::ErrorKind::OutOfMemory => WordsFault::NoMemory,
        _ => WordsFault::Usage(None),
    })?;
    all.skip(1)
        .collect(rt.alloc())
        .map_err(|_| WordsFault::NoMemory)
}

/// Prints what there is to be said of the end. Nothing is left to be told where this can't be written either.
fn tell(rt: &HostRuntime, end: &End) {
    let _ = match end {
        End::Usage(Some(text)) if text.use_stderr() => tell_plainly(rt, text, ""),
        End::Usage(Some(help)) => help.print(rt),
        End::Usage(None) => eprintln!(rt;
            "error: a word of the command line is not UTF-8\npass a file with such a name on standard input: ninecheck check < FILE"
        ),
        End::NoValue(text) => tell_plainly(rt, text, "\n"),
        End::Told(outcome) => match &outcome.message {
            Message::Nothing => Ok(()),
            message => tell_plainly(rt, message, "\n"),
        },
    };
    if let Some(hint) = hint_of(rt, end) {
        let _ = eprintln!(rt; "{hint}");
    }
}

/// Prints a text on standard error, and this behind it. Names and rows may hold anything: what a terminal would act on is shown as a
/// question mark. Where memory is refused for that, the text stands as it is.
fn tell_plainly<T: Display>(rt: &HostRuntime, text: &T, end: &str) -> io::Result<()> {
    match plain(rt.alloc(), text) {
        Ok(plain) => eprint!(rt; "{plain}{end}"),
        Err(_) => eprint!(rt; "{text}{end}"),
    }
}

/// A text without what a terminal acts on, but line feeds.
fn plain<T: Display>(alloc: Global, text: &T) -> Result<String, AllocError> {
    let mut plain = String::new(alloc);
    for character in text.to_string(alloc)?.chars() {
        let is_acted_on = character.is_control() && character != '\n';
        plain.push(if is_acted_on { '?' } else { character })?;
    }
    Ok(plain)
}

/// What is said below a usage error that does not say what to do.
fn hint_of(rt: &HostRuntime, end: &End) -> Option<&'static str> {
    let End::Usage(Some(text)) = end else {
        return None;
    };
    let words = arguments(rt).ok()?;
    hint_for(words.as_slice(), text)
}
