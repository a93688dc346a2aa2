//! What words ask for.

use crate::tests::same;
use deck9::Hands;
use report9::{Beginning, Detail, Stretch, View};
use std::alloc::{AllocError, Global};
use tc25::Rate;
use words9::{Asked, Drawing, Made, Report, Task, WordsFault, read_words};

/// What the verdict alone asks for, each exchange with its names, and why.
const VERDICT: View = View::Verdict;

const NAMES: View = View::Explain(Detail::Names);

const BYTES: View = View::Explain(Detail::Bytes);

/// The task of these words.
fn task_of(alloc: Global, words: &[&str]) -> Result<Task, WordsFault> {
    match owned(alloc, words) {
        Ok(words) => read_words(alloc, words),
        Err(_) => Err(WordsFault::NoMemory),
    }
}

fn owned(alloc: Global, words: &[&str]) -> Result<Vec<String>, AllocError> {
    let mut all = Vec::new(alloc);
    for word in words {
        all.push(String::from_str(alloc, word)?)?;
    }
    Ok(all)
}

/// Whether these words ask for this.
fn asks(alloc: Global, words: &[&str], wanted: &Wanted) -> bool {
    let Ok(task) = task_of(alloc, words) else {
        return false;
    };
    is_named(&task.file, wanted.file)
        && are_named(task.sheets.as_slice(), wanted.sheets)
        && task.asked.report == wanted.report
        && task.rate == Rate::Fps25
        && task.hands == wanted.hands
}

/// Whether this is the name that is wanted, or none.
fn is_named(name: &Option<String>, wanted: Option<&str>) -> bool {
    match (name, wanted) {
        (Some(name), Some(wanted)) => name.as_str() == wanted,
        (None, None) => true,
        _ => false,
    }
}

/// Whether these are the names that are wanted, in their order.
fn are_named(names: &[String], wanted: &[&str]) -> bool {
    for (place, name) in names.iter().enumerate() {
        if wanted.get(place) != Some(&name.as_str()) {
            return false;
        }
    }
    names.len() == wanted.len()
}

/// Whether these words are no command.
fn are_refused(alloc: Global, words: &[&str]) -> bool {
    match task_of(alloc, words) {
        Err(WordsFault::Usage(Some(_))) => true,
        _ => false,
    }
}

/// The task that words ask for.
struct Wanted {
    report: Report,
    file: Option<&'static str>,
    hands: Hands,
    sheets: &'static [&'static str],
}

/// tests/cases/words.txt has others. Here a file has a blank in its name, has an option's name beside the option, or has none.
const COMMANDS: &[(&'static [&'static str], Wanted)] = &[
    (
        &["check", "--deck", "edit.toml", "--deck=9pin", "a.csv"],
        Wanted {
            report: Report::ToBreak(VERDICT),
            file: Some("a.csv"),
            hands: Hands::None,
            sheets: &["edit.toml", "9pin"],
        },
    ),
    (
        &["run", "a.csv", "--hands", "--deck=--hands"],
        Wanted {
            report: Report::Run,
            file: Some("a.csv"),
            hands: Hands::Allowed,
            sheets: &["--hands"],
        },
    ),
    (
        &["why", "--", "--deck"],
        Wanted {
            report: Report::ToBreak(View::Why),
            file: Some("--deck"),
            hands: Hands::None,
            sheets: &[],
        },
    ),
    (
        &["explain", "a b", "--hands"],
        Wanted {
            report: Report::ToBreak(NAMES),
            file: Some("a b"),
            hands: Hands::Allowed,
            sheets: &[],
        },
    ),
    (
        &["check", "--hands", "--", "--hands"],
        Wanted {
            report: Report::ToBreak(VERDICT),
            file: Some("--hands"),
            hands: Hands::Allowed,
            sheets: &[],
        },
    ),
    (
        &["check", ""],
        Wanted {
            report: Report::ToBreak(VERDICT),
            file: Some(""),
            hands: Hands::None,
            sheets: &[],
        },
    ),
    (
        &["why", "--all", "--", "--all"],
        Wanted {
            report: Report::Parts(View::Why),
            file: Some("--all"),
            hands: Hands::None,
            sheets: &[],
        },
    ),
    (
        &["touches", "--deck", "edit.toml", "a.csv"],
        Wanted {
            report: Report::Made(Made::Touches),
            file: Some("a.csv"),
            hands: Hands::Allowed,
            sheets: &["edit.toml"],
        },
    ),
    (
        &["explain", "--all", "--hands"],
        Wanted {
            report: Report::Parts(NAMES),
            file: None,
            hands: Hands::Allowed,
            sheets: &[],
        },
    ),
];

#[test]
fn words_that_are_a_command(rt: HostRuntime) {
    for (words, wanted) in COMMANDS {
        same(&rt, asks(rt.alloc(), *words, wanted), true, *words);
    }
}

/// Words, what they ask for, from which record on, and whether line by line. tests/cases/ has what comes of them.
const ASKED: &[(&'static [&'static str], Report, bool, bool)] = &[
    (&["check"], Report::ToBreak(VERDICT), false, false),
    (&["check", "--all"], Report::Parts(VERDICT), false, false),
    (&["check", "--sync"], Report::ToBreak(VERDICT), true, false),
    (
        &["check", "--line-buffered"],
        Report::ToBreak(VERDICT),
        false,
        true,
    ),
    (
        &["check", "--line-buffered", "--all"],
        Report::Parts(VERDICT),
        false,
        true,
    ),
    (&["explain", "a.csv"], Report::ToBreak(NAMES), false, false),
    (
        &["explain", "--bytes"],
        Report::ToBreak(BYTES),
        false,
        false,
    ),
    (
        &["explain", "--all", "--line-buffered", "--sync"],
        Report::Parts(NAMES),
        true,
        true,
    ),
    (
        &["explain", "--line-buffered", "--bytes", "--all"],
        Report::Parts(BYTES),
        false,
        true,
    ),
    (&["run"], Report::Run, false, false),
    (&["run", "--sync"], Report::Run, true, false),
    (
        &["touches", "--sync"],
        Report::Made(Made::Touches),
        true,
        false,
    ),
    (&["why"], Report::ToBreak(View::Why), false, false),
    (
        &["why", "--quiet"],
        Report::ToBreak(View::Why),
        false,
        false,
    ),
    (
        &["why", "--all", "--line-buffered"],
        Report::Parts(View::Why),
        false,
        true,
    ),
];

#[test]
fn what_words_ask_for(rt: HostRuntime) {
    for (words, report, sync, line_buffered) in ASKED {
        let task = task_of(rt.alloc(), *words).ok().expect(&rt, "a task");
        let beginning = if *sync {
            Beginning::FirstCommand
        } else {
            Beginning::FirstRecord
        };
        let asked = Asked {
            report: *report,
            beginning,
            stretch: Stretch::ALL,
            drawing: Drawing {
                at: None,
                width: 1200,
            },
            line_buffered: *line_buffered,
            quiet: words.iter().any(|word| *word == "--quiet"),
        };
        same(&rt, task.asked, asked, *words);
    }
}

/// Words with a rate before and after the file, with none, and with the option's name for a file; their file and their rate.
const RATES: &[(&'static [&'static str], Option<&'static str>, Rate)] = &[
    (&["check", "--rate", "24"], None, Rate::Fps24),
    (
        &["explain", "--rate", "25", "a.csv"],
        Some("a.csv"),
        Rate::Fps25,
    ),
    (&["run", "--rate=30", "a.csv"], Some("a.csv"), Rate::Fps30),
    (
        &["why", "a.csv", "--rate", "29.97df"],
        Some("a.csv"),
        Rate::DropFrame,
    ),
    (&["check", "a.csv", "--rate=24"], Some("a.csv"), Rate::Fps24),
    (&["run", "--rate", "30", "30"], Some("30"), Rate::Fps30),
    (&["explain", "30"], Some("30"), Rate::Fps25),
    (&["why", "--", "--rate"], Some("--rate"), Rate::Fps25),
];

#[test]
fn words_that_name_a_rate(rt: HostRuntime) {
    for (words, file, rate) in RATES {
        let task = task_of(rt.alloc(), *words).ok().expect(&rt, "a task");
        let found = task.file.as_ref().map(|name| name.as_str());
        same(&rt, (found, task.rate), (*file, *rate), *words);
    }
}

/// tests/program/program.sh has others.
const REFUSED: &[&'static [&'static str]] = &[
    &[""],
    &["help", "--version"],
    &["run", "--all"],
    &["run", "--line-buffered"],
    &["touches", "--hands"],
    &["check", "--quiet"],
    &["check", "--bytes"],
    &["check", "--rate", "29.97"],
    &["check", "--rate", "29.97DF"],
    &["explain", "--rate", ""],
    &["explain", "--rate="],
    &["run", "--rate", "30", "a.csv", "--rate", "30"],
    &["why", "a.csv", "--rate"],
    &["why", "--rate", "--hands"],
    &["--rate", "25", "check"],
];

#[test]
fn words_that_are_none(rt: HostRuntime) {
    for words in REFUSED {
        same(&rt, are_refused(rt.alloc(), *words), true, *words);
    }
}
