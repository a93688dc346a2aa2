//! A line below words that are no command, for what the refusal does not say: what to do instead.

use clap::Error;
use clap::error::ErrorKind;

const FILE_BEHIND: &str =
    "a file comes behind a word: ninecheck check FILE; ninecheck --help has all words";

const OPTIONS_BEHIND: &str =
    "options come behind the word: ninecheck check --rate 30 FILE; ninecheck --help has all words";

const ALL_WORDS: &str =
    "ninecheck --help says what each word does; ninecheck check FILE is the first";

const EXPORTS: &str =
    "convert is followed by sigrok, saleae or log; ninecheck convert log --help has its options";

const JSON: &str = "json is followed by check, explain, run or why, or by a file alone";

const JSON_HELP: &str = "ninecheck json why --help has its options, and so with each";

const ONE_FILE: &str =
    "one capture at a time: docs/CAPTURE.md has a line that judges a folder of them";

/// What to do where words are refused so; nothing where the refusal says it, or where they ask for help.
pub fn hint_for(words: &[String], fault: &Error) -> Option<&'static str> {
    if !fault.use_stderr() {
        return None;
    }
    let kind = fault.kind();
    match rate_hint(words) {
        Some(hint) if kind == ErrorKind::InvalidValue => Some(hint),
        _ => word_hint(words, kind),
    }
}

/// What to do where the refusal is not of a rate.
fn word_hint(words: &[String], kind: ErrorKind) -> Option<&'static str> {
    let first = word_at(words, 0);
    match kind {
        ErrorKind::MissingSubcommand => Some(ALL_WORDS),
        ErrorKind::InvalidSubcommand => verb_hint(first, word_at(words, 1)),
        ErrorKind::UnknownArgument if first.starts_with("-") => Some(OPTIONS_BEHIND),
        ErrorKind::UnknownArgument => argument_hint(words, first),
        _ => None,
    }
}

/// The word in this place; an empty one where there are not so many.
fn word_at(words: &[String], place: usize) -> &str {
    match words.get(place) {
        Some(word) => word.as_str(),
        None => "",
    }
}

/// What to do where there is no such word as the first, or none of which `help` is asked.
fn verb_hint(first: &str, second: &str) -> Option<&'static str> {
    match (first, second) {
        ("convert", _) | ("help", "convert") => Some(EXPORTS),
        ("help", "json") => Some(JSON_HELP),
        ("help", "--help" | "-h") => Some(ALL_WORDS),
        _ if first.contains('.') || first.contains('/') => Some(FILE_BEHIND),
        _ => None,
    }
}

/// What to do where a word does not take one that stands behind it.
fn argument_hint(words: &[String], verb: &str) -> Option<&'static str> {
    let mut files = 0u32;
    let mut hint = None;
    let mut is_time = false;
    for word in words.iter().skip(1) {
        let word = word.as_str();
        let is_option = word.starts_with("-");
        hint = match hint {
            None if is_time && is_option => Some(minus_hint(verb)),
            None => foreign_hint(verb, name_of(word)),
            hint => hint,
        };
        files = files.saturating_add(u32::from(!is_time && !is_option));
        is_time = matches!(word, "--from" | "--to");
    }
    hint.or(files_hint(verb, word_at(words, 1), files))
}

/// The name of an option, without the value that may stand behind an equals sign.
fn name_of(option: &str) -> &str {
    match option.split_once('=') {
        Some((name, _)) => name,
        None => option,
    }
}

/// What to do where a value begins with a minus sign.
fn minus_hint(verb: &str) -> &'static str {
    match verb {
        "convert" =>
            "a value that begins with a minus sign stands behind an equals sign: --from=-1.5",
        _ => "a time is no less than 0",
    }
}

/// What to do where so many files, or words that are none, stand behind a word, of which this is the first.
fn files_hint(verb: &str, first: &str, files: u32) -> Option<&'static str> {
    match (verb, first) {
        ("convert" | "split", _) => None,
        _ if files < 2 => None,
        ("json", "check" | "explain" | "run" | "why") => Some(ONE_FILE),
        ("json", _) => Some(JSON),
        _ => Some(ONE_FILE),
    }
}

/// Which words take an option, where this one is none of them.
fn foreign_hint(verb: &str, option: &str) -> Option<&'static str> {
    let (takes, hint) = match option {
        "--from" | "--to" => (
            matches!(
                verb,
                "digest" | "delays" | "motion" | "json" | "page" | "convert" | "split"
            ),
            "--from and --to are options of digest, delays, motion, json, page and convert",
        ),
        "--at" | "--width" => (verb == "picture", "--at and --width are options of picture"),
        "--quiet" => (verb == "why", "--quiet is an option of why"),
        "--seconds" => (verb == "clock", "--seconds is an option of clock"),
        "--rows" => (verb == "split", "--rows is an option of split"),
        "--samplerate" | "--controller" | "--unit" | "--live" => (
            verb == "convert",
            "--samplerate, --controller, --unit and --live are options of convert",
        ),
        "--bytes" => (
            !matches!(verb, "check" | "run" | "why" | "picture"),
            "--bytes is an option of explain and json",
        ),
        "--all" => (
            !matches!(verb, "run" | "touches"),
            "run and touches go to the first break alone",
        ),
        "--hands" => (
            !matches!(verb, "try" | "touches"),
            "try asks with hands and without, and touches always allows them",
        ),
        _ => return judging_hint(verb, option),
    };
    match takes {
        false => Some(hint),
        true => judging_hint(verb, option),
    }
}

/// What to say of an option of a judging where a word judges nothing.
fn judging_hint(verb: &str, option: &str) -> Option<&'static str> {
    let judges = match (verb, option) {
        ("clock" | "split", "--hands" | "--deck" | "--rate" | "--sync" | "--all") => false,
        ("convert", "--hands" | "--rate" | "--sync" | "--all") => false,
        ("info", "--hands" | "--deck" | "--all") => false,
        _ => true,
    };
    (!judges).then_some("info, clock, convert and split judge nothing")
}

/// How to ask at the rate that the last `--rate` of these words names, where it is one that the program has another name for.
fn rate_hint(words: &[String]) -> Option<&'static str> {
    let mut hint = None;
    let mut is_rate = false;
    for word in words {
        let word = word.as_str();
        if is_rate {
            hint = hint_at(word);
        } else if let Some(rate) = word.strip_prefix("--rate=") {
            hint = hint_at(rate);
        }
        is_rate = word == "--rate";
    }
    hint
}

/// How to ask at a rate that the program has another name for.
fn hint_at(rate: &str) -> Option<&'static str> {
    match rate {
        "29.97" | "29.97nd" | "29.97ndf" | "29,97" | "NTSC" | "ntsc" => Some(
            "for 29.97 frames a second ask with --rate 29.97df if it is drop frame, or with --rate 30 if it is not",
        ),
        "23.976" | "23.98" | "23,976" | "23,98" => {
            Some("for 23.976 frames a second ask with --rate 24")
        }
        "29.97DF" | "29,97df" | "30df" | "df" => Some("for drop frame ask with --rate 29.97df"),
        "25.0" | "25,0" | "25fps" | "PAL" | "pal" => {
            Some("for 25 frames a second ask with --rate 25")
        }
        "50" | "59.94" | "60" => Some(
            "time code counts half as many frames: ask with --rate 25 for 50, and with --rate 30 or 29.97df for 59.94 and 60",
        ),
        _ => None,
    }
}
