//! The deck's sheet, from the words that name it to the end, over readers that are made here.

use crate::tests::makers::Idle;
use crate::tests::programs::{is_told, words_of};
use crate::tests::same;
use crate::tests::writers::{Narrow, took};
use program9::{End, Message, Outcome, Unopened, UnreadSheet, WhyUnopened, run_program};
use sheet9::{EntryFault, Refusal, TableName};
use std::io;
use words9::WordsFault;

/// A deck in REMOTE, a preset of IN to 10:00:00:00, FULL EE ON, and a sense of IN that is answered with 00:00:00:00.
const LOST: &str = "time_us,wire,byte
400,C,61
800,C,20
1200,C,01
1600,C,82
2000,D,71
2400,D,20
2800,D,00
3200,D,91
3600,C,44
4000,C,14
4400,C,00
4800,C,00
5200,C,00
5600,C,10
6000,C,68
6400,D,10
6800,D,01
7200,D,11
7600,C,20
8000,C,61
8400,C,81
8800,D,10
9200,D,01
9600,D,11
10000,C,60
10400,C,10
10800,C,70
11200,D,74
11600,D,10
12000,D,00
12400,D,00
12800,D,00
13200,D,00
13600,D,84
";

/// What is answered without a sheet, and where hands may have set IN again; and with a sheet by which FULL EE ON forgets nothing.
const YES: &str = "yes: records 34, exchanges 4, open 0\n";

const NO: &str = "no at record 34: M1 no run remains\n";

/// What stands for the sheets.
fn sheet<'a>(file: &String) -> io::Result<&'a [u8]> {
    match file.as_str() {
        "empty" => Ok(b""),
        "edit.toml" => Ok(b"[forgets]\n\"20 61\" = \"nothing\"\n"),
        "next" => Ok(b"[forgets]\n\"20 62\" = \"nothing\"\n"),
        "sense" => Ok(b"[forgets]\n\"61 20\" = \"nothing\"\n"),
        "torn" => Ok(b"[forgets\n"),
        "folder" => Err(io::Error::from(io::ErrorKind::IsADirectory)),
        "large" => Err(io::Error::from(io::ErrorKind::OutOfMemory)),
        _ => Err(io::Error::from(io::ErrorKind::NotFound)),
    }
}

/// The capture, where it is opened: it is none where a sheet is refused.
fn capture<'a>(file: &Option<String>) -> io::Result<&'a [u8]> {
    match file {
        None => Ok(LOST.as_bytes()),
        Some(_) => Err(io::Error::from(io::ErrorKind::PermissionDenied)),
    }
}

/// The end of the program on these words, before a writer that takes all.
fn end_on(rt: &HostRuntime, words: &[&str]) -> (End, Narrow) {
    let words = words_of(rt.alloc(), words).map_err(|_| WordsFault::NoMemory);
    let writer = Narrow::new(rt.alloc(), usize::MAX);
    run_program(
        rt.alloc(),
        words,
        |file| sheet(file),
        |file| capture(file),
        &Idle,
        writer,
    )
}

#[test]
fn a_sheet_holds_the_deck_to_more(rt: HostRuntime) {
    let table: [(&[&str], u8, &str); 5] = [
        (&["check"], 0, YES),
        (&["check", "--deck", "empty"], 0, YES),
        (&["check", "--deck", "next"], 0, YES),
        (&["check", "--deck", "edit.toml"], 1, NO),
        (&["explain", "--hands", "--deck", "edit.toml"], 0, YES),
    ];
    for (words, status, line) in &table {
        let (end, writer) = end_on(&rt, *words);
        same(&rt, is_told(&end, *status, Message::Nothing), true, *words);
        let told = writer.taken.as_slice();
        same(&rt, told.ends_with(line.as_bytes()), true, *words);
    }
}

#[test]
fn a_sheet_that_is_none(rt: HostRuntime) {
    let (end, writer) = end_on(&rt, &["check", "--deck", "sense", "forbidden.csv"]);
    let key = String::from_str(rt.alloc(), "61 20").expect(&rt, "memory");
    let (table, fault) = (TableName::Forgets, EntryFault::Sense);
    let sense = UnreadSheet {
        file: String::from_str(rt.alloc(), "sense").expect(&rt, "memory"),
        refusal: Refusal::Entry { table, key, fault },
    };
    same(
        &rt,
        is_told(&end, 3, Message::UnreadableSheet(sense)),
        true,
        "sense",
    );
    took(&rt, &writer, b"", 0, 0);
    let (end, writer) = end_on(&rt, &["check", "--deck", "torn", "forbidden.csv"]);
    let torn = UnreadSheet {
        file: String::from_str(rt.alloc(), "torn").expect(&rt, "memory"),
        refusal: Refusal::NotToml { line: 1 },
    };
    same(
        &rt,
        is_told(&end, 3, Message::UnreadableSheet(torn)),
        true,
        "torn",
    );
    took(&rt, &writer, b"", 0, 0);
}

#[test]
fn a_sheet_that_is_not_opened(rt: HostRuntime) {
    let table = [
        ("absent", WhyUnopened::NotFound),
        ("folder", WhyUnopened::IsADirectory),
    ];
    for (name, why) in &table {
        let (end, writer) = end_on(&rt, &["check", "--deck", *name]);
        let file = Some(String::from_str(rt.alloc(), *name).expect(&rt, "memory"));
        let unopened = Unopened { file, why: *why };
        same(
            &rt,
            is_told(&end, 4, Message::CannotOpenSheet(unopened)),
            true,
            *name,
        );
        took(&rt, &writer, b"", 0, 0);
    }
    let (end, writer) = end_on(&rt, &["check", "--deck", "large"]);
    same(&rt, is_told(&end, 5, Message::NoMemory), true, "large");
    took(&rt, &writer, b"", 0, 0);
}
