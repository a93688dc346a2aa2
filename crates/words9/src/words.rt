//! From the words of the command line to a task.
ghost use Rattle.std.specs.Prelude.{◌≡◌, ◌≢◌, IfErr, IfOk, MatchOption, Option, Err, codes, map, option_map};
ghost use Rattle.std.specs.String.{string_bytes};
ghost use Rattle.clap.specs.Words.{first_of, found_of, kind_of, rows_of};
ghost use Rattle.clap.specs.declared.error.Error.{Error as ClapError};
ghost use Rattle.words9.specs.Values.{IsDrawingOf, count_of, said_if};
ghost use Rattle.words9.specs.Words.{AsksVersion, IsNoTask, IsNoValueOf, IsExportOf, IsTaskOf, MayAskVersion, asked_of, beginning_of, extent_of, hands_of, is_asked, is_export, is_on, is_pair, joined, name_of, rate_named, rate_of, report_of, shown, values_of};
ghost use Rattle.words9.specs.Working.{IsNoTaskOf, IsUnread};

use crate::stretch::stretch_of;
use crate::task::{
    Asked, Drawing, Export, ExportWords, Made, NoValue, Report, Task, Unfit, Verb, WordsFault,
};
use crate::times::read_count;
use crate::usage::{parsed, rate_names};
use clap::error::ErrorKind;
use clap::{ArgMatches, Error};
use deck9::Hands;
use report9::{Beginning, Detail, Extent, Stretch, TimeForm, View};
use std::alloc::{AllocError, Global};
use tc25::Rate;

/// The task that these words give: those of the command line after the program's own name.
///
/// The words are a subcommand, with it at most one file (two with `convert saleae`) and, before or after it, each at most once the
/// options that the subcommand has (`rules_of` of the definitions), `--deck` of a judging as often as there are sheets; or they are `--version` or `-V`. `json` may have the word `check`,
/// `explain`, `run` or `why` right behind it, and `convert` has `sigrok`, `saleae` or `log` there; the two are one subcommand. What
/// else the words may look like is `clap`'s own definition: so a value that begins with a minus sign needs the equals sign before it,
/// as in `--from=-1.5`.
///
/// * `Ok(task)` only where the definition takes the words. The task asks for the report of the subcommand and its options, and has
///   the file and the options that the definition gives for the words, and 25 frames a second where they name no rate; `touches` allows
///   hands. What is shown is from the time of `--from` to that of `--to`, and a picture is drawn by the numbers of `--at` and `--width`. Of
///   the options of an export or of a split it has the values as they stand: none of them is judged here, and none has to be there.
/// * `Err(Usage)` only where it does not take them, and they are not those that ask for the version. Words that ask for
///   help are not taken.
/// * `Err(Version)` only where they ask for the version, and that is, or may be, the first thing that stops the definition.
/// * `Err(NoValue)` only where the definition takes the words, and a value of `--from` or `--to` is no time, that of `--to` is no later
///   than that of `--from` (0 if left out), or one of `--at` or `--width` is no number that it may be. That of an export is not looked at.
/// * `Err(NoMemory)` where a growth of memory is refused.
pub fn read_words(alloc: Global, words: Vec<String>) -> Result<Task, WordsFault>
    ensures task { IfOk result (IsTaskOf (joined (map (λ s. string_bytes s) words.items))) }
    ensures usage { (e : Option ClapError) → result ≡ Err (WordsFault.Usage e)
        → IsNoTask (joined (map (λ s. string_bytes s) words.items))
        × ¬ (AsksVersion (joined (map (λ s. string_bytes s) words.items))) }
    ensures version { result ≡ Err WordsFault.Version
        → MayAskVersion (joined (map (λ s. string_bytes s) words.items)) }
    ensures no_value { (v : NoValue) → result ≡ Err (WordsFault.NoValue v)
        → IsNoValueOf (joined (map (λ s. string_bytes s) words.items)) v }
{
    match joined(words) {
        Ok(words) => read_joined(alloc, words.as_slice()),
        Err(_) => Err(WordsFault::NoMemory),
    }
}

/// The task that these words give, of which each names one thing.
fn read_joined(alloc: Global, words: &[String]) -> Result<Task, WordsFault>
    ensures task { IfOk result (IsTaskOf (map (λ s. string_bytes s) words.now)) }
    ensures usage { (e : Option ClapError) → result ≡ Err (WordsFault.Usage e)
        → IsNoTask (map (λ s. string_bytes s) words.now)
        × ¬ (AsksVersion (map (λ s. string_bytes s) words.now)) }
    ensures version { result ≡ Err WordsFault.Version
        → MayAskVersion (map (λ s. string_bytes s) words.now) }
    ensures no_value { (v : NoValue) → result ≡ Err (WordsFault.NoValue v)
        → IsNoValueOf (map (λ s. string_bytes s) words.now) v }
{
    let matches = match parsed(alloc, words, rate_names()) {
        Ok(matches) => matches,
        Err(e) => return Err(fault_of(e)),
    };
    let Some((name, found)) = matches.subcommand() else {
        return Err(WordsFault::Usage(None));
    };
    let Some(verb) = verb_of(name) else {
        return Err(WordsFault::Usage(None));
    };
    let stretch = stretch_of(alloc, found)?;
    let drawing = drawing_of(alloc, found)?;
    let Ok(file) = value_of(alloc, found, "FILE") else {
        return Err(WordsFault::NoMemory);
    };
    let Ok(sheets) = values_of(alloc, found, "deck") else {
        return Err(WordsFault::NoMemory);
    };
    let Ok(export) = export_of(alloc, found) else {
        return Err(WordsFault::NoMemory);
    };
    let hands = hands_of(verb, is_given(found, "hands"));
    let rate = rate_of(found);
    let asked = asked_of(verb, found, stretch, drawing);
    Ok(Task {
        asked,
        file,
        rate,
        hands,
        sheets,
        export,
    })
}

/// The words, where the first two may be one subcommand: `json` and the report that it is made of, or `convert` and the export.
fn joined(words: Vec<String>) -> Result<Vec<String>, AllocError>
    ensures { IfOk result (λ one. map (λ s. string_bytes s) one.items ≡ joined (map (λ s. string_bytes s) words.items)) }
{
    let mut words = words;
    if words.len() < 2 || !is_pair(words[0].as_str(), words[1].as_str()) {
        return Ok(words);
    }
    let mut both = words.remove(0);
    both.push_str(" ")?;
    both.push_str(words[0].as_str())?;
    words[0] = both;
    Ok(words)
}

/// Whether two words are one subcommand.
fn is_pair(first: &str, second: &str) -> bool
    ensures { result ≡ is_pair first.now second.now }
{
    (first == "json" && is_asked(second)) || (first == "convert" && is_export(second))
}

/// Whether `json` can be asked for this report.
fn is_asked(word: &str) -> bool
    ensures { result ≡ is_asked word.now }
{
    word == "check" || word == "explain" || word == "run" || word == "why"
}

/// Whether `convert` can be asked for this export.
fn is_export(word: &str) -> bool
    ensures { result ≡ is_export word.now }
{
    word == "sigrok" || word == "saleae" || word == "log"
}

/// What the options ask of a picture: the first break, and a width of 1,200 pixels, where they ask for nothing else.
fn drawing_of(alloc: Global, found: &ArgMatches<'_>) -> Result<Drawing, WordsFault>
    ensures drawing { IfOk result (IsDrawingOf (rows_of (found_of found.now))) }
    ensures fault { IfErr result (IsNoTaskOf (rows_of (found_of found.now))) }
{
    let at = number_of(alloc, found, "at", 1)?;
    let width = number_of(alloc, found, "width", 700)?;
    Ok(Drawing {
        at,
        width: width.unwrap_or(1200),
    })
}

/// The number that the subcommand was given with this option, which may be so small at least.
fn number_of(
    alloc: Global,
    found: &ArgMatches<'_>,
    option: &'static str,
    least: u32,
) -> Result<Option<u32>, WordsFault>
    ensures number { IfOk result (λ number. said_if (count_of least) (first_of option.now (rows_of (found_of found.now))) ≡ Some number) }
    ensures fault { IfErr result (IsUnread (count_of least) option.now (rows_of (found_of found.now))) }
{
    let Ok(value) = value_of(alloc, found, option) else {
        return Err(WordsFault::NoMemory);
    };
    let Some(value) = value else {
        return Ok(None);
    };
    match read_count(value.as_str()) {
        Some(number) if number >= least => Ok(Some(number)),
        _ => Err(WordsFault::NoValue(NoValue {
            option,
            value,
            unfit: Unfit::Malformed,
        })),
    }
}

/// What the words of an export or of a split say. Another subcommand has none of these.
fn export_of(alloc: Global, found: &ArgMatches<'_>) -> Result<ExportWords, AllocError>
    ensures { IfOk result (IsExportOf (rows_of (found_of found.now))) }
{
    Ok(ExportWords {
        deck_file: value_of(alloc, found, "DECK-FILE")?,
        samplerate: value_of(alloc, found, "samplerate")?,
        controller: value_of(alloc, found, "controller")?,
        deck: value_of(alloc, found, "export-deck")?,
        unit: value_of(alloc, found, "unit")?,
        from: value_of(alloc, found, "export-from")?,
        to: value_of(alloc, found, "export-to")?,
        name: value_of(alloc, found, "part-name")?,
        rows: value_of(alloc, found, "rows")?,
        live: is_given(found, "live"),
    })
}

/// What the subcommand of this verb asks of the capture, by its options, where this stretch is shown and this is asked of a picture.
fn asked_of(verb: Verb, found: &ArgMatches<'_>, stretch: Stretch, drawing: Drawing) -> Asked
    ensures { result ≡ asked_of verb (rows_of (found_of found.now)) stretch drawing }
{
    Asked {
        report: report_of(
            verb,
            is_given(found, "all"),
            is_given(found, "bytes"),
            is_given(found, "seconds"),
        ),
        beginning: beginning_of(is_given(found, "sync")),
        stretch,
        drawing,
        line_buffered: is_given(found, "line-buffered"),
        quiet: is_given(found, "quiet"),
    }
}

/// What a verb makes, where the words say `--all`, `--bytes` and `--seconds` or not.
fn report_of(verb: Verb, all: bool, bytes: bool, seconds: bool) -> Report
    ensures { result ≡ report_of verb all bytes seconds }
{
    let explained = View::Explain(if bytes { Detail::Bytes } else { Detail::Names });
    match verb {
        Verb::Check => shown(all, View::Verdict),
        Verb::Explain => shown(all, explained),
        Verb::Why => shown(all, View::Why),
        Verb::Run => Report::Run,
        Verb::Digest => Report::Made(Made::Digest(extent_of(all))),
        Verb::Delays => Report::Made(Made::Delays(extent_of(all))),
        Verb::Motion => Report::Made(Made::Motion(extent_of(all))),
        Verb::Json | Verb::JsonExplain => Report::Made(Made::Json(explained, extent_of(all))),
        Verb::JsonCheck => Report::Made(Made::Json(View::Verdict, extent_of(all))),
        Verb::JsonWhy => Report::Made(Made::Json(View::Why, extent_of(all))),
        Verb::JsonRun => Report::Made(Made::JsonRun),
        Verb::Clock if seconds => Report::Made(Made::Clock(TimeForm::Seconds)),
        Verb::Clock => Report::Made(Made::Clock(TimeForm::Clock)),
        Verb::Info => Report::Made(Made::Info),
        Verb::Try => Report::Made(Made::Try(extent_of(all))),
        Verb::Touches => Report::Made(Made::Touches),
        Verb::Picture => Report::Made(Made::Picture(extent_of(all))),
        Verb::Page => Report::Made(Made::Page),
        Verb::ConvertSigrok => Report::Made(Made::Convert(Export::Sigrok)),
        Verb::ConvertSaleae => Report::Made(Made::Convert(Export::Saleae)),
        Verb::ConvertLog => Report::Made(Made::Convert(Export::Log)),
        Verb::Split => Report::Made(Made::Split),
    }
}

/// What the view shows: of each part where the words say `--all`, and else to the first break.
fn shown(all: bool, view: View) -> Report
    ensures { result ≡ shown all view }
{
    if all {
        Report::Parts(view)
    } else {
        Report::ToBreak(view)
    }
}

/// How far the judging goes, where the words say `--all` or not.
fn extent_of(all: bool) -> Extent
    ensures { result ≡ extent_of all }
{
    if all {
        Extent::WholeCapture
    } else {
        Extent::FirstBreak
    }
}

/// With which record the judging begins, where the words say `--sync` or not.
fn beginning_of(sync: bool) -> Beginning
    ensures { result ≡ beginning_of sync }
{
    if sync {
        Beginning::FirstCommand
    } else {
        Beginning::FirstRecord
    }
}

/// Whether somebody may have touched the panel: where the words say `--hands`, and always with `touches`, which asks where.
fn hands_of(verb: Verb, given: bool) -> Hands
    ensures { result ≡ hands_of verb given }
{
    match verb {
        Verb::Touches => Hands::Allowed,
        _ if given => Hands::Allowed,
        _ => Hands::None,
    }
}

/// The fault of words that `clap` refuses.
fn fault_of(e: Error) -> WordsFault
    ensures usage { (o : Option ClapError) → result ≡ WordsFault.Usage o
        → (kind_of e ≢ ErrorKind.OutOfMemory) × (kind_of e ≢ ErrorKind.DisplayVersion) }
    ensures version { result ≡ WordsFault.Version → kind_of e ≡ ErrorKind.DisplayVersion }
    ensures no_value { (v : NoValue) → result ≢ WordsFault.NoValue v }
{
    match e.kind() {
        ErrorKind::OutOfMemory => WordsFault::NoMemory,
        ErrorKind::DisplayVersion => WordsFault::Version,
        _ => WordsFault::Usage(Some(e)),
    }
}

/// The verb that a subcommand's name stands for.
fn verb_of(name: &str) -> Option<Verb>
    ensures { MatchOption result ((v : Verb) → name.now ≢ name_of v) (λ v. name.now ≡ name_of v) }
{
    match name {
        "check" => Some(Verb::Check),
        "explain" => Some(Verb::Explain),
        "run" => Some(Verb::Run),
        "why" => Some(Verb::Why),
        "digest" => Some(Verb::Digest),
        "delays" => Some(Verb::Delays),
        "motion" => Some(Verb::Motion),
        "json" => Some(Verb::Json),
        "json check" => Some(Verb::JsonCheck),
        "json explain" => Some(Verb::JsonExplain),
        "json run" => Some(Verb::JsonRun),
        "json why" => Some(Verb::JsonWhy),
        "clock" => Some(Verb::Clock),
        "info" => Some(Verb::Info),
        "try" => Some(Verb::Try),
        "touches" => Some(Verb::Touches),
        "picture" => Some(Verb::Picture),
        "page" => Some(Verb::Page),
        "convert sigrok" => Some(Verb::ConvertSigrok),
        "convert saleae" => Some(Verb::ConvertSaleae),
        "convert log" => Some(Verb::ConvertLog),
        "split" => Some(Verb::Split),
        _ => None,
    }
}

/// What the subcommand was given for this argument.
pub(crate) fn value_of(
    alloc: Global,
    found: &ArgMatches<'_>,
    argument: &str,
) -> Result<Option<String>, AllocError>
    ensures { IfOk result (λ value. option_map string_bytes value
        ≡ first_of argument.now (rows_of (found_of found.now))) }
{
    match found.get_str(argument) {
        Some(value) => Ok(Some(String::from_str(alloc, value)?)),
        None => Ok(None),
    }
}

/// All that the subcommand was given for this argument, in the order of the words.
fn values_of(
    alloc: Global,
    found: &ArgMatches<'_>,
    argument: &str,
) -> Result<Vec<String>, AllocError>
    ensures { IfOk result (λ values. map (λ s. string_bytes s) values.items ≡ values_of argument.now (rows_of (found_of found.now))) }
{
    let mut values = Vec::new(alloc);
    let Some(given) = found.get_raw(argument) else {
        return Ok(values);
    };
    for value in given {
        values.push(String::from_str(alloc, value)?)?;
    }
    Ok(values)
}

/// The rate that the subcommand was given: 25 where it was given none.
fn rate_of(found: &ArgMatches<'_>) -> Rate
    ensures { result ≡ rate_of (first_of (codes "rate") (rows_of (found_of found.now))) }
{
    match found.get_str("rate") {
        Some(name) => rate_named(name),
        None => Rate::Fps25,
    }
}

/// The rate with this name. `clap` lets no names through but these and that of 25.
fn rate_named(name: &str) -> Rate
    ensures { result ≡ rate_named name.now }
{
    match name {
        "24" => Rate::Fps24,
        "30" => Rate::Fps30,
        "29.97df" => Rate::DropFrame,
        _ => Rate::Fps25,
    }
}

/// Whether the subcommand was given this option. One that it does not have, it was not given.
fn is_given(found: &ArgMatches<'_>, option: &str) -> bool
    ensures { result ≡ is_on (first_of option.now (rows_of (found_of found.now))) }
{
    match found.get_str(option) {
        Some(text) => text == "true",
        None => false,
    }
}
