//! The program's subcommands, their words and their lines of help, as `clap` is told them.
ghost use Rattle.std.specs.Prelude.{◌≡◌, IfOk, false, map};
ghost use Rattle.std.specs.String.{string_bytes};
ghost use Rattle.clap.specs.Words.{FailsBy, app_of, fault_of, new_app, rule_of, subcommand_of, subcommand_rows_of, with_subcommand};
ghost use Rattle.clap.specs.declared.builder.command.Command.TheViews.{out-Command as fields_of};
ghost use Rattle.words9.specs.Working.{rule_for, with_argument};
ghost use Rattle.words9.specs.Words.{AreRateNames, app_for, name_of, program, top};

use crate::arguments::{Argument, arguments_of};
use crate::task::{VERSION_LINE, Verb};
use crate::verbs::{about, name_of};
use clap::{Arg, ArgAction, ArgMatches, Command, Error};
use std::alloc::{AllocError, Global};

/// The program's name in its lines of help.
const NAME: &str = "ninecheck";

/// The verbs, in the order in which `help` lists them.
const VERBS: [Verb; 22] = [
    Verb::Check,
    Verb::Explain,
    Verb::Run,
    Verb::Why,
    Verb::Digest,
    Verb::Delays,
    Verb::Motion,
    Verb::Json,
    Verb::JsonCheck,
    Verb::JsonExplain,
    Verb::JsonRun,
    Verb::JsonWhy,
    Verb::Clock,
    Verb::Info,
    Verb::Try,
    Verb::Touches,
    Verb::Picture,
    Verb::Page,
    Verb::ConvertSigrok,
    Verb::ConvertSaleae,
    Verb::ConvertLog,
    Verb::Split,
];

/// The rates' names, in a struct for the proof's sake: the invariants of the loops below need the place of each name in memory, and see
/// it in a local struct alone.
#[derive(Clone, Copy)]
struct Names<'a> {
    rates: &'a [&'a str],
}

/// The names of the rates.
pub(crate) fn rate_names<'a>() -> &'a [&'a str]
    ensures { AreRateNames result }
{
    &["24", "25", "30", "29.97df"]
}

/// What `clap` makes of these words, where these are the names of the rates: the subcommand with its own words, or the first thing
/// that is wrong.
pub(crate) fn parsed<'a>(
    alloc: Global,
    words: &'a [String],
    rates: &'a [&'a str],
) -> Result<ArgMatches<'a>, Error>
    ensures matches { IfOk result (λ m. subcommand_rows_of m
        ≡ subcommand_of (program rates.entry) (map (λ s. string_bytes s) words.entry.now)) }
    ensures kinds { FailsBy (fault_of (program rates.entry) (map (λ s. string_bytes s) words.entry.now)) result }
{
    let command = whole(alloc, rates)?;
    command.try_get_matches_from(words)
}

/// The program with its subcommands.
fn whole<'a>(alloc: Global, rates: &'a [&'a str]) -> Result<Command<'a>, AllocError>
    ensures { IfOk result (λ c. app_of c ≡ program rates.entry) }
{
    let names = Names { rates };
    let mut command = above(alloc)?;
    for verb in VERBS {
        command = with_verb(alloc, command, verb, names.rates)?;
    }
    Ok(command)
}

/// A command with the subcommand of a verb.
fn with_verb<'a>(
    alloc: Global,
    command: Command<'a>,
    verb: Verb,
    rates: &'a [&'a str],
) -> Result<Command<'a>, AllocError>
    ensures { IfOk result (λ c. app_of c ≡ with_subcommand (app_of command.entry) (app_for rates.entry verb).top) }
{
    let subcommand = subcommand(alloc, verb, rates)?;
    command.subcommand(subcommand)
}

/// The program without its subcommands.
fn above<'a>(alloc: Global) -> Result<Command<'a>, AllocError>
    ensures { IfOk result (λ c. app_of c ≡ top) }
{
    let command = Command::new(alloc, NAME)
        .about("Checks a capture of the Sony 9-pin remote protocol (RS-422)")
        .version(VERSION_LINE)
        .no_binary_name(true)
        .subcommand_required(true);
    command.bin_name(NAME)
}

/// The subcommand of a verb: its word and its line of help, and then each file and option that it takes.
fn subcommand<'a>(
    alloc: Global,
    verb: Verb,
    rates: &'a [&'a str],
) -> Result<Command<'a>, AllocError>
    ensures app { IfOk result (λ c. app_of c ≡ app_for rates.entry verb) }
    ensures local { IfOk result (λ c. (fields_of c).has_globals ≡ false) }
{
    let names = Names { rates };
    let arguments = arguments_of(verb);
    let mut command = bare(alloc, verb);
    for argument in arguments {
        command = with_argument(alloc, command, *argument, names.rates)?;
    }
    Ok(command)
}

/// The subcommand of a verb, without its files and options.
fn bare<'a>(alloc: Global, verb: Verb) -> Command<'a>
    ensures app { app_of result ≡ new_app (name_of verb) }
    ensures local { (fields_of result).has_globals ≡ false }
{
    Command::new(alloc, name_of(verb)).about(about(verb))
}

/// The same command with one argument more.
fn with_argument<'a>(
    alloc: Global,
    command: Command<'a>,
    argument: Argument<'a>,
    rates: &'a [&'a str],
) -> Result<Command<'a>, AllocError>
    ensures app { IfOk result (λ c. app_of c ≡ with_argument rates.entry (app_of command.entry) argument.entry) }
    ensures local { (fields_of command.entry).has_globals ≡ false → IfOk result (λ c. (fields_of c).has_globals ≡ false) }
{
    command.arg(arg_of(alloc, argument, rates))
}

/// What `clap` is told of an argument, where these are the names of the rates.
fn arg_of<'a>(alloc: Global, argument: Argument<'a>, rates: &'a [&'a str]) -> Arg<'a>
    ensures rule { rule_of result ≡ rule_for rates.entry argument.entry }
    ensures local { result.global ≡ false }
{
    match argument {
        Argument::File(id, help) => Arg::new(alloc, id).help(help),
        Argument::Switch(id, help) => Arg::new(alloc, id)
            .long(id)
            .action(ArgAction::SetTrue)
            .help(help),
        Argument::Unoffered(id) => Arg::new(alloc, id)
            .long(id)
            .action(ArgAction::SetTrue)
            .hide(true),
        Argument::Value {
            id,
            long,
            value,
            help,
        } => Arg::new(alloc, id).long(long).value_name(value).help(help),
        Argument::Values {
            id,
            long,
            value,
            help,
        } => Arg::new(alloc, id)
            .long(long)
            .value_name(value)
            .action(ArgAction::Append)
            .help(help),
        Argument::Rate(help) => Arg::new(alloc, "rate")
            .long("rate")
            .value_name("RATE")
            .value_parser(rates)
            .hide_possible_values(true)
            .help(help),
    }
}
