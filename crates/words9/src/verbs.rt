//! The words of the verbs, and their lines of help.
ghost use Rattle.std.specs.Prelude.{◌≡◌};
ghost use Rattle.words9.specs.Words.{name_of};

use crate::task::Verb;

/// A verb's word. Of `json` or `convert` with another word the two are one, with a blank between.
pub(crate) fn name_of<'a>(verb: Verb) -> &'a str
    ensures { result.now ≡ name_of verb }
{
    match verb {
        Verb::Check => "check",
        Verb::Explain => "explain",
        Verb::Run => "run",
        Verb::Why => "why",
        Verb::Digest => "digest",
        Verb::Delays => "delays",
        Verb::Motion => "motion",
        Verb::Json => "json",
        Verb::JsonCheck => "json check",
        Verb::JsonExplain => "json explain",
        Verb::JsonRun => "json run",
        Verb::JsonWhy => "json why",
        Verb::Clock => "clock",
        Verb::Info => "info",
        Verb::Try => "try",
        Verb::Touches => "touches",
        Verb::Picture => "picture",
        Verb::Page => "page",
        Verb::ConvertSigrok => "convert sigrok",
        Verb::ConvertSaleae => "convert saleae",
        Verb::ConvertLog => "convert log",
        Verb::Split => "split",
    }
}

/// A verb's line of help.
pub(crate) fn about<'a>(verb: Verb) -> &'a str {
    match verb {
        Verb::Check =>
            "Say whether the capture keeps the protocol, or which record breaks it first",
        Verb::Explain =>
            "The same, after a line for each exchange: command, reply, and what is known of the deck",
        Verb::Run =>
            "Write one run of the deck that explains the replies: the deck's state after each exchange",
        Verb::Why =>
            "Say why the answer is no: what was open at the break, or which replies contradict one another",
        Verb::Digest =>
            "Tell what happened: each command, and each query that changed what is known; others are counted",
        Verb::Delays => "Count how long the deck took to reply, for each command and overall",
        Verb::Motion =>
            "Tell what the deck did after each transport command that it acknowledged; nothing is judged",
        Verb::Json => "Write a JSON object for each line of explain",
        Verb::JsonCheck => "Write a JSON object for each line of check",
        Verb::JsonExplain => "The same as json",
        Verb::JsonRun => "Write a JSON object for each line of run",
        Verb::JsonWhy => "Write a JSON object for each line of why",
        Verb::Clock =>
            "Write the times of a text as a clock: of a report, of a digest or of a motion",
        Verb::Info =>
            "Tell what the capture says of itself, and what to look at before anybody is blamed; nothing is judged",
        Verb::Try =>
            "Judge the capture at each frame rate, without hands and with, and with a sheet: a line for each",
        Verb::Touches =>
            "Tell where somebody must have touched the deck's front panel, as seldom as possible, and what changed",
        Verb::Picture =>
            "Draw the record that breaks a rule, or the replies that contradict one another, as an SVG",
        Verb::Page => "Make one page of the whole session (HTML), to look at and to send on",
        Verb::ConvertSigrok => "Make a capture of what sigrok-cli printed of both wires",
        Verb::ConvertSaleae =>
            "Make a capture of the table of two Async Serial analyzers of Saleae Logic",
        Verb::ConvertLog => "Make a capture of a serial log of two ports",
        Verb::Split =>
            "Cut a long capture into parts that begin between exchanges: NAME-001.csv, NAME-002.csv and so on",
    }
}
