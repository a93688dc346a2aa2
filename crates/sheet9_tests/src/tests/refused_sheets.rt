//! Texts that are refused, and what is said of them.

use crate::tests::one_sheet::read_sheet;
use sheet9::SheetsError;
use std::alloc::Global;
use std::process::Abort;
use std::test::Fail;

/// Texts, each with its refusal's.
const REFUSED: &[(&'static [u8], &'static str)] = &[
    (b"[forgets]\n\n\"20 61\" = \n", "line 3: not TOML"),
    (b"forgets = {", "line 1: not TOML"),
    (
        b"[forgets]\n\"20 61\" = \"tape\"\n\"20 61\" = \"tape\"\n",
        "line 3: not TOML",
    ),
    (b"# ok\n# \xFF\n", "line 2: not TOML"),
    // The first byte that is not UTF-8, though the first line is no TOML.
    (b"= 1\n\n\xC3\n", "line 3: not TOML"),
    (
        b"forget = 1",
        "\"forget\": unknown key: only [forgets], [goals], [loses], [names], [passes], [replies] and [runs] are read",
    ),
    (
        b"[Passes]\n[zzz]\n",
        "\"Passes\": unknown key: only [forgets], [goals], [loses], [names], [passes], [replies] and [runs] are read",
    ),
    (
        b"forgets = 1\n\"zz\" = 2",
        "\"zz\": unknown key: only [forgets], [goals], [loses], [names], [passes], [replies] and [runs] are read",
    ),
    (
        b"\"\" = 1",
        "\"\": unknown key: only [forgets], [goals], [loses], [names], [passes], [replies] and [runs] are read",
    ),
    (
        b"\"a\\n\\u001B[31m\\\"\\u00e9\" = 1",
        "\"a\\n\\x1b[31m\\\"\\xc3\\xa9\": unknown key: only [forgets], [goals], [loses], [names], [passes], [replies] and [runs] are read",
    ),
    (b"forgets = 1", "\"forgets\": not a table"),
    (
        b"forgets = [\"20 61\"]\npasses = 1",
        "\"forgets\": not a table",
    ),
    (b"[[forgets]]\n", "\"forgets\": not a table"),
    (b"passes = \"REC\"", "\"passes\": not a table"),
    // Sense requests that are listed.
    (
        b"[forgets]\n\"61 0C\" = \"nothing\"",
        "[forgets] \"61 0C\": a listed sense request: it changes nothing",
    ),
    (
        b"[forgets]\n\"61 0c\" = 1",
        "[forgets] \"61 0c\": a listed sense request: it changes nothing",
    ),
    (
        b"[forgets]\n\"61 20\" = \"tape\"",
        "[forgets] \"61 20\": a listed sense request: it changes nothing",
    ),
    (
        b"[forgets]\n\"20 0f\" = \"nothing\"\n\"20 0F\" = \"tape\"",
        "[forgets] \"20 0f\": named twice",
    ),
    (
        b"[forgets]\n\"20 6a\" = \"nothing\"\n\"20 6A\" = \"nothing\"",
        "[forgets] \"20 6a\": named twice",
    ),
    (
        b"[forgets]\n\"2 61\" = \"nothing\"",
        "[forgets] \"2 61\": not two bytes in hexadecimal, as \"20 61\"",
    ),
    (
        b"[forgets]\n\"020 61\" = \"nothing\"",
        "[forgets] \"020 61\": not two bytes in hexadecimal, as \"20 61\"",
    ),
    (
        b"[forgets]\n\"20  61\" = \"nothing\"",
        "[forgets] \"20  61\": not two bytes in hexadecimal, as \"20 61\"",
    ),
    (
        b"[forgets]\n\"20\\t61\" = \"nothing\"",
        "[forgets] \"20\\t61\": not two bytes in hexadecimal, as \"20 61\"",
    ),
    (
        b"[forgets]\n\"20 6g\" = \"nothing\"",
        "[forgets] \"20 6g\": not two bytes in hexadecimal, as \"20 61\"",
    ),
    (
        b"[forgets]\n2061 = \"nothing\"",
        "[forgets] \"2061\": not two bytes in hexadecimal, as \"20 61\"",
    ),
    (
        b"[forgets]\n\"10 01\" = \"nothing\"",
        "[forgets] \"10 01\": groups 1 and 7 are a deck's replies, not commands",
    ),
    (
        b"[forgets]\n\"7F FF\" = \"nothing\"",
        "[forgets] \"7F FF\": groups 1 and 7 are a deck's replies, not commands",
    ),
    (
        b"[forgets]\n\"20 61\" = \"Tape\"",
        "[forgets] \"20 61\": not \"nothing\", \"motion\", \"registers\", \"tape\" or \"everything\"",
    ),
    (
        b"[forgets]\n\"20 61\" = 1",
        "[forgets] \"20 61\": not \"nothing\", \"motion\", \"registers\", \"tape\" or \"everything\"",
    ),
    (
        b"[forgets]\n\"20 61\" = [\"tape\"]",
        "[forgets] \"20 61\": not \"nothing\", \"motion\", \"registers\", \"tape\" or \"everything\"",
    ),
    // The first key in order, and [forgets] before [passes].
    (
        b"[passes]\nX = 1\n[forgets]\n\"20 62\" = 1\n\"20 61\" = 1",
        "[forgets] \"20 61\": not \"nothing\", \"motion\", \"registers\", \"tape\" or \"everything\"",
    ),
    (b"names = []", "\"names\": not a table"),
    (
        b"names = 1\npasses = 1\n[forgets]\n\"20 61\" = 1",
        "[forgets] \"20 61\": not \"nothing\", \"motion\", \"registers\", \"tape\" or \"everything\"",
    ),
    (b"names = 1\npasses = 1", "\"names\": not a table"),
    (b"goals = 1", "\"goals\": not a table"),
    (
        b"names = 1\n[goals]\n\"20 65\" = 1",
        "[goals] \"20 65\": not a list of modes, as [\"SHUTTLE\", \"JOG\"]",
    ),
    (
        b"[forgets]\n\"20 61\" = 1\n[goals]\n\"20 65\" = 1",
        "[forgets] \"20 61\": not \"nothing\", \"motion\", \"registers\", \"tape\" or \"everything\"",
    ),
    (
        b"[goals]\n\"20 65 01\" = [\"REC\"]",
        "[goals] \"20 65 01\": not two bytes in hexadecimal, as \"20 61\"",
    ),
    (
        b"[goals]\n\"72 20\" = [\"REC\"]",
        "[goals] \"72 20\": groups 1 and 7 are a deck's replies, not commands",
    ),
    (
        b"[goals]\n\"20 01\" = 1",
        "[goals] \"20 01\": a listed command: the rules say where it leads",
    ),
    (
        b"[goals]\n\"61 0C\" = 1",
        "[goals] \"61 0C\": a listed command: the rules say where it leads",
    ),
    (
        b"[goals]\n\"40 2D\" = 1",
        "[goals] \"40 2D\": a command of another group than 2 leads to no mode",
    ),
    (
        b"[goals]\n\"20 65\" = \"REC\"",
        "[goals] \"20 65\": not a list of modes, as [\"SHUTTLE\", \"JOG\"]",
    ),
    (
        b"[goals]\n\"20 65\" = []\n[forgets]\n\"20 65\" = \"tape\"",
        "[goals] \"20 65\": an empty list: at least one mode is wanted",
    ),
    (
        b"[goals]\n\"20 65\" = [\"REC\", 1]",
        "[goals] \"20 65\": not a list of modes, as [\"SHUTTLE\", \"JOG\"]",
    ),
    (
        b"[goals]\n\"20 65\" = [\"REC\", \"rec\"]\n[forgets]\n\"20 65\" = \"tape\"",
        "[goals] \"20 65\": \"rec\" is not STOP, PLAY, REC, FF, REW, SHUTTLE, JOG, VAR, CUED or EJECT",
    ),
    (
        b"[goals]\n\"20 65\" = [\"REC\"]\n[forgets]\n\"20 65\" = \"motion\"",
        "[goals] \"20 65\": [forgets] has another word for it than \"nothing\" and \"registers\"",
    ),
    (
        b"[goals]\n\"20 6a\" = [\"REC\"]\n\"20 6A\" = [\"REC\"]\n[forgets]\n\"20 6A\" = \"everything\"",
        "[goals] \"20 6A\": [forgets] has another word for it than \"nothing\" and \"registers\"",
    ),
    (
        b"[goals]\n\"20 6a\" = [\"REC\"]\n\"20 6A\" = [\"REC\"]",
        "[goals] \"20 6a\": named twice",
    ),
    (
        b"[names]\n\"20  61\" = 1",
        "[names] \"20  61\": not two bytes in hexadecimal, as \"20 61\"",
    ),
    (
        b"[names]\n\"7a 0c\" = 1",
        "[names] \"7a 0c\": groups 1 and 7 are a deck's replies, not commands",
    ),
    (
        b"[names]\n\"61 0C\" = 1",
        "[names] \"61 0C\": a listed command: it has its name",
    ),
    (
        b"[names]\n\"20 01\" = \"PLAY\"",
        "[names] \"20 01\": a listed command: it has its name",
    ),
    (
        b"[names]\n\"20 61\" = 1",
        "[names] \"20 61\": not a text, as \"FULL EE ON\"",
    ),
    (
        b"[names]\n\"20 61\" = [\"A\"]",
        "[names] \"20 61\": not a text, as \"FULL EE ON\"",
    ),
    (
        b"[names]\n\"20 61\" = \"Full EE\"",
        "[names] \"20 61\": a name has only A to Z, 0 to 9, blanks, +, - and /",
    ),
    (
        b"[names]\n\"20 61\" = \"FULL_EE\"",
        "[names] \"20 61\": a name has only A to Z, 0 to 9, blanks, +, - and /",
    ),
    (
        b"[names]\n\"20 61\" = \"\\u00c9E\"",
        "[names] \"20 61\": a name has only A to Z, 0 to 9, blanks, +, - and /",
    ),
    (
        b"[names]\n\"20 61\" = \"A\\tB\"",
        "[names] \"20 61\": a name has only A to Z, 0 to 9, blanks, +, - and /",
    ),
    // Another character comes before the length.
    (
        b"[names]\n\"20 61\" = \"ABCDEFGHIJKLMNOPQRSTUVWXy\"",
        "[names] \"20 61\": a name has only A to Z, 0 to 9, blanks, +, - and /",
    ),
    (
        b"[names]\n\"20 61\" = \"\"",
        "[names] \"20 61\": a name begins with a letter",
    ),
    (
        b"[names]\n\"20 61\" = \" EE\"",
        "[names] \"20 61\": a name begins with a letter",
    ),
    (
        b"[names]\n\"20 61\" = \"2ND EE\"",
        "[names] \"20 61\": a name begins with a letter",
    ),
    (
        b"[names]\n\"20 61\" = \"ABCDEFGHIJKLMNOPQRSTUVWXY\"",
        "[names] \"20 61\": a name has no more than 24 characters",
    ),
    (
        b"[names]\n\"20 61\" = \"EE  ON\"",
        "[names] \"20 61\": a name has no blank at its end, and no two together",
    ),
    (
        b"[names]\n\"20 61\" = \"EE \"",
        "[names] \"20 61\": a name has no blank at its end, and no two together",
    ),
    (
        b"[names]\n\"20 6a\" = \"EE\"\n\"20 6A\" = \"FF\"",
        "[names] \"20 6a\": named twice",
    ),
    (
        b"[names]\n\"20 6a\" = \"ee\"\n\"20 6A\" = \"FF\"",
        "[names] \"20 6a\": a name has only A to Z, 0 to 9, blanks, +, - and /",
    ),
    // The table before [passes], though that stands first.
    (
        b"[passes]\nX = 1\n[names]\n\"20 62\" = 1",
        "[names] \"20 62\": not a text, as \"FULL EE ON\"",
    ),
    (
        b"[passes]\nRECORD = []",
        "[passes] \"RECORD\": not STOP, PLAY, REC, FF, REW, SHUTTLE, JOG, VAR, CUED or EJECT",
    ),
    (
        b"[passes]\nrec = []",
        "[passes] \"rec\": not STOP, PLAY, REC, FF, REW, SHUTTLE, JOG, VAR, CUED or EJECT",
    ),
    (
        b"[passes]\nREC = \"JOG\"",
        "[passes] \"REC\": not a list of modes, as [\"SHUTTLE\", \"JOG\"]",
    ),
    (
        b"[passes]\nREC = [\"JOG\", 1]",
        "[passes] \"REC\": not a list of modes, as [\"SHUTTLE\", \"JOG\"]",
    ),
    (
        b"[passes]\nREC = [[\"JOG\"]]",
        "[passes] \"REC\": not a list of modes, as [\"SHUTTLE\", \"JOG\"]",
    ),
    (
        b"[passes]\nREC = [\"JOG\", \"RECORD\", 1]",
        "[passes] \"REC\": \"RECORD\" is not STOP, PLAY, REC, FF, REW, SHUTTLE, JOG, VAR, CUED or EJECT",
    ),
    (
        b"[passes.REC]\nJOG = 1",
        "[passes] \"REC\": not a list of modes, as [\"SHUTTLE\", \"JOG\"]",
    ),
];

/// Reads each text of a table, and compares what is said of it.
pub(super) fn are_refused(
    rt: &impl Abort,
    alloc: Global,
    table: &[(&'static [u8], &'static str)],
) -> Result<(), Fail> {
    for (text, wanted) in table {
        let told = match read_sheet(alloc, text) {
            Err(SheetsError::Refused { at: 0, refusal }) => format!(in alloc; "{refusal}")?,
            Err(_) => return Err(Fail::from("memory")),
            Ok(_) => return Err(Fail::from(*wanted)),
        };
        assert_eq!(rt; told.as_str(), *wanted);
    }
    Ok(())
}

#[test]
fn texts_that_are_refused(rt: HostRuntime) -> Result<(), Fail> {
    are_refused(&rt, rt.alloc(), REFUSED)
}
