//! Texts with replies, and with keys of a selector of CURRENT TIME SENSE, that are refused, and what is said of them.

use super::refused_sheets::are_refused;
use std::test::Fail;

/// Texts, each with its refusal's.
const REFUSED: &[(&'static [u8], &'static str)] = &[
    (b"replies = \"74 08\"", "\"replies\": not a table"),
    (
        b"replies = 1\n[passes]\nX = 1",
        "[passes] \"X\": not STOP, PLAY, REC, FF, REW, SHUTTLE, JOG, VAR, CUED or EJECT",
    ),
    (
        b"[replies]\n\"61 0\" = 1",
        "[replies] \"61 0\": not two bytes in hexadecimal, as \"20 61\"",
    ),
    (
        b"[replies]\n\"60 20 01\" = [\"74 08\"]",
        "[replies] \"60 20 01\": not two bytes in hexadecimal, as \"20 61\"",
    ),
    (
        b"[replies]\n\"61 0C\\t03\" = [\"74 08\"]",
        "[replies] \"61 0C\\t03\": not two bytes in hexadecimal, as \"20 61\"",
    ),
    (
        b"[replies]\n\"61 0C 0a\" = [\"74 08\"]\n\"61 0C 0A\" = [\"74 08\"]",
        "[replies] \"61 0C 0a\": named twice",
    ),
    (
        b"[forgets]\n\"61 0C 03\" = \"nothing\"",
        "[forgets] \"61 0C 03\": not two bytes in hexadecimal, as \"20 61\"",
    ),
    (
        b"[names]\n\"61 0C 05\" = \"A\"",
        "[names] \"61 0C 05\": not two bytes in hexadecimal, as \"20 61\"",
    ),
    (
        b"[goals]\n\"61 0C 05\" = [\"REC\"]",
        "[goals] \"61 0C 05\": not two bytes in hexadecimal, as \"20 61\"",
    ),
    (
        b"[replies]\n\"74 08\" = [\"74 08\"]",
        "[replies] \"74 08\": groups 1 and 7 are a deck's replies, not commands",
    ),
    (
        b"[replies]\n\"61 0A\" = \"74 08\"",
        "[replies] \"61 0A\": not a list of replies, as [\"74 08\", \"7* 21\"]",
    ),
    (
        b"[replies]\n\"61 0A\" = [\"74 08\", 7408]",
        "[replies] \"61 0A\": not a list of replies, as [\"74 08\", \"7* 21\"]",
    ),
    (
        b"[replies]\n\"61 0A\" = [[\"74 08\"]]",
        "[replies] \"61 0A\": not a list of replies, as [\"74 08\", \"7* 21\"]",
    ),
    (
        b"[replies]\n\"61 0A\" = []",
        "[replies] \"61 0A\": an empty list: at least one reply is wanted",
    ),
    (
        b"[replies]\n\"61 0A\" = [\"74 08\", \"74 8\", 1]",
        "[replies] \"61 0A\": \"74 8\" is no reply, as \"74 08\" or \"7* 21\"",
    ),
    (
        b"[replies]\n\"61 0A\" = [\"\"]",
        "[replies] \"61 0A\": \"\" is no reply, as \"74 08\" or \"7* 21\"",
    ),
    (
        b"[replies]\n\"61 0A\" = [\"*4 08\"]",
        "[replies] \"61 0A\": \"*4 08\" is no reply, as \"74 08\" or \"7* 21\"",
    ),
    (
        b"[replies]\n\"61 0A\" = [\"74 0*\"]",
        "[replies] \"61 0A\": \"74 0*\" is no reply, as \"74 08\" or \"7* 21\"",
    ),
    (
        b"[replies]\n\"61 0A\" = [\"74_08\"]",
        "[replies] \"61 0A\": \"74_08\" is no reply, as \"74 08\" or \"7* 21\"",
    ),
    (
        b"[replies]\n\"61 0A\" = [\"74 08\\u0007\"]",
        "[replies] \"61 0A\": \"74 08\\x07\" is no reply, as \"74 08\" or \"7* 21\"",
    ),
    (
        b"[replies]\n\"61 0A\" = [\"04 08\"]",
        "[replies] \"61 0A\": \"04 08\" is no reply: groups 0, 2, 4 and 6 are a controller's commands",
    ),
    (
        b"[replies]\n\"61 0A\" = [\"2* 08\"]",
        "[replies] \"61 0A\": \"2* 08\" is no reply: groups 0, 2, 4 and 6 are a controller's commands",
    ),
    (
        b"[replies]\n\"61 0A\" = [\"74 08\", \"40 08\", \"x\"]",
        "[replies] \"61 0A\": \"40 08\" is no reply: groups 0, 2, 4 and 6 are a controller's commands",
    ),
    (
        b"[replies]\n\"61 0A\" = [\"61 0A\"]",
        "[replies] \"61 0A\": \"61 0A\" is no reply: groups 0, 2, 4 and 6 are a controller's commands",
    ),
    (
        b"[replies]\n\"61 0a\" = [\"74 08\"]\n\"61 0A\" = [\"74 09\"]",
        "[replies] \"61 0a\": named twice",
    ),
    (
        b"[replies]\n\"61 0a\" = []\n\"61 0A\" = [\"74 09\"]",
        "[replies] \"61 0a\": an empty list: at least one reply is wanted",
    ),
];

#[test]
fn texts_with_replies_that_are_refused(rt: HostRuntime) -> Result<(), Fail> {
    are_refused(&rt, rt.alloc(), REFUSED)
}
