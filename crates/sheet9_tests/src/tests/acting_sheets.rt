//! Sheets that say what a deck does by itself: those that are taken, and those that are refused.

use super::refused_sheets::are_refused;
use crate::tests::one_sheet::taken;
use deck9::{Deck, Lost, Mode};
use std::test::Fail;

/// What a deck may do by itself after the command with this head: modes that it may show, and registers that it may clear.
struct Act {
    head: u32,
    shows: &'static [Mode],
    loses: Lost,
}

/// Sheets, each with what its deck does by itself.
const TAKEN: &[(&'static str, &'static [Act])] = &[
    ("[runs]\n[loses]\n", &[]),
    // An unlisted command that runs an edit, and a listed one that loses the points.
    (
        "[runs]\n'20 42' = ['CUED', 'JOG', 'PLAY', 'REC', 'SHUTTLE', 'STOP']\n[loses]\n'20 0F' = 'points'\n",
        &[
            Act {
                head: 0x20_42,
                shows: &[
                    Mode::Cued,
                    Mode::Jog,
                    Mode::Play,
                    Mode::Rec,
                    Mode::Shuttle,
                    Mode::Stop,
                ],
                loses: Lost::NoRegister,
            },
            Act {
                head: 0x20_0F,
                shows: &[],
                loses: Lost::Points,
            },
        ],
    ),
    // Both tables say something of one command, in digits of either case; a mode stands twice.
    (
        "[loses]\n'2f fF' = 'registers'\n[runs]\n'2F ff' = ['FF', 'REW', 'FF']\n",
        &[Act {
            head: 0x2F_FF,
            shows: &[Mode::FastForward, Mode::Rewind],
            loses: Lost::AllRegisters,
        }],
    ),
    // Listed and unlisted commands in both, before and behind one another; a listed code with another number of data.
    (
        "[runs]\n'20 01' = ['EJECT']\n'20 42' = ['VAR']\n'21 01' = ['STOP']\n'20 00' = ['PLAY']\n[loses]\n'20 00' = 'points'\n'20 05' = 'registers'\n'20 42' = 'points'\n'2A 00' = 'points'\n",
        &[
            Act {
                head: 0x20_00,
                shows: &[Mode::Play],
                loses: Lost::Points,
            },
            Act {
                head: 0x20_01,
                shows: &[Mode::Eject],
                loses: Lost::NoRegister,
            },
            Act {
                head: 0x20_05,
                shows: &[],
                loses: Lost::AllRegisters,
            },
            Act {
                head: 0x20_42,
                shows: &[Mode::Var],
                loses: Lost::Points,
            },
            Act {
                head: 0x21_01,
                shows: &[Mode::Stop],
                loses: Lost::NoRegister,
            },
            Act {
                head: 0x2A_00,
                shows: &[],
                loses: Lost::Points,
            },
        ],
    ),
    // Beside all that other tables say of the same command.
    (
        "runs = { '20 42' = ['REC'] }\n[forgets]\n'20 42' = 'nothing'\n[goals]\n'20 42' = ['STOP']\n[names]\n'20 42' = 'AUTO EDIT'\n[replies]\n'20 42' = ['10 01']\n",
        &[Act {
            head: 0x20_42,
            shows: &[Mode::Rec],
            loses: Lost::NoRegister,
        }],
    ),
];

#[test]
fn sheets_of_decks_that_act(rt: HostRuntime) -> Result<(), Fail> {
    for (text, wanted) in TAKEN {
        let deck = taken(rt.alloc(), &[*text])?;
        assert!(rt; acts(&deck, wanted), "{text:?}");
    }
    Ok(())
}

/// Whether the deck does this by itself after these commands, and nothing after others.
fn acts(deck: &Deck, wanted: &[Act]) -> bool {
    for act in wanted {
        let Some(going) = deck.acts.get(&act.head) else {
            return false;
        };
        for mode in Mode::ALL {
            if going.modes.has(mode) != act.shows.contains(&mode) {
                return false;
            }
        }
        if going.lost != act.loses {
            return false;
        }
    }
    deck.acts.len() == wanted.len()
}

/// Texts, each with its refusal's.
const REFUSED: &[(&'static [u8], &'static str)] = &[
    (b"runs = 1", "\"runs\": not a table"),
    (b"loses = 'points'", "\"loses\": not a table"),
    (
        b"[run]\n[loses]\n'20' = 1",
        "\"run\": unknown key: only [forgets], [goals], [loses], [names], [passes], [replies] and [runs] are read",
    ),
    // The tables in the order of their names: [goals], [loses], [names], and [replies], [runs].
    (
        b"loses = 1\n[goals]\n'20 65' = 1",
        "[goals] \"20 65\": not a list of modes, as [\"SHUTTLE\", \"JOG\"]",
    ),
    (b"names = 1\nloses = 1", "\"loses\": not a table"),
    (b"runs = 1\nreplies = 1", "\"replies\": not a table"),
    (
        b"[runs]\n'20 42' = 1\n[loses]\n'20 0F' = 1",
        "[loses] \"20 0F\": not \"points\" or \"registers\"",
    ),
    // Of one key: two bytes, groups 1 and 7, another group than 2, then its value, then two keys for one command.
    (
        b"[runs]\n'2 42' = 1",
        "[runs] \"2 42\": not two bytes in hexadecimal, as \"20 61\"",
    ),
    (
        b"[runs]\n'61 0C 03' = ['PLAY']",
        "[runs] \"61 0C 03\": not two bytes in hexadecimal, as \"20 61\"",
    ),
    (
        b"[loses]\n'20 0F 00' = 'points'",
        "[loses] \"20 0F 00\": not two bytes in hexadecimal, as \"20 61\"",
    ),
    (
        b"[runs]\n'10 01' = 1",
        "[runs] \"10 01\": groups 1 and 7 are a deck's replies, not commands",
    ),
    (
        b"[loses]\n'72 20' = 1",
        "[loses] \"72 20\": groups 1 and 7 are a deck's replies, not commands",
    ),
    (
        b"[runs]\n'40 2D' = 1",
        "[runs] \"40 2D\": a command of another group than 2 begins nothing",
    ),
    (
        b"[runs]\n'00 1D' = []",
        "[runs] \"00 1D\": a command of another group than 2 begins nothing",
    ),
    (
        b"[loses]\n'61 0C' = 'tape'",
        "[loses] \"61 0C\": a command of another group than 2 begins nothing",
    ),
    (
        b"[loses]\n'30 00' = 'points'",
        "[loses] \"30 00\": a command of another group than 2 begins nothing",
    ),
    (
        b"[runs]\n'20 42' = 'PLAY'",
        "[runs] \"20 42\": not a list of modes, as [\"SHUTTLE\", \"JOG\"]",
    ),
    (
        b"[runs]\n'20 42' = []",
        "[runs] \"20 42\": an empty list: at least one mode is wanted",
    ),
    (
        b"[runs]\n'20 42' = ['PLAY', 1, 'play']",
        "[runs] \"20 42\": not a list of modes, as [\"SHUTTLE\", \"JOG\"]",
    ),
    (
        b"[runs]\n'20 42' = ['PLAY', 'play', 1]",
        "[runs] \"20 42\": \"play\" is not STOP, PLAY, REC, FF, REW, SHUTTLE, JOG, VAR, CUED or EJECT",
    ),
    (
        b"[runs]\n'20 4a' = ['PLAY']\n'20 4A' = ['PLAY']",
        "[runs] \"20 4a\": named twice",
    ),
    (
        b"[runs]\n'20 4a' = []\n'20 4A' = ['PLAY']",
        "[runs] \"20 4a\": an empty list: at least one mode is wanted",
    ),
    (
        b"[loses]\n'20 0F' = 'Points'",
        "[loses] \"20 0F\": not \"points\" or \"registers\"",
    ),
    (
        b"[loses]\n'20 0F' = 'tape'",
        "[loses] \"20 0F\": not \"points\" or \"registers\"",
    ),
    (
        b"[loses]\n'20 0F' = ['points']",
        "[loses] \"20 0F\": not \"points\" or \"registers\"",
    ),
    (
        b"[loses]\n'20 0f' = 'points'\n'20 0F' = 'points'",
        "[loses] \"20 0f\": named twice",
    ),
    (
        b"[loses]\n'20 0f' = 1\n'20 0F' = 'points'",
        "[loses] \"20 0f\": not \"points\" or \"registers\"",
    ),
];

#[test]
fn texts_with_acts_that_are_refused(rt: HostRuntime) -> Result<(), Fail> {
    are_refused(&rt, rt.alloc(), REFUSED)
}
