//! Sheets that are taken.

use crate::tests::one_sheet::taken;
use block9::ReplyForm;
use deck9::{Deck, Forgotten, Mode};
use std::collections::BTreeMap;
use std::test::Fail;

/// A sheet: what it says of commands, by their heads, and which modes it adds on the way to which goals.
struct Taken {
    text: &'static str,
    forgets: &'static [(u32, Forgotten)],
    also_forgets: &'static [(u32, Forgotten)],
    goals: &'static [(u32, &'static [Mode])],
    names: &'static [(u32, &'static [u8])],
    adds: &'static [(Mode, Mode)],
    replies: &'static [(u32, &'static [ReplyForm])],
}

const TAKEN: &[Taken] = &[
    Taken {
        text: "# an edit deck\n[forgets]\n\"20 61\" = \"nothing\" # FULL EE ON\n'20 65' = 'motion'\n'40 2D' = 'nothing'\n[passes]\nREC = ['SHUTTLE', 'JOG']\n",
        forgets: &[
            (0x20_61, Forgotten::Nothing),
            (0x20_65, Forgotten::Motion),
            (0x40_2D, Forgotten::Nothing),
        ],
        also_forgets: &[],
        goals: &[],
        names: &[],
        adds: &[(Mode::Rec, Mode::Shuttle), (Mode::Rec, Mode::Jog)],
        replies: &[],
    },
    Taken {
        text: "",
        forgets: &[],
        also_forgets: &[],
        goals: &[],
        names: &[],
        adds: &[],
        replies: &[],
    },
    Taken {
        text: "# nothing\n[passes]\n[names]\n[forgets]\n",
        forgets: &[],
        also_forgets: &[],
        goals: &[],
        names: &[],
        adds: &[],
        replies: &[],
    },
    Taken {
        text: "forgets = { \"20 61\" = \"nothing\" }\nnames = { \"20 61\" = \"A\" }",
        forgets: &[(0x20_61, Forgotten::Nothing)],
        also_forgets: &[],
        goals: &[],
        names: &[(0x20_61, b"A")],
        adds: &[],
        replies: &[],
    },
    // Listed codes with another number of data bytes, and groups without a table.
    Taken {
        text: "[forgets]\n'21 01' = 'tape'\n'62 0C' = 'registers'\n'00 0E' = 'everything'\n'80 00' = 'motion'\n",
        forgets: &[
            (0x21_01, Forgotten::Tape),
            (0x62_0C, Forgotten::Registers),
            (0x00_0E, Forgotten::Everything),
            (0x80_00, Forgotten::Motion),
        ],
        also_forgets: &[],
        goals: &[],
        names: &[],
        adds: &[],
        replies: &[],
    },
    Taken {
        text: "[forgets]\n\"2f fF\" = \"nothing\"\n\"aB Cd\" = 'tape'\n",
        forgets: &[(0x2F_FF, Forgotten::Nothing), (0xAB_CD, Forgotten::Tape)],
        also_forgets: &[],
        goals: &[],
        names: &[],
        adds: &[],
        replies: &[],
    },
    // Listed commands of each group but the sense requests, among others.
    Taken {
        text: "[forgets]\n'20 0f' = 'registers'\n'20 0E' = 'tape'\n'00 1D' = 'nothing'\n'41 30' = 'motion'\n'61 0A' = 'tape'\n",
        forgets: &[(0x20_0E, Forgotten::Tape), (0x61_0A, Forgotten::Tape)],
        also_forgets: &[
            (0x20_0F, Forgotten::Registers),
            (0x00_1D, Forgotten::Nothing),
            (0x41_30, Forgotten::Motion),
        ],
        goals: &[],
        names: &[],
        adds: &[],
        replies: &[],
    },
    // Where commands may lead: to one mode, to several, to one twice; and what is forgotten besides, in digits of either case.
    Taken {
        text: "[goals]\n'20 65' = ['REC']\n'2f fF' = ['STOP', 'EJECT', 'STOP']\n'21 01' = ['PLAY']\n[forgets]\n'20 65' = 'registers'\n'2F FF' = 'nothing'\n'20 61' = 'tape'\n",
        forgets: &[(0x20_61, Forgotten::Tape)],
        also_forgets: &[
            (0x20_65, Forgotten::Registers),
            (0x2F_FF, Forgotten::Nothing),
        ],
        goals: &[
            (0x20_65, &[Mode::Rec]),
            (0x2F_FF, &[Mode::Stop, Mode::Eject]),
            (0x21_01, &[Mode::Play]),
        ],
        names: &[],
        adds: &[],
        replies: &[],
    },
    // Names: the longest, the shortest, and every kind of character.
    Taken {
        text: "[names]\n'20 61' = 'FULL EE ON'\n'61 0a' = 'ABCDEFGHIJKLMNOPQRSTUVWX'\n'21 01' = 'Z'\n'62 0C' = 'A0 9+-/'\n'ab cd' = 'Y //'\n",
        forgets: &[],
        also_forgets: &[],
        goals: &[],
        names: &[
            (0x20_61, b"FULL EE ON"),
            (0x61_0A, b"ABCDEFGHIJKLMNOPQRSTUVWX"),
            (0x21_01, b"Z"),
            (0x62_0C, b"A0 9+-/"),
            (0xAB_CD, b"Y //"),
        ],
        adds: &[],
        replies: &[],
    },
    // A goal that names itself, a name twice, the profile's own and none at all.
    Taken {
        text: "[passes]\nPLAY = ['PLAY']\nFF = ['REW', 'REW']\nREC = ['STOP']\nSTOP = []\nEJECT = ['VAR', 'CUED', 'EJECT']\n",
        forgets: &[],
        also_forgets: &[],
        goals: &[],
        names: &[],
        adds: &[
            (Mode::Play, Mode::Play),
            (Mode::FastForward, Mode::Rewind),
            (Mode::Eject, Mode::Var),
            (Mode::Eject, Mode::Cued),
            (Mode::Eject, Mode::Eject),
        ],
        replies: &[],
    },
    // Replies by selector: of listed selectors and others, beside the command's own line, in digits of either case.
    Taken {
        text: "[replies]\n'61 0c 03' = ['74 05']\n'61 0C' = ['7* 04']\n'61 0C fF' = ['78 04']\n'61 0C 00' = ['11 12']\n",
        forgets: &[],
        also_forgets: &[],
        goals: &[],
        names: &[],
        adds: &[],
        replies: &[
            (
                0x61_0C_03,
                &[ReplyForm {
                    group: 7,
                    count: Some(4),
                    code: 0x05,
                }],
            ),
            (
                0x61_0C,
                &[ReplyForm {
                    group: 7,
                    count: None,
                    code: 0x04,
                }],
            ),
            (
                0x61_0C_FF,
                &[ReplyForm {
                    group: 7,
                    count: Some(8),
                    code: 0x04,
                }],
            ),
            (
                0x61_0C_00,
                &[ReplyForm {
                    group: 1,
                    count: Some(1),
                    code: 0x12,
                }],
            ),
        ],
    },
    // Replies: to listed commands and others, in any order and twice, of every group that a deck may send, with no data and with
    // fifteen, with any number of them, and in digits of either case.
    Taken {
        text: "[replies]\n'61 0a' = ['74 08', '74 09', '78 08']\n'61 0C' = ['78 00']\n'60 2B' = ['76 2B']\n'00 11' = ['13 11']\n'62 21' = ['7* 21']\n'20 01' = ['7f aB', '10 01', '7F Ab', 'a* 00', 'F0 0f', '3F FF', '51 00']\n",
        forgets: &[],
        also_forgets: &[],
        goals: &[],
        names: &[],
        adds: &[],
        replies: &[
            (
                0x61_0A,
                &[
                    ReplyForm {
                        group: 7,
                        count: Some(4),
                        code: 0x08,
                    },
                    ReplyForm {
                        group: 7,
                        count: Some(4),
                        code: 0x09,
                    },
                    ReplyForm {
                        group: 7,
                        count: Some(8),
                        code: 0x08,
                    },
                ],
            ),
            (
                0x61_0C,
                &[ReplyForm {
                    group: 7,
                    count: Some(8),
                    code: 0x00,
                }],
            ),
            (
                0x60_2B,
                &[ReplyForm {
                    group: 7,
                    count: Some(6),
                    code: 0x2B,
                }],
            ),
            (
                0x00_11,
                &[ReplyForm {
                    group: 1,
                    count: Some(3),
                    code: 0x11,
                }],
            ),
            (
                0x62_21,
                &[ReplyForm {
                    group: 7,
                    count: None,
                    code: 0x21,
                }],
            ),
            (
                0x20_01,
                &[
                    ReplyForm {
                        group: 7,
                        count: Some(15),
                        code: 0xAB,
                    },
                    ReplyForm {
                        group: 1,
                        count: Some(0),
                        code: 0x01,
                    },
                    ReplyForm {
                        group: 7,
                        count: Some(15),
                        code: 0xAB,
                    },
                    ReplyForm {
                        group: 10,
                        count: None,
                        code: 0x00,
                    },
                    ReplyForm {
                        group: 15,
                        count: Some(0),
                        code: 0x0F,
                    },
                    ReplyForm {
                        group: 3,
                        count: Some(15),
                        code: 0xFF,
                    },
                    ReplyForm {
                        group: 5,
                        count: Some(1),
                        code: 0x00,
                    },
                ],
            ),
        ],
    },
];

#[test]
fn sheets_that_are_taken(rt: HostRuntime) -> Result<(), Fail> {
    for sheet in TAKEN {
        let deck = taken(rt.alloc(), &[sheet.text])?;
        assert!(rt; forgets(&deck.forgets, sheet.forgets), "{:?}", sheet.text);
        assert!(rt;
            forgets(&deck.also_forgets, sheet.also_forgets),
            "{:?}",
            sheet.text
        );
        assert!(rt; goals(&deck, sheet.goals), "{:?}", sheet.text);
        assert!(rt; names(&deck, sheet.names), "{:?}", sheet.text);
        assert!(rt; passes(&deck, sheet.adds), "{:?}", sheet.text);
        assert!(rt; replies(&deck, sheet.replies), "{:?}", sheet.text);
        assert!(rt; deck.acts.is_empty(), "{:?}", sheet.text);
    }
    Ok(())
}

/// Whether a map has these commands and no others.
fn forgets(map: &BTreeMap<u32, Forgotten>, wanted: &[(u32, Forgotten)]) -> bool {
    for (head, forgotten) in wanted {
        if map.get(head) != Some(forgotten) {
            return false;
        }
    }
    map.len() == wanted.len()
}

/// Whether the deck may go to these modes at these commands, and to no others at any.
fn goals(deck: &Deck, wanted: &[(u32, &'static [Mode])]) -> bool {
    for (head, modes) in wanted {
        for mode in Mode::ALL {
            let may_go = deck.goals.get(head).is_some_and(|goals| goals.has(mode));
            if may_go != modes.contains(&mode) {
                return false;
            }
        }
    }
    deck.goals.len() == wanted.len()
}

/// Whether the deck has these names and no others.
fn names(deck: &Deck, wanted: &[(u32, &'static [u8])]) -> bool {
    for (head, name) in wanted {
        match deck.names.get(head) {
            Some(found) if found.as_slice() == *name => {}
            _ => return false,
        }
    }
    deck.names.len() == wanted.len()
}

/// Whether the deck has these forms of reply and no others.
fn replies(deck: &Deck, wanted: &[(u32, &'static [ReplyForm])]) -> bool {
    for (head, forms) in wanted {
        match deck.replies.get(head) {
            Some(found) if found.as_slice() == *forms => {}
            _ => return false,
        }
    }
    deck.replies.len() == wanted.len()
}

/// Whether the modes on the way to each goal are those of the profile and the added ones.
fn passes(deck: &Deck, adds: &[(Mode, Mode)]) -> bool {
    for goal in Mode::ALL {
        for mode in Mode::ALL {
            let wanted = is_own(goal, mode) || adds.contains(&(goal, mode));
            if deck.ways[goal.index()].has(mode) != wanted {
                return false;
            }
        }
    }
    true
}

/// Whether the profile has the mode on the way to the goal: STOP always, PLAY before REC, and all in which the tape moves, but
/// REC, before CUED.
fn is_own(goal: Mode, mode: Mode) -> bool {
    match mode {
        Mode::Stop => true,
        Mode::Play => goal == Mode::Rec || goal == Mode::Cued,
        Mode::FastForward | Mode::Rewind | Mode::Shuttle | Mode::Jog | Mode::Var => goal
            == Mode::Cued,
        Mode::Rec | Mode::Cued | Mode::Eject => false,
    }
}
