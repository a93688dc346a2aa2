//! Several sheets as one, with values by hand.

use crate::tests::one_sheet::{read_all, taken};
use deck9::{Forgotten, Lost, Mode, ModeSet};
use sheet9::SheetsError;
use std::test::Fail;

/// Sheets of which two say different things of one key: which is the later one, which the earlier, and of what.
struct Refused {
    texts: &'static [&'static str],
    at: usize,
    earlier: usize,
    of: &'static str,
}

const REFUSED: &[Refused] = &[
    Refused {
        texts: &[
            "[forgets]\n'20 61' = 'nothing'",
            "[forgets]\n'20 61' = 'tape'",
        ],
        at: 1,
        earlier: 0,
        of: "[forgets] \"20 61\"",
    },
    // One command in two cases, and of two sheets that it differs from the first.
    Refused {
        texts: &[
            "",
            "[names]\n'20 6a' = 'FREEZE'",
            "[names]\n'20 6A' = 'FREEZE'",
            "[names]\n'20 6A' = 'FREEZE OFF'",
        ],
        at: 3,
        earlier: 1,
        of: "[names] \"20 6A\"",
    },
    Refused {
        texts: &[
            "[goals]\n'20 65' = ['REC']",
            "[goals]\n'20 65' = ['REC', 'PLAY']",
        ],
        at: 1,
        earlier: 0,
        of: "[goals] \"20 65\"",
    },
    // Goals do not go with the motion forgotten, whichever sheet comes first.
    Refused {
        texts: &[
            "[goals]\n'20 65' = ['REC']",
            "[forgets]\n'20 65' = 'motion'",
        ],
        at: 1,
        earlier: 0,
        of: "[forgets] and [goals] \"20 65\"",
    },
    Refused {
        texts: &["[forgets]\n'20 65' = 'tape'", "[goals]\n'20 65' = ['REC']"],
        at: 1,
        earlier: 0,
        of: "[forgets] and [goals] \"20 65\"",
    },
    Refused {
        texts: &[
            "[loses]\n'20 0F' = 'points'",
            "[loses]\n'20 0F' = 'registers'",
        ],
        at: 1,
        earlier: 0,
        of: "[loses] \"20 0F\"",
    },
    Refused {
        texts: &["[passes]\nVAR = ['JOG']", "[passes]\nVAR = ['PLAY']"],
        at: 1,
        earlier: 0,
        of: "[passes] \"VAR\"",
    },
    Refused {
        texts: &[
            "[replies]\n'61 0C 01' = ['74 05']",
            "[replies]\n'61 0C 01' = ['74 04']",
        ],
        at: 1,
        earlier: 0,
        of: "[replies] \"61 0C 01\"",
    },
    Refused {
        texts: &[
            "[runs]\n'20 42' = ['PLAY']",
            "[passes]\nSTOP = ['REW']",
            "[runs]\n'20 42' = ['REC']\n[passes]\nSTOP = ['REW']",
        ],
        at: 2,
        earlier: 0,
        of: "[runs] \"20 42\"",
    },
];

#[test]
fn sheets_that_say_different_things(rt: HostRuntime) -> Result<(), Fail> {
    let alloc = rt.alloc();
    for refused in REFUSED {
        let told = match read_all(alloc, refused.texts) {
            Err(SheetsError::Clash { at, earlier, clash }) => {
                assert_eq!(&rt; (at, earlier), (refused.at, refused.earlier));
                format!(in alloc; "{clash}")?
            }
            _ => return Err(Fail::from(refused.of)),
        };
        assert_eq!(&rt; told.as_str(), refused.of);
    }
    Ok(())
}

#[test]
fn the_first_that_is_none_is_told(rt: HostRuntime) -> Result<(), Fail> {
    let texts = [
        "[runs]\n'20 42' = ['PLAY']",
        "[runs",
        "[runs]\n'20 42' = ['REC']",
    ];
    match read_all(rt.alloc(), &texts) {
        Err(SheetsError::Refused { at: 1, .. }) => Ok(()),
        _ => Err(Fail::from("another")),
    }
}

#[test]
fn each_table_has_the_entries_of_all(rt: HostRuntime) -> Result<(), Fail> {
    let first =
        "[forgets]\n'20 65' = 'nothing'\n[runs]\n'20 42' = ['REC']\n[passes]\nVAR = ['JOG']\n[names]\n'20 65' = 'EDIT ON'";
    let second =
        "[goals]\n'20 65' = ['REC']\n[loses]\n'20 42' = 'points'\n[passes]\nVAR = ['JOG']\nSTOP = ['REW']\n[replies]\n'20 65' = ['10 01']";
    for texts in [[first, second], [second, first]] {
        let deck = taken(rt.alloc(), &texts)?;
        // The goals of one make what the other forgets something beside an effect.
        assert!(&rt; deck.forgets.is_empty());
        assert!(&rt; deck.also_forgets.get(&0x20_65) == Some(&Forgotten::Nothing));
        assert!(&rt; deck.goals.get(&0x20_65) == Some(&ModeSet::just(Mode::Rec)));
        let Some(going) = deck.acts.get(&0x20_42) else {
            return Err(Fail::from("nothing goes on"));
        };
        assert!(&rt; going.modes == ModeSet::just(Mode::Rec) && going.lost == Lost::Points);
        let on = |goal: Mode, mode: Mode| deck.ways[goal.index()].has(mode);
        assert!(&rt; on(Mode::Var, Mode::Jog) && on(Mode::Stop, Mode::Rewind));
        assert!(&rt; !on(Mode::Play, Mode::Jog) && !on(Mode::Var, Mode::Rewind));
        assert!(&rt; deck.names.get(&0x20_65).is_some() && deck.replies.get(&0x20_65).is_some());
    }
    Ok(())
}
