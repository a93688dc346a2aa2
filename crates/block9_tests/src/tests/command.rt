//! What a command holds and no line of the program tells, by hand: the selector, and the group of one that is not listed.

use crate::tests::same;
use block9::{Block, Command};

#[test]
fn selectors_and_groups(rt: HostRuntime) {
    for (bytes, command) in [
        (
            [0x61, 0x0C, 0x01, 0x6E].as_slice(),
            Command::CurrentTimeSense { selector: 0x01 },
        ),
        (
            [0x61, 0x0C, 0x02, 0x6F].as_slice(),
            Command::CurrentTimeSense { selector: 0x02 },
        ),
        (
            [0x61, 0x0C, 0x03, 0x70].as_slice(),
            Command::CurrentTimeSense { selector: 0x03 },
        ),
        (
            [0x61, 0x0C, 0x04, 0x71].as_slice(),
            Command::CurrentTimeSense { selector: 0x04 },
        ),
        (
            [0x61, 0x0C, 0x08, 0x75].as_slice(),
            Command::CurrentTimeSense { selector: 0x08 },
        ),
        (
            [0x00, 0x01, 0x01].as_slice(),
            Command::Unlisted { head: 0x00_01 },
        ),
        (
            [0x20, 0x40, 0x60].as_slice(),
            Command::Unlisted { head: 0x20_40 },
        ),
        (
            [0x43, 0x14, 0x00, 0x00, 0x00, 0x57].as_slice(),
            Command::Unlisted { head: 0x43_14 },
        ),
        (
            [0x61, 0x0C, 0x05, 0x72].as_slice(),
            Command::Unlisted { head: 0x61_0C },
        ),
        (
            [0x80, 0x01, 0x81].as_slice(),
            Command::Unlisted { head: 0x80_01 },
        ),
        (
            [0xF1, 0x0C, 0x00, 0xFD].as_slice(),
            Command::Unlisted { head: 0xF1_0C },
        ),
    ] {
        let block = Block::from_bytes(bytes).expect(&rt, "a block");
        same(&rt, Command::of(&block), Some(command), bytes);
    }
}
