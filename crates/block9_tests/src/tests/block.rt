//! Bytes that spell a block and bytes that do not, by hand.

use crate::tests::same;
use block9::{Block, Command};

#[test]
fn reads_whole_blocks_alone(rt: HostRuntime) {
    for (bytes, is_block) in [
        ([0x20, 0x01, 0x21].as_slice(), true),
        ([0x20, 0x01, 0x22].as_slice(), false),
        ([].as_slice(), false),
        ([0x20].as_slice(), false),
        ([0x20, 0x01].as_slice(), false),
        ([0x20, 0x01, 0x21, 0x10].as_slice(), false),
        ([0x24, 0x31, 0x04, 0x03, 0x02, 0x01, 0x5F].as_slice(), true),
        ([0x24, 0x31, 0x04, 0x03, 0x02, 0x5E].as_slice(), false),
        ([0x74, 0x10, 0xFF, 0xFF, 0xFF, 0xFF, 0x80].as_slice(), true),
    ] {
        same(&rt, Block::from_bytes(bytes).is_some(), is_block, bytes);
    }
}

/// The bytes of a block, its first two bytes as one number, and whether it is an acknowledgement or a NAK.
type Row<'a> = (&'a [u8], u32, bool, bool);

const ROWS: [Row; 6] = [
    (&[0x10, 0x01, 0x11], 0x10_01, true, false),
    (&[0x10, 0x02, 0x12], 0x10_02, false, false),
    (&[0x11, 0x01, 0x00, 0x12], 0x11_01, false, false),
    (&[0x11, 0x12, 0x04, 0x27], 0x11_12, false, true),
    (&[0x12, 0x12, 0x00, 0x04, 0x28], 0x12_12, false, false),
    (
        &[0x74, 0x10, 0xFF, 0xFF, 0xFF, 0xFF, 0x80],
        0x74_10,
        false,
        false,
    ),
];

#[test]
fn tells_heads_checksums_and_kinds(rt: HostRuntime) {
    for (bytes, head, is_ack, is_nak) in &ROWS {
        let block = Block::from_bytes(bytes).expect(&rt, "a block");
        same(&rt, block.head(), *head, bytes);
        same(&rt, block.first_byte(), u32::from(bytes[0]), bytes);
        same(&rt, block.checksum(), bytes[bytes.len() - 1], bytes);
        same(&rt, block.is_ack(), *is_ack, bytes);
        same(&rt, block.is_nak(), *is_nak, bytes);
    }
}

#[test]
fn tells_the_time_in_a_command(rt: HostRuntime) {
    // 01:02:03:04 is frame (3,600 + 2 * 60 + 3) * 25 + 4.
    for (bytes, frames) in [
        (
            [0x24, 0x31, 0x04, 0x03, 0x02, 0x01, 0x5F].as_slice(),
            Some(93_079),
        ),
        (
            [0x44, 0x14, 0x04, 0x03, 0x02, 0x01, 0x62].as_slice(),
            Some(93_079),
        ),
        ([0x44, 0x31, 0x04, 0x03, 0x02, 0x01, 0x7F].as_slice(), None),
        ([0x20, 0x01, 0x21].as_slice(), None),
    ] {
        let block = Block::from_bytes(bytes).expect(&rt, "a block");
        let command = Command::of(&block).expect(&rt, "a command");
        let time = command.time();
        same(&rt, time.map(|time| time.frames()), frames, bytes);
    }
}
