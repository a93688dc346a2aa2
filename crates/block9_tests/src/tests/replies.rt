//! Which replies a command takes where a sheet names some, by hand.
use crate::tests::same;
use block9::{Block, Command, NamedReplies, ReplyForm};
use smallvec::SmallVec;
use std::alloc::{AllocError, Global};
use std::collections::BTreeMap;

/// Forms of reply: the group, the number of data bytes if it counts, and the code.
type Forms = &'static [(u8, Option<u8>, u8)];

/// A table of the forms that are named for commands.
fn table_of(
    alloc: Global,
    named: &[(u32, Forms)],
) -> Result<BTreeMap<u32, SmallVec<ReplyForm, 4>>, AllocError> {
    let mut table = BTreeMap::new(alloc);
    for (head, listed) in named {
        let mut forms = SmallVec::new(alloc);
        for (group, count, code) in *listed {
            let form = ReplyForm {
                group: *group,
                count: *count,
                code: *code,
            };
            forms.push(form)?;
        }
        table.insert(*head, forms)?;
    }
    Ok(table)
}

/// TC GEN SENSE with two replies, one with any number of data, DEVICE TYPE with one more, a command with a NAK alone; CURRENT TIME SENSE,
/// and two of its selectors, one that is listed and one that is not.
const NAMED: [(u32, Forms); 7] = [
    (0x61_0A, &[(7, Some(4), 0x08), (7, Some(8), 0x08)]),
    (0x62_21, &[(7, None, 0x21)]),
    (0x00_11, &[(1, Some(3), 0x11)]),
    (0x20_61, &[(1, Some(1), 0x12)]),
    (0x61_0C, &[(7, Some(8), 0x04)]),
    (0x61_0C_03, &[(7, Some(4), 0x05)]),
    (0x61_0C_10, &[(7, Some(4), 0x07), (7, Some(4), 0x05)]),
];

/// A command's block without its checksum, a reply's, and whether the command takes the reply.
const ROWS: [(&[u8], &[u8], bool); 32] = [
    (&[0x61, 0x0A, 0x01], &[0x74, 0x08, 0, 0, 0, 0], true),
    (
        &[0x61, 0x0A, 0x01],
        &[0x78, 0x08, 0, 0, 0, 0, 0, 0, 0, 0],
        true,
    ),
    (&[0x61, 0x0A, 0x01], &[0x11, 0x12, 0x01], true),
    (&[0x61, 0x0A, 0x01], &[0x74, 0x09, 0, 0, 0, 0], false),
    (&[0x61, 0x0A, 0x01], &[0x73, 0x08, 0, 0, 0], false),
    (&[0x61, 0x0A, 0x01], &[0x10, 0x01], false),
    (&[0x62, 0x21, 0, 1], &[0x70, 0x21], true),
    (&[0x62, 0x21, 0, 1], &[0x73, 0x21, 1, 2, 3], true),
    (&[0x62, 0x21, 0, 1], &[0x73, 0x20, 1, 2, 3], false),
    (&[0x00, 0x11], &[0x12, 0x11, 1, 2], true),
    (&[0x00, 0x11], &[0x13, 0x11, 1, 2, 3], true),
    (&[0x00, 0x11], &[0x14, 0x11, 1, 2, 3, 4], false),
    (&[0x20, 0x61], &[0x11, 0x12, 0x01], true),
    (&[0x20, 0x61], &[0x10, 0x01], false),
    (&[0x20, 0x60], &[0x10, 0x01], true),
    (&[0x20, 0x60], &[0x72, 0x33, 1, 2], true),
    (&[0x62, 0x0A, 0, 0], &[0x10, 0x01], true),
    (&[0x20, 0x01], &[0x10, 0x01], true),
    (&[0x20, 0x01], &[0x70, 0x21], false),
    // A selector without a line of its own: those of CURRENT TIME SENSE, and its own where it is listed.
    (
        &[0x61, 0x0C, 0x01],
        &[0x78, 0x04, 0, 0, 0, 0, 0, 0, 0, 0],
        true,
    ),
    (&[0x61, 0x0C, 0x01], &[0x74, 0x16, 0, 0, 0, 0], true),
    (&[0x61, 0x0C, 0x01], &[0x74, 0x05, 0, 0, 0, 0], false),
    (
        &[0x61, 0x0C, 0x11],
        &[0x78, 0x04, 0, 0, 0, 0, 0, 0, 0, 0],
        true,
    ),
    (&[0x61, 0x0C, 0x11], &[0x74, 0x04, 0, 0, 0, 0], false),
    // With a line of its own that holds alone, beside its own replies where it is listed.
    (&[0x61, 0x0C, 0x03], &[0x74, 0x05, 0, 0, 0, 0], true),
    (&[0x61, 0x0C, 0x03], &[0x74, 0x16, 0, 0, 0, 0], true),
    (
        &[0x61, 0x0C, 0x03],
        &[0x78, 0x04, 0, 0, 0, 0, 0, 0, 0, 0],
        false,
    ),
    (&[0x61, 0x0C, 0x10], &[0x74, 0x05, 0, 0, 0, 0], true),
    (&[0x61, 0x0C, 0x10], &[0x74, 0x07, 0, 0, 0, 0], true),
    (&[0x61, 0x0C, 0x10], &[0x74, 0x04, 0, 0, 0, 0], false),
    (
        &[0x61, 0x0C, 0x10],
        &[0x78, 0x04, 0, 0, 0, 0, 0, 0, 0, 0],
        false,
    ),
    (&[0x61, 0x0C, 0x10], &[0x11, 0x12, 0x01], true),
];

/// The block that these bytes begin, with its checksum.
fn block_of(bytes: &[u8]) -> Option<Block> {
    let mut whole = [0; 18];
    let mut sum = 0u8;
    for (at, byte) in bytes.iter().enumerate() {
        *whole.get_mut(at)? = *byte;
        sum = sum.wrapping_add(*byte);
    }
    *whole.get_mut(bytes.len())? = sum;
    Block::from_bytes(whole.get(..bytes.len() + 1)?)
}

#[test]
fn a_command_takes_its_own_replies_and_those_that_are_named(rt: HostRuntime) {
    let table = table_of(rt.alloc(), &NAMED).expect(&rt, "memory");
    let named = NamedReplies::of(Some(&table));
    for row in &ROWS {
        let block = block_of(row.0).expect(&rt, "a command");
        let command = Command::of(&block).expect(&rt, "a meaning");
        let reply = block_of(row.1).expect(&rt, "a reply");
        let taken = named.takes(&block, &command, &reply);
        same(&rt, taken, row.2, row);
        let fits = NamedReplies::none().takes(&block, &command, &reply);
        same(&rt, fits, command.fits(&reply), row);
    }
}
