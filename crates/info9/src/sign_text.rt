//! What a sign says was seen, with its numbers.

use crate::place::Place;
use crate::sign::{EchoSeen, Seeming, ShortSeen};
use crate::text::put_rate_seen;
use block9::BYTE_TIME_US;
use capture9::Wire;
use report9::{put_count, put_hex, put_text};
use std::alloc::AllocError;
use text9::put_seconds;

/// Puts what was seen.
pub(crate) fn put_seen(line: &mut Vec<u8>, what: &Seeming) -> Result<(), AllocError> {
    match *what {
        Seeming::WiresSwapped { controller, deck } => put_swapped(line, controller, deck),
        Seeming::Echo(seen) => put_echo(line, &seen),
        Seeming::BeginsInside => put_text(line, "no command with a right checksum begins there"),
        Seeming::CollectsBytes { least_us, blocks } => put_collected(line, least_us, blocks),
        Seeming::WrittenTwice { byte, us, bytes } => put_twice(line, byte, us, bytes),
        Seeming::CloseBytes { least_us, bytes } => put_close(line, least_us, bytes),
        Seeming::CoarseTimes { step_us } => put_coarse(line, step_us),
        Seeming::Hole { us, holes } => put_hole(line, us, holes),
        Seeming::TwoClocks { from_us, to_us } => put_moves(line, from_us, to_us),
        Seeming::WrongRate { asked, seen, .. } => put_rate_seen(line, asked, seen),
        Seeming::OneBehind { replies, of } => put_behind(line, replies, of),
        Seeming::Silence {
            commands,
            from_us,
            to_us,
        } => put_silence(line, commands, from_us, to_us),
        Seeming::SentShort(seen) => put_short(line, &seen),
        Seeming::LostBytes {
            byte,
            after,
            blocks,
        } => put_lost(line, byte, after, blocks),
    }
}

/// Puts whose bytes come on the other wire too, how many of them, and how soon.
fn put_echo(line: &mut Vec<u8>, seen: &EchoSeen) -> Result<(), AllocError> {
    put_count(line, "", seen.bytes)?;
    put_count(line, " of the ", seen.of)?;
    put_text(line, " bytes of ")?;
    put_text(line, owner_of(seen.wire))?;
    put_count(line, " wire come on the other too, within ", seen.most_us)?;
    put_text(line, " us")
}

/// Puts how close the bytes of blocks come, and in how many.
fn put_collected(line: &mut Vec<u8>, least_us: u64, blocks: u64) -> Result<(), AllocError> {
    put_count(line, "bytes of one block come ", least_us)?;
    put_count(line, " us apart, where one lasts ", BYTE_TIME_US)?;
    put_count(line, " us on the line, in ", blocks)?;
    put_text(line, " blocks")
}

/// Puts how close the closest bytes come, and how many are so close.
fn put_close(line: &mut Vec<u8>, least_us: u64, bytes: u64) -> Result<(), AllocError> {
    put_count(line, "a byte comes ", least_us)?;
    put_count(
        line,
        " us after the one before it on its wire, where one lasts ",
        BYTE_TIME_US,
    )?;
    put_count(line, " us on the line, the closest of ", bytes)
}

/// Puts the step of the times.
fn put_coarse(line: &mut Vec<u8>, step_us: u64) -> Result<(), AllocError> {
    put_count(line, "all times come in steps of ", step_us)?;
    put_text(line, " us after it")
}

/// Puts how long the longest hole is, and how many there are.
fn put_hole(line: &mut Vec<u8>, us: u64, holes: u64) -> Result<(), AllocError> {
    put_text(line, "before it neither wire carries a byte for ")?;
    put_seconds(line, us)?;
    put_count(
        line,
        " s, from inside one block to inside another, the longest of ",
        holes,
    )
}

/// Puts how many replies fit the command before theirs, and of how many.
fn put_behind(line: &mut Vec<u8>, replies: u64, of: u64) -> Result<(), AllocError> {
    put_count(line, "", replies)?;
    put_count(line, " of ", of)?;
    put_text(
        line,
        " replies that tell fit the command before theirs and not their own",
    )
}

/// Puts which block lacks a byte, where, and how often.
fn put_short(line: &mut Vec<u8>, seen: &ShortSeen) -> Result<(), AllocError> {
    let [first, second] = seen.head;
    put_text(line, owner_of(seen.wire))?;
    put_text(line, " block ")?;
    put_hex(line, u32::from(first))?;
    put_text(line, " ")?;
    put_hex(line, u32::from(second))?;
    put_count(line, " lacks a byte behind ", u64::from(seen.place))?;
    put_count(line, " others, ", seen.blocks)?;
    put_count(line, " of the ", seen.of)?;
    put_text(line, " times that it comes from there on")
}

/// Whose a wire is.
fn owner_of(wire: Wire) -> &'static str {
    match wire {
        Wire::Controller => "the controller's",
        Wire::Deck => "the deck's",
    }
}

/// Puts how many blocks came on the wrong one of the two wires.
fn put_swapped(line: &mut Vec<u8>, controller: u64, deck: u64) -> Result<(), AllocError> {
    put_count(
        line,
        "blocks of a deck on the controller's wire: ",
        controller,
    )?;
    put_count(line, ", of a controller on the deck's: ", deck)
}

/// Puts which byte comes again, and how long after itself.
fn put_twice(line: &mut Vec<u8>, byte: u8, us: u64, bytes: u64) -> Result<(), AllocError> {
    put_hex(line, u32::from(byte))?;
    put_count(line, " comes again after ", us)?;
    put_count(line, " us, where a byte lasts ", BYTE_TIME_US)?;
    put_count(
        line,
        " us on the line, and the checksum is right without it, the first of ",
        bytes,
    )
}

/// Puts from where to where the least delay moves.
fn put_moves(line: &mut Vec<u8>, from_us: u64, to_us: u64) -> Result<(), AllocError> {
    put_count(
        line,
        "the least delay of a reply moves steadily from ",
        from_us,
    )?;
    put_count(line, " to ", to_us)?;
    put_text(line, " us")
}

/// Puts how many commands in a row have no reply, and from when to when.
fn put_silence(
    line: &mut Vec<u8>,
    commands: u32,
    from_us: u64,
    to_us: u64,
) -> Result<(), AllocError> {
    put_count(line, "", u64::from(commands))?;
    put_text(line, " commands in a row without a reply, from ")?;
    put_seconds(line, from_us)?;
    put_text(line, " s to ")?;
    put_seconds(line, to_us)?;
    put_text(line, " s")
}

/// Puts which byte a block lacks, and after which record.
fn put_lost(
    line: &mut Vec<u8>,
    byte: u8,
    after: Option<Place>,
    blocks: u64,
) -> Result<(), AllocError> {
    put_text(
        line,
        "the block ends early, and its checksum is right with ",
    )?;
    put_hex(line, u32::from(byte))?;
    match after {
        Some(after) => put_count(line, " after record ", u64::from(after.record))?,
        None => put_text(line, " before it")?,
    }
    put_count(line, ", the first of ", blocks)
}
