//! Exchanges that a tracker takes, and what it answers to them, with values from the protocol's rules, by hand.
//!
//! What the built program can show is in `tests/cases/`: what is known after each exchange, and whether some deck gives it.
//! Here is what it can't: both kinds of sets, growths that are refused, drawn exchanges, and calls that no command line reaches.
//!
//! A function that owns a tracker hands it to `drop` when it is done: the tracker's end in place, at each way out, would
//! cost the proof of that function most of its time.
mod acting;
mod all_states;
mod before;
mod copied;
mod counted;
mod drawn;
mod member;
mod none_left;
mod own;
mod own_deck;
mod passed;
mod plain_deck;
mod refused;
mod rows;
mod sent;
mod side_by_side;
mod starting;
mod status;
mod told;
mod worked;

use block9::{Block, Command, Exchange, reply_time_valid};
use deck9::{Hands, Knowledge, Register};
use plain_deck::head_of;
use sent::Sent;
use sets25::{SpanSet, TimeSet};
use std::alloc::AllocError;
use std::fmt::Debug;
use std::process::Abort;
use track9::Tracker;

/// Holds that what was found in a case is what is wanted.
///
/// The tests call this in place of the macros: an assertion costs the proof of the function that it stands in seconds.
fn same<T: PartialEq + Drop, C: Debug + Drop>(rt: &impl Abort, found: T, wanted: T, case: C) {
    assert!(rt; found == wanted, "{case:?}");
}

/// The command that these bytes spell.
fn command_of(rt: &impl Abort, bytes: &[u8]) -> Command {
    let block = Block::from_bytes(bytes).expect(rt, "a block");
    Command::of(&block).expect(rt, "a command")
}

/// The command and the reply that these bytes spell.
fn exchange(rt: &impl Abort, sent: Sent) -> (Command, Block) {
    let reply = Block::from_bytes(sent.1).expect(rt, "a block");
    (command_of(rt, sent.0), reply)
}

/// Takes an exchange whose reply is of a kind that the command has, with a command's block that has its first two bytes.
fn observe<S: TimeSet>(
    rt: &impl Abort,
    tracker: &mut Tracker<S>,
    command: &Command,
    reply: &Block,
) -> Result<bool, AllocError> {
    observe_block(rt, tracker, command, named_block(rt, command), reply)
}

/// A command's block that has its first two bytes, as far as a sheet may name them.
fn named_block(rt: &impl Abort, command: &Command) -> Block {
    let head = head_of(command);
    drawn::block(rt, (head / 256 % 256) as u8, (head % 256) as u8, [0; 15])
}

/// The same with this block of the command.
fn observe_block<S: TimeSet>(
    rt: &impl Abort,
    tracker: &mut Tracker<S>,
    command: &Command,
    block: Block,
    reply: &Block,
) -> Result<bool, AllocError> {
    let is_allowed = (command.fits(reply), reply_time_valid(command, reply));
    same(rt, is_allowed, (true, true), (command.name(), reply.head()));
    tracker.take(&complete(command, block, reply))
}

/// The exchange of a command with this block and this reply.
fn complete(command: &Command, block: Block, reply: &Block) -> Exchange {
    Exchange {
        command: *command,
        block,
        reply: reply.copy(),
        time_us: 0,
        delay_us: 0,
    }
}

/// Takes an exchange.
fn take<S: TimeSet>(
    rt: &impl Abort,
    tracker: &mut Tracker<S>,
    sent: Sent,
) -> Result<bool, AllocError> {
    let (command, reply) = exchange(rt, sent);
    let block = Block::from_bytes(sent.0).expect(rt, "a block");
    observe_block(rt, tracker, &command, block, &reply)
}

/// Takes an exchange of a case, after which a state remains, or none.
fn take_leaving<S: TimeSet, C: Debug + Drop>(
    rt: &impl Abort,
    tracker: &mut Tracker<S>,
    sent: Sent,
    remains: bool,
    case: C,
) -> Result<(), AllocError> {
    let answers = (take(rt, tracker, sent)?, tracker.remains());
    same(rt, answers, (remains, remains), (sent, case));
    Ok(())
}

/// Takes exchanges that leave a state.
fn take_all<S: TimeSet>(
    rt: &impl Abort,
    tracker: &mut Tracker<S>,
    exchanges: &[Sent],
) -> Result<(), AllocError> {
    for (place, sent) in exchanges.iter().enumerate() {
        let remains = take(rt, tracker, *sent)?;
        same(rt, remains, true, (place, exchanges));
    }
    Ok(())
}

/// The spans of the times at which a register may be Set, and its presets.
fn spans_and_presets(tracker: &Tracker<SpanSet>, register: Register) -> (usize, u32) {
    (tracker.spans(register), tracker.presets(register))
}

/// What all states agree on, where there is one.
fn known<S: TimeSet>(rt: &impl Abort, tracker: &Tracker<S>) -> Knowledge {
    assert!(rt; tracker.remains());
    tracker.knowledge()
}
