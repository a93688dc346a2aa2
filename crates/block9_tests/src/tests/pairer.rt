//! What a pairer answers to each record, by hand. Which record of a capture breaks which rule is in `tests/cases/`.

use crate::tests::same;
use block9::{
    Block, Command, Exchange, LineRules, NamedReplies, Open, Pairer, Reason, Refusal, ReplyLimit,
    Step,
};
use capture9::Wire::{Controller, Deck};
use capture9::{LineByte, Wire};
use std::process::Abort;
use tc25::Rate;

fn record(time_us: u64, wire: Wire, byte: u8) -> LineByte {
    LineByte {
        time_us,
        wire,
        byte,
    }
}

/// Feeds a record that is not before the last one.
fn feed(rt: &impl Abort, pairer: &mut Pairer, line_byte: LineByte) -> Result<Step, Refusal> {
    if let Some(before) = pairer.last_time() {
        assert!(rt; before <= line_byte.time_us);
    }
    pairer.feed(line_byte)
}

/// Feeds a record that keeps the rules, and answers what step it made and how many records are open then.
fn take(rt: &impl Abort, pairer: &mut Pairer, line_byte: LineByte) -> (Step, usize) {
    if let Some(before) = pairer.last_time() {
        assert!(rt; before <= line_byte.time_us);
    }
    match pairer.feed(line_byte) {
        Ok(step) => (step, pairer.tail_len()),
        Err(refusal) => {
            let (reason, at) = (refusal.reason.name(), line_byte.time_us);
            panic!(rt; "{reason} at {at}")
        }
    }
}

/// The answer to a record that breaks this rule and begins no late reply.
fn refused(reason: Reason) -> Result<Step, Refusal> {
    Err(Refusal {
        reason,
        late: false,
    })
}

/// The answer to a record that breaks this rule and begins a late reply.
fn refused_late(reason: Reason) -> Result<Step, Refusal> {
    Err(Refusal { reason, late: true })
}

/// PLAY and the reply that acknowledges it, 400 microseconds after it.
fn exchange() -> Option<Exchange> {
    Some(Exchange {
        command: Command::Play,
        block: Block::from_bytes(&[0x20, 0x01, 0x21])?,
        reply: Block::from_bytes(&[0x10, 0x01, 0x11])?,
        time_us: 400,
        delay_us: 400,
    })
}

#[test]
fn a_command_and_its_reply_are_an_exchange(rt: HostRuntime) {
    let exchange = exchange().expect(&rt, "two blocks");
    let mut pairer = Pairer::new();
    same(&rt, pairer.last_time(), None, "the start");
    same(&rt, pairer.tail_len(), 0, "the start");
    for (line_byte, taken, is_open) in &[
        (record(400, Controller, 0x20), (Step::Waiting, 1), false),
        (record(800, Controller, 0x01), (Step::Waiting, 2), false),
        (record(1_200, Controller, 0x21), (Step::Command, 3), true),
        (record(1_600, Deck, 0x10), (Step::Waiting, 4), true),
        (record(2_000, Deck, 0x01), (Step::Waiting, 5), true),
        (record(2_400, Deck, 0x11), (Step::Exchange, 0), false),
        (record(2_800, Controller, 0x20), (Step::Waiting, 1), false),
    ] {
        same(
            &rt,
            take(&rt, &mut pairer, *line_byte),
            *taken,
            line_byte.time_us,
        );
        let open = is_open.then_some(Command::Play);
        same(&rt, pairer.open_command(), open, line_byte.time_us);
        same(
            &rt,
            pairer.last_time(),
            Some(line_byte.time_us),
            line_byte.time_us,
        );
        let whole = match taken {
            (Step::Exchange, _) => Some(&exchange),
            _ => None,
        };
        same(&rt, pairer.exchange(), whole, line_byte.time_us);
    }
    same(&rt, &exchange.copy(), &exchange, "a copy");
}

#[test]
fn a_record_that_breaks_a_rule_leaves_no_exchange(rt: HostRuntime) {
    let mut pairer = Pairer::new();
    for (at, wire, byte) in [
        (400, Controller, 0x20),
        (800, Controller, 0x01),
        (1_200, Controller, 0x21),
        (1_600, Deck, 0x10),
        (2_000, Deck, 0x01),
        (2_400, Deck, 0x11),
    ] {
        assert!(rt; feed(&rt, &mut pairer, record(at, wire, byte)).is_ok());
    }
    assert!(rt; pairer.exchange().is_some());
    let stray = record(2_800, Deck, 0x10);
    same(
        &rt,
        feed(&rt, &mut pairer, stray),
        refused(Reason::ReplyWithoutCommand),
        stray.time_us,
    );
    assert!(rt; pairer.exchange().is_none());
}

#[test]
fn a_reason_stays(rt: HostRuntime) {
    let mut pairer = Pairer::default();
    let [first, second] = [record(400, Controller, 0x20), record(800, Controller, 0x01)];
    same(
        &rt,
        take(&rt, &mut pairer, first),
        (Step::Waiting, 1),
        first.time_us,
    );
    same(
        &rt,
        take(&rt, &mut pairer, second),
        (Step::Waiting, 2),
        second.time_us,
    );
    for line_byte in [
        record(1_200, Controller, 0x22),
        record(1_600, Deck, 0x10),
        record(9_999_999, Controller, 0x20),
    ] {
        let fault = feed(&rt, &mut pairer, line_byte);
        same(&rt, fault, refused(Reason::WrongSum), line_byte.time_us);
        same(&rt, pairer.last_time(), Some(1_200), line_byte.time_us);
        same(
            &rt,
            pairer.tail(),
            [first, second].as_slice(),
            line_byte.time_us,
        );
    }
}

/// A pairer that reads times at 25 frames a second and has PLAY complete, whose last record came at this time.
fn after_play(rt: &impl Abort, reply_limit: ReplyLimit, time_us: u64) -> Pairer<'static> {
    let rate = Rate::Fps25;
    let mut pairer = Pairer::by(LineRules {
        rate,
        reply_limit,
        replies: NamedReplies::none(),
    });
    for byte in [0x20, 0x01, 0x21] {
        assert!(rt; feed(rt, &mut pairer, record(time_us, Controller, byte)).is_ok());
    }
    pairer
}

#[test]
fn a_late_reply_breaks_a_rule_where_the_limit_counts(rt: HostRuntime) {
    // a command's last record at 1,000, and the reply limit is 9,287
    for (reply_limit, at, byte, answer) in [
        (ReplyLimit::Counts, 10_287, 0x10, Ok(Step::Waiting)),
        (
            ReplyLimit::Counts,
            10_288,
            0x10,
            refused_late(Reason::LateReply),
        ),
        (
            ReplyLimit::Counts,
            10_288,
            0x00,
            refused_late(Reason::LateReply),
        ),
        (ReplyLimit::LeftAside, 10_287, 0x10, Ok(Step::Waiting)),
        (ReplyLimit::LeftAside, 10_288, 0x10, Ok(Step::LateReply)),
        (
            ReplyLimit::LeftAside,
            10_287,
            0x00,
            refused(Reason::WrongGroup),
        ),
        (
            ReplyLimit::LeftAside,
            10_288,
            0x00,
            refused_late(Reason::WrongGroup),
        ),
    ] {
        let mut pairer = after_play(&rt, reply_limit, 1_000);
        let first = record(at, Deck, byte);
        same(&rt, feed(&rt, &mut pairer, first), answer, at);
    }
    // the reason stays, and the next record begins no late reply
    let mut pairer = after_play(&rt, ReplyLimit::Counts, 1_000);
    let first = record(10_288, Deck, 0x10);
    assert!(rt; feed(&rt, &mut pairer, first).is_err());
    let answer = feed(&rt, &mut pairer, first);
    same(&rt, answer, refused(Reason::LateReply), first.time_us);
    // a command that comes so late is no late reply
    let mut pairer = after_play(&rt, ReplyLimit::LeftAside, 1_000);
    let next = record(10_288, Controller, 0x20);
    let answer = feed(&rt, &mut pairer, next);
    same(&rt, answer, refused(Reason::NoReply), next.time_us);
}

#[test]
fn an_exchange_with_a_late_reply_has_its_true_delay(rt: HostRuntime) {
    let mut pairer = after_play(&rt, ReplyLimit::LeftAside, 1_000);
    for (at, byte, taken) in [
        (13_000, 0x10, (Step::LateReply, 4)),
        (13_400, 0x01, (Step::Waiting, 5)),
        (13_800, 0x11, (Step::Exchange, 0)),
    ] {
        let line_byte = record(at, Deck, byte);
        same(
            &rt,
            take(&rt, &mut pairer, line_byte),
            taken,
            line_byte.time_us,
        );
    }
    let delay_us = pairer.exchange().map(|exchange| exchange.delay_us);
    same(&rt, delay_us, Some(12_000), "12,000 after the command");
    // the gap inside the reply counts as ever
    let mut pairer = after_play(&rt, ReplyLimit::LeftAside, 1_000);
    for (at, byte, answer) in [
        (13_000, 0x10, Ok(Step::LateReply)),
        (23_288, 0x01, refused(Reason::ByteGap)),
    ] {
        let line_byte = record(at, Deck, byte);
        same(
            &rt,
            feed(&rt, &mut pairer, line_byte),
            answer,
            line_byte.time_us,
        );
    }
}

#[test]
fn a_wrong_reply_leaves_the_command_open(rt: HostRuntime) {
    let mut pairer = Pairer::new();
    for (at, byte) in [0x20, 0x01, 0x21].into_iter().enumerate() {
        let line_byte = record(400 * at as u64, Controller, byte);
        assert!(rt; feed(&rt, &mut pairer, line_byte).is_ok());
    }
    // 10 02 is no acknowledgement: that has the code 01.
    for (at, byte, answer) in [
        (1_200, 0x10, Ok(Step::Waiting)),
        (1_600, 0x02, Ok(Step::Waiting)),
        (2_000, 0x12, refused(Reason::WrongReply)),
        (2_400, 0x11, refused(Reason::WrongReply)),
    ] {
        same(
            &rt,
            feed(&rt, &mut pairer, record(at, Deck, byte)),
            answer,
            byte,
        );
        same(&rt, pairer.open_command(), Some(Command::Play), byte);
    }
    same(
        &rt,
        pairer.tail_len(),
        5,
        "the command and two bytes of the reply",
    );
}

/// The time that a command sets, if it sets one.
fn frame_in(command: Option<Command>) -> Option<u32> {
    command?.time().map(|time| time.frames())
}

#[test]
fn a_preset_is_read_at_the_rate(rt: HostRuntime) {
    for (rate, frame) in [
        (Rate::Fps24, None),
        (Rate::Fps25, None),
        (Rate::Fps30, Some(1_799)),
        (Rate::DropFrame, Some(1_799)),
    ] {
        let mut pairer = Pairer::at(rate);
        let is_time = frame.is_some();
        // IN DATA PRESET with 00:00:59:29, and its acknowledgement
        for (time_us, wire, byte, is_taken) in [
            (400, Controller, 0x44, true),
            (800, Controller, 0x14, true),
            (1_200, Controller, 0x29, true),
            (1_600, Controller, 0x59, true),
            (2_000, Controller, 0x00, true),
            (2_400, Controller, 0x00, true),
            (2_800, Controller, 0xDA, is_time),
            (3_200, Deck, 0x10, is_time),
            (3_600, Deck, 0x01, is_time),
        ] {
            let answer = feed(&rt, &mut pairer, record(time_us, wire, byte));
            let fault = (!is_taken).then_some(Reason::InvalidCommandTime);
            let reason = answer.err().map(|refusal| refusal.reason);
            same(&rt, reason, fault, (rate.word(), time_us));
        }
        same(&rt, frame_in(pairer.open_command()), frame, rate.word());
        let last = feed(&rt, &mut pairer, record(4_000, Deck, 0x11));
        same(&rt, last.is_ok(), is_time, rate.word());
        let command = pairer.exchange().map(|exchange| exchange.command);
        same(&rt, frame_in(command), frame, rate.word());
    }
}

/// What is open: the command that is complete, the records of each block, how many the unfinished block has, and its sum so far.
fn is_open(
    command: Option<Command>,
    asked: usize,
    answered: usize,
    wanted: usize,
    sum: u8,
) -> Open {
    Open {
        command,
        asked,
        answered,
        wanted,
        sum,
    }
}

#[test]
fn what_is_open_is_told_after_each_record(rt: HostRuntime) {
    let mut pairer = Pairer::new();
    same(&rt, pairer.open(), is_open(None, 0, 0, 0, 0), "the start");
    for (time_us, wire, byte, open) in [
        (400, Controller, 0x20, is_open(None, 1, 0, 3, 0x20)),
        (800, Controller, 0x01, is_open(None, 2, 0, 3, 0x21)),
        (
            1_200,
            Controller,
            0x21,
            is_open(Some(Command::Play), 3, 0, 0, 0),
        ),
        (
            1_600,
            Deck,
            0x10,
            is_open(Some(Command::Play), 3, 1, 3, 0x10),
        ),
        (
            2_000,
            Deck,
            0x01,
            is_open(Some(Command::Play), 3, 2, 3, 0x11),
        ),
        (2_400, Deck, 0x11, is_open(None, 0, 0, 0, 0)),
        (2_800, Controller, 0x20, is_open(None, 1, 0, 3, 0x20)),
    ] {
        take(&rt, &mut pairer, record(time_us, wire, byte));
        same(&rt, pairer.open(), open, time_us);
    }
    let broken = feed(&rt, &mut pairer, record(3_200, Deck, 0x10));
    same(
        &rt,
        broken,
        refused(Reason::ReplyInsideCommand),
        "the deck sends inside a command",
    );
    same(
        &rt,
        pairer.open(),
        is_open(None, 1, 0, 3, 0x20),
        "after a break",
    );
}
