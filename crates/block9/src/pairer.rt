//! Pairs commands with replies, one record at a time.
ghost use Rattle.std.specs.List.{sum};
ghost use Rattle.std.specs.Prelude.{◌≡◌, ◌≤◌, ◌%◌, ◌++◌, ◌∷◌, false, true, [], IfOk, IfErr, OnErr, OnOk, None, Some};
ghost use Rattle.block9.specs.Exchange.{Does, Outcome, step_of, tail_after};
ghost use Rattle.block9.specs.Exchange.Outcome.{asks};
ghost use Rattle.block9.specs.declared.exchange.Exchange.{Exchange as AnExchange};
ghost use Rattle.block9.specs.declared.place.Place.TheVariants.{InReply};
ghost use Rattle.block9.specs.Line.{bytes_of, last_time};
ghost use Rattle.block9.specs.Working.Body.{block_of};
ghost use Rattle.block9.specs.Working.Inside.{Closes, IsInside, IsOf, IsTurn, to_come};
ghost use Rattle.block9.specs.Working.Table.{ends_block, open_at, pairing, place_of, reply_fault};

use crate::command::Command;
use crate::exchange::Exchange;
use crate::line::{block_len, last_time};
use crate::line_rules::{LineRules, ReplyLimit};
use crate::open::Open;
use crate::open_block::OpenBlock;
use crate::place::Place;
use crate::reason::Reason;
use crate::refusal::Refusal;
use crate::replies::NamedReplies;
use crate::rules::{Turned, is_late, meaning, reply_fault, sum_fault, turn};
use crate::tail::Tail;
use capture9::{LineByte, Wire};
use std::marker::Model;
use tc25::Rate;

/// Pairs commands with replies, one record at a time.
///
/// It keeps its tail, which is the records since the last complete exchange: at most a command of 18 records
/// and 17 of its reply. Right after a record that completes an exchange it keeps that exchange. Once a record broke a rule it
/// keeps the reason, and the tail before that record. No call takes memory.
#[derive(Drop)]
pub struct Pairer<'a> {
    /// What its records are judged by.
    rules: LineRules<'a>,
    tail: Tail,
    /// The block that is open at the tail's end.
    block: OpenBlock,
    /// The exchange that is under way, where its command is complete, or the one that the last record completed.
    exchange: Exchange,
    /// The time of the last record that is not in the tail: it ended an exchange, or broke a rule.
    passed_us: Option<u64>,
    reason: Option<Reason>,
}

impl<'a> Model for Pairer<'a> {
    ghost use Rattle.std.specs.Prelude.{◌≡◌, None};
    ghost use Rattle.block9.specs.Pairer.{Paired};
    ghost use Rattle.block9.specs.Working.Inside.{IsInside, completed, last_fed};
    ghost use Rattle.std.specs.Coded.{codes};
    ghost use Rattle.smallvec.specs.SmallVec.{small_vec_code};
    ghost use Rattle.std_collections.specs.Layout.BTreeMap.{btree_map_code};

    ghost Value = { Paired };

    ghost coded = { Prim.hlevel (codes, btree_map_code, small_vec_code) };

    ghost view = { λ p. record {
      rules = p.rules;
      tail = p.tail;
      last_time = last_fed p.tail p.reason p.passed_us;
      reason = p.reason;
      exchange = completed p.tail p.reason p.passed_us p.exchange;
    } };

    ghost invariant = { λ p. IsInside p.rules p.tail p.block p.exchange };
}

/// What a record does that keeps the rules.
#[derive(Clone, Copy, PartialEq, Eq)]
pub enum Step {
    /// It begins a block or goes on with one.
    Waiting,
    /// It begins a reply after the reply limit, which is left aside.
    LateReply,
    /// It is the last record of a command, whose reply is still to come.
    Command,
    /// It is the last record of a reply: an exchange is complete, which [`Pairer::exchange`] shows up to the next record.
    Exchange,
}

impl<'a> Pairer<'a> {
    ghost use Rattle.std.specs.Prelude.{◌≡◌, ◌≤◌, ◌↔◌, false, length, option_map, None, Some, [], IfOk, IfErr};
    ghost use Rattle.std.specs.Option.{ForSome};
    ghost use Rattle.block9.specs.Exchange.{Outcome, TellsLate, step_of};
    ghost use Rattle.block9.specs.Pairer.{BeginsWith, IsOpenAfter, Takes, Refuses};

    /// A pairer that was fed nothing, and judges records by these rules: it has no tail, no last time, no reason and no exchange.
    pub fn by(rules: LineRules<'a>) -> Pairer<'a>
        ensures { result ≡ record { rules = rules.entry; tail = []; last_time = None; reason = None; exchange = None } }
    {
        Pairer {
            rules,
            tail: Tail::new(),
            block: OpenBlock::to_come(Wire::Controller),
            exchange: Exchange::blank(),
            passed_us: None,
            reason: None,
        }
    }

    /// [`Pairer::by`] where times are read at this rate, the reply limit counts, and no replies are named.
    pub fn at(rate: Rate) -> Pairer<'a>
        ensures { result ≡ record { rules = record { rate = rate; reply_limit = ReplyLimit.Counts; replies = None }; tail = []; last_time = None; reason = None; exchange = None } }
    {
        Pairer::by(LineRules {
            rate,
            reply_limit: ReplyLimit::Counts,
            replies: NamedReplies::none(),
        })
    }

    /// Takes the next record, whose time is not below the last one's.
    ///
    /// `Ok` says what the record does. The tail then has it at its end, and is empty after a whole
    /// exchange, which [`Pairer::exchange`] shows up to the next call.
    ///
    /// `Err` is the first rule that the record breaks, in the order that [`Reason`] gives and
    /// `specs/Reason.antt` states, a line for each: the records so far keep the rules, and with this one they
    /// do not; and whether the record begins a late reply, whatever it breaks. The tail stays as it was. Every later
    /// call answers the same reason, says nothing of a late reply, and changes nothing. [`Reason::NoRun`] is never among them.
    ///
    /// The rules are the protocol manual's; where it leaves a choice, they favour the deck.
    #[inline(always)] // else each record costs a call
    pub fn feed(&mut self, line_byte: LineByte) -> Result<Step, Refusal>
        requires { ForSome self.old.last_time (λ before. before ≤ line_byte.time_us) }
        ensures takes { self.old.reason ≡ None → IfOk result (λ step. (outcome : Outcome) × (step ≡ step_of outcome) × Takes self.old line_byte outcome self.new) }
        ensures refuses { self.old.reason ≡ None → IfErr result (λ refusal. Refuses self.old line_byte refusal.reason self.new × TellsLate self.old.rules self.old.tail line_byte refusal.late) }
        ensures again { (reason : Reason) → self.old.reason ≡ Some reason
            → (result ≡ Err (record { reason = reason; late = false })) × (self.new ≡ self.old) }
    {
        if let Some(reason) = self.reason {
            return Err(Refusal::of(reason));
        }
        let limit = self.rules.reply_limit;
        match turn(limit, self.block, self.tail.as_slice(), line_byte) {
            Ok(Turned::Open { block, late }) => {
                self.block = block;
                self.tail.push(line_byte);
                if late {
                    return Ok(Step::LateReply);
                }
                return Ok(Step::Waiting);
            }
            Ok(Turned::Last) => {}
            Err(reason) => {
                // asked of a refused record alone, so that no other pays for the answer
                let late = is_late(self.block, self.tail.as_slice(), line_byte);
                self.passed_us = Some(line_byte.time_us);
                return refuse(&mut self.reason, Refusal { reason, late });
            }
        }
        self.passed_us = Some(line_byte.time_us);
        end(
            &self.rules,
            &mut self.tail,
            &mut self.block,
            &mut self.exchange,
            &mut self.reason,
            line_byte,
        )
    }

    /// The time of the last record that it was fed, in microseconds, and `None` before the first record. After a
    /// reason it stays that of the record which broke the rule.
    pub fn last_time(&self) -> Option<u64>
        ensures { result ≡ self.now.last_time }
    {
        let tail = self.tail.as_slice();
        if self.reason.is_some() || tail.is_empty() {
            return self.passed_us;
        }
        Some(last_time(tail))
    }

    /// The records since the last complete exchange: those of a command whose reply is unfinished yet, with what there is of the
    /// reply, or of a command that is unfinished itself. After a reason they are those before the record which broke the
    /// rule.
    pub fn tail(&self) -> &[LineByte]
        ensures { result.now ≡ self.now.tail }
    {
        self.tail.as_slice()
    }

    /// What the command means with which the tail begins, once that is complete. After a reason it is that of the tail before
    /// the record which broke the rule.
    pub fn open_command(&self) -> Option<Command>
        ensures { (c : Command) → (result ≡ Some c) ↔ BeginsWith self.now.rules self.now.tail c }
    {
        match self.block.wire {
            Wire::Controller => None,
            Wire::Deck => Some(self.exchange.command),
        }
    }

    /// What is open since the last complete exchange. After a reason it is what was open before the record which broke the rule.
    pub fn open(&self) -> Open
        ensures { IsOpenAfter self.now.rules self.now.tail result }
    {
        let tail = self.tail.as_slice();
        match self.block.place() {
            Place::Idle => Open {
                command: None,
                asked: 0,
                answered: 0,
                wanted: 0,
                sum: 0,
            },
            Place::InCommand => Open {
                command: None,
                asked: tail.len(),
                answered: 0,
                wanted: block_len(tail),
                sum: self.block.sum,
            },
            Place::AfterCommand => Open {
                command: Some(self.exchange.command),
                asked: tail.len(),
                answered: 0,
                wanted: 0,
                sum: 0,
            },
            Place::InReply => {
                let reply = reply_in(tail);
                Open {
                    command: Some(self.exchange.command),
                    asked: block_len(tail),
                    answered: reply.len(),
                    wanted: block_len(reply),
                    sum: self.block.sum,
                }
            }
        }
    }

    /// The exchange that the last record completed, and `None` where it completed none or broke a rule, and before the first record.
    #[inline(always)] // so that it costs nothing right after `feed` answered an exchange
    pub fn exchange(&self) -> Option<&Exchange>
        ensures { option_map (λ e. e.now) result ≡ self.now.exchange }
    {
        match (self.tail.len(), self.reason, self.passed_us) {
            (0, None, Some(_)) => Some(&self.exchange),
            _ => None,
        }
    }

    /// The exchange that the last record completed: to be asked right after `feed` answered [`Step::Exchange`]. This asks nothing, so
    /// it costs nothing.
    #[inline(always)]
    pub fn completed_exchange(&self) -> &Exchange
        requires { (e : AnExchange) × (self.now.exchange ≡ Some e) }
        ensures { self.now.exchange ≡ Some result.now }
    {
        &self.exchange
    }

    /// How many records came since the last complete exchange, at most 35.
    pub fn tail_len(&self) -> usize
        ensures len { result ≡ length self.now.tail }
        ensures bound { result ≤ 35 }
    {
        self.tail.len()
    }
}

/// Keeps the reason why a record is refused, and refuses it.
#[inline(always)] // else the answer is handed on through memory
fn refuse(kept: &mut Option<Reason>, refusal: Refusal) -> Result<Step, Refusal>
    ensures refused { result ≡ Err refusal }
    ensures kept { kept.new ≡ Some refusal.reason }
{
    *kept = Some(refusal.reason);
    Err(refusal)
}

/// The records of the reply that the tail ends with.
fn reply_in<'a>(tail: &'a [LineByte]) -> &'a [LineByte]
    requires { place_of tail.now ≡ InReply }
    ensures { result.now ≡ open_at (place_of tail.entry.now) tail.entry.now }
{
    &tail[block_len(tail)..]
}

/// Takes the last record of a command: the exchange gets its block and its meaning. An error is the rule that the command breaks,
/// and what is open stays.
#[inline(always)]
fn end_command(
    rules: &LineRules,
    tail: &mut Tail,
    block: &mut OpenBlock,
    exchange: &mut Exchange,
    line_byte: LineByte,
) -> Result<(), Reason>
    requires held { IsInside rules.now tail.old block.old exchange.old }
    requires wire { block.old.wire ≡ Wire.Controller }
    requires later { last_time tail.old ≤ line_byte.time_us }
    requires ends { IsTurn rules.now tail.old line_byte true }
    requires right_sum { line_byte.byte ≡ sum (bytes_of (open_at (place_of tail.old) tail.old)) % 256 }
    ensures ok { OnOk result (Does rules.now tail.old line_byte asks × (tail.new ≡ tail.old ++ line_byte ∷ []) × IsInside rules.now tail.new block.new exchange.new) }
    ensures err { IfErr result (λ reason. pairing rules.now tail.old line_byte ≡ Some reason) }
    ensures same { OnErr result ((tail.new ≡ tail.old) × (block.new ≡ block.old)) }
{
    exchange.block.fill_from(tail.as_slice());
    exchange.command = meaning(rules.rate, &exchange.block)?;
    *block = OpenBlock::to_come(Wire::Deck);
    tail.push(line_byte);
    Ok(())
}

/// Takes the last record of a reply: the exchange gets the reply and the times, and is complete. An error is the rule that the
/// reply breaks, and what is open stays.
#[inline(always)]
fn end_reply(
    rules: &LineRules,
    tail: &mut Tail,
    block: &mut OpenBlock,
    exchange: &mut Exchange,
) -> Result<(), Reason>
    requires held { IsInside rules.now tail.old block.old exchange.old }
    requires wire { block.old.wire ≡ Wire.Deck }
    requires ends { ends_block (open_at (place_of tail.old) tail.old) ≡ true }
    ensures ok { OnOk result ((reply_fault rules.now exchange.old.block (Some exchange.old.command) (block_of (bytes_of (open_at (place_of tail.old) tail.old))) ≡ None)
        × Closes tail.old exchange.old exchange.new × (tail.new ≡ []) × (block.new ≡ to_come Wire.Controller)) }
    ensures err { IfErr result (λ reason. reply_fault rules.now exchange.old.block (Some exchange.old.command) (block_of (bytes_of (open_at (place_of tail.old) tail.old))) ≡ Some reason) }
    ensures same { OnErr result ((tail.new ≡ tail.old) × (block.new ≡ block.old) × IsInside rules.now tail.new block.new exchange.new) }
{
    let records = tail.as_slice();
    let begin = block_len(records);
    exchange.reply.fill_from(reply_in(records));
    if let Some(reason) = reply_fault(rules, &exchange.block, &exchange.command, &exchange.reply) {
        return Err(reason);
    }
    exchange.time_us = records[0].time_us;
    exchange.delay_us = records[begin].time_us - records[begin - 1].time_us;
    *block = OpenBlock::to_come(Wire::Controller);
    tail.clear();
    Ok(())
}

/// What the last record of a block does, or the first rule that it breaks by its sum or by what the block means. A record that
/// breaks a rule leaves what is open as it is.
#[inline(always)] // else the answer is handed on through memory
fn end(
    rules: &LineRules,
    tail: &mut Tail,
    block: &mut OpenBlock,
    exchange: &mut Exchange,
    kept: &mut Option<Reason>,
    line_byte: LineByte,
) -> Result<Step, Refusal>
    requires held { IsInside rules.now tail.old block.old exchange.old }
    requires later { last_time tail.old ≤ line_byte.time_us }
    requires ends { IsTurn rules.now tail.old line_byte true }
    ensures ok { IfOk result (λ step. (outcome : Outcome) × (step ≡ step_of outcome) × Does rules.now tail.old line_byte outcome × IsOf exchange.new outcome × (tail.new ≡ tail_after tail.old line_byte outcome) × (kept.new ≡ kept.old)) }
    ensures err { IfErr result (λ refusal. (pairing rules.now tail.old line_byte ≡ Some refusal.reason) × (refusal.late ≡ false) × (kept.new ≡ Some refusal.reason) × (tail.new ≡ tail.old)) }
    ensures holds { IsInside rules.now tail.new block.new exchange.new }
{
    if let Some(reason) = sum_fault(*block, line_byte.byte) {
        return refuse(kept, Refusal::of(reason));
    }
    match block.wire {
        Wire::Controller => match end_command(rules, tail, block, exchange, line_byte) {
            Ok(()) => Ok(Step::Command),
            Err(reason) => refuse(kept, Refusal::of(reason)),
        },
        Wire::Deck => match end_reply(rules, tail, block, exchange) {
            Ok(()) => Ok(Step::Exchange),
            Err(reason) => refuse(kept, Refusal::of(reason)),
        },
    }
}
