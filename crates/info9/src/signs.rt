//! What a capture shows of itself, one record after another.

use crate::damage::Damage;
use crate::echo::Echo;
use crate::place::{Place, Seen};
use crate::rates::sign_of_rate;
use crate::sign::{Seeming, Sign};
use crate::step::Step;
use crate::turns::Turns;
use crate::wire_counts::WireCounts;
use block9::BYTE_GAP_US;
use capture9::{LineByte, Wire};
use report9::Beginning;
use tc25::Rate;

/// A tap that collects bytes is told where they are too close in more than this many blocks.
const HANDFUL: u64 = 5;

/// From this step on times are coarse, in microseconds.
const COARSE_US: u64 = 1_000;

/// How many signs there may be.
pub const MOST_SIGNS: usize = 11;

/// The records of a capture so far, and what they show. Its size is fixed: it takes no memory as it goes.
#[derive(Drop)]
pub struct Signs {
    pub(crate) rate: Rate,
    beginning: Beginning,
    /// The first record, and its wire.
    pub(crate) first: Option<(Place, Wire)>,
    pub(crate) last: Place,
    pub(crate) step: Step,
    pub(crate) controller: WireCounts,
    pub(crate) deck: WireCounts,
    pub(crate) turns: Turns,
    damage: Damage,
    echo: Echo,
    /// Whether a whole command begins with record 1.
    is_begun: bool,
}

impl Signs {
    /// Of no record yet. Times are read at the rate; the beginning is that of the capture's judging, with or without `--sync`.
    pub fn new(rate: Rate, beginning: Beginning) -> Signs {
        Signs {
            rate,
            beginning,
            first: None,
            last: Place::NONE,
            step: Step::new(),
            controller: WireCounts::new(Wire::Controller),
            deck: WireCounts::new(Wire::Deck),
            turns: Turns::new(rate),
            damage: Damage::NONE,
            echo: Echo::NONE,
            is_begun: false,
        }
    }

    /// Takes the capture's next record.
    pub fn take(&mut self, record: &LineByte) {
        let place = Place {
            record: self.last.record.saturating_add(1),
            time_us: record.time_us,
        };
        self.first = self.first.or(Some((place, record.wire)));
        if place.time_us.saturating_sub(self.last.time_us) > BYTE_GAP_US {
            self.take_silence(place);
        }
        self.last = place;
        self.step.take(record.time_us);
        let seen = Seen {
            place,
            byte: record.byte,
        };
        self.echo.take(record.wire, seen);
        match record.wire {
            Wire::Controller => self.take_controller(seen),
            Wire::Deck => self.take_deck(seen),
        }
    }

    /// Takes a silence of both wires, which this record ends.
    fn take_silence(&mut self, to: Place) {
        let from = self.last;
        let (controller, deck) = (&self.controller.cutter, &self.deck.cutter);
        let lacking = controller.lacking_after(from).max(deck.lacking_after(from));
        if lacking > 0 {
            self.damage.take_silence(from, to, lacking);
        }
    }

    /// Takes a byte of the controller.
    fn take_controller(&mut self, seen: Seen) {
        if let Some(whole) = self.controller.take(seen, &mut self.damage) {
            self.is_begun |= whole.first.record == 1;
            self.deck.cutter.take_other(whole.first);
            self.turns.take_command(&whole);
        }
    }

    /// Takes a byte of the deck.
    fn take_deck(&mut self, seen: Seen) {
        self.turns.awaited.take_deck();
        if let Some(whole) = self.deck.take(seen, &mut self.damage) {
            self.controller.cutter.take_other(whole.first);
            self.turns.take_reply(&whole);
        }
    }

    /// The signs that the records so far show. Where the wires are swapped, or one comes again on the other, no sign is looked for that
    /// depends on whose wire is which.
    pub fn signs(&self) -> [Option<Sign>; MOST_SIGNS] {
        let damage = self.damage_at_end();
        let coarse = self.coarse_times();
        let close = self.collects_bytes().filter(|_| coarse.is_none());
        let is_timed = coarse.is_none() && close.is_none();
        let twice = self.written_twice(&damage).filter(|_| is_timed);
        let (controller, deck) = (self.controller.records, self.deck.records);
        let crossed = self.wires_swapped().or(self.echo.sign(controller, deck));
        let mut signs = [None; MOST_SIGNS];
        signs[0] = crossed;
        signs[1] = close;
        signs[2] = twice;
        signs[3] = coarse;
        if crossed.is_some() {
            return signs;
        }
        let turns = &self.turns;
        let clocks = turns.clocks.sign(is_timed);
        let is_short_command = damage.shorts.is_sent_on(Wire::Controller);
        signs[0] = self.begins_inside().filter(|_| !is_short_command);
        signs[4] = damage.holes.sign();
        signs[5] = sign_of_rate(self.rate, &turns.set, &turns.told, &turns.running);
        signs[6] = clocks;
        signs[7] = turns.awaited.sign();
        signs[8] = damage.shorts.sign();
        signs[9] = damage.shorts.lost().sign();
        signs[10] = turns.fits.sign().filter(|_| clocks.is_none());
        signs
    }

    /// The damage, with what ended before the end of the capture.
    fn damage_at_end(&self) -> Damage {
        let mut damage = self.damage;
        for wire in [&self.controller, &self.deck] {
            if let Some(piece) = wire.cutter.last_piece() {
                damage.take_piece(&piece);
            }
        }
        damage.end();
        damage
    }

    /// Bytes were written twice, or else some are closer than a byte lasts.
    fn written_twice(&self, damage: &Damage) -> Option<Sign> {
        let (controller, deck) = (&self.controller.close_bytes, &self.deck.close_bytes);
        let twice = damage.twice.sign();
        if twice.is_some() {
            return twice;
        }
        let what = Seeming::CloseBytes {
            least_us: controller.least_us.min(deck.least_us),
            bytes: controller.bytes.saturating_add(deck.bytes),
        };
        let at = earlier(controller.first, deck.first)?;
        Some(Sign { at, what })
    }

    /// Both wires carry the other's groups, and more of them than their own.
    fn wires_swapped(&self) -> Option<Sign> {
        let (controller, deck) = (&self.controller, &self.deck);
        let is_swapped = controller.strangers > controller.own() && deck.strangers > deck.own();
        let what = Seeming::WiresSwapped {
            controller: controller.strangers,
            deck: deck.strangers,
        };
        let at = earlier(controller.first_stranger, deck.first_stranger)?;
        is_swapped.then_some(Sign { at, what })
    }

    /// Record 1 is the deck's, or no whole command begins there. It may be one that is still open at the end.
    fn begins_inside(&self) -> Option<Sign> {
        let (at, wire) = self.first?;
        let is_open = self.controller.cutter.is_open_from_start();
        let may_begin = wire == Wire::Controller && (self.is_begun || is_open);
        let is_asked = self.beginning == Beginning::FirstRecord;
        let what = Seeming::BeginsInside;
        (is_asked && !may_begin).then_some(Sign { at, what })
    }

    /// Bytes of blocks are closer than a byte lasts.
    fn collects_bytes(&self) -> Option<Sign> {
        let (controller, deck) = (&self.controller, &self.deck);
        let blocks = controller.close.saturating_add(deck.close);
        let least_us = controller.least_us.min(deck.least_us);
        let what = Seeming::CollectsBytes { least_us, blocks };
        let at = earlier(controller.first_close, deck.first_close)?;
        (blocks > HANDFUL).then_some(Sign { at, what })
    }

    /// The step of the times is a millisecond or more.
    fn coarse_times(&self) -> Option<Sign> {
        let step_us = self.step.us()?;
        let (at, _) = self.first?;
        let what = Seeming::CoarseTimes { step_us };
        (step_us >= COARSE_US).then_some(Sign { at, what })
    }
}

/// The earlier of two places, of those that there are.
fn earlier(one: Option<Place>, another: Option<Place>) -> Option<Place> {
    match (one, another) {
        (Some(one), Some(another)) if another.record < one.record => Some(another),
        (None, another) => another,
        (one, _) => one,
    }
}
