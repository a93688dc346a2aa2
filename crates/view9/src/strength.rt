//! How much was known of the deck, and what took it away: how strong a yes is.

use crate::called::Called;
use crate::field::{FIELDS, Field, Value};
use block9::{Command, Exchange};
use deck9::Profile;
use indexmap::IndexMap;
use seen9::SeenExchange;
use std::alloc::{AllocError, Global};
use text9::Text;

/// At how many exchanges each field was known, and after which commands it was known no more. A count stays at its greatest once
/// that is reached.
#[derive(Drop)]
pub struct Strength<'a> {
    profile: &'a Profile,
    exchanges: u32,
    presets: u32,
    known: [u32; FIELDS],
    /// At how many a register is known to be set, but not to which time.
    set: [u32; FIELDS],
    /// How often each field was known no more after a command.
    lapses: IndexMap<Called<'a>, [u32; FIELDS]>,
}

impl<'a> Strength<'a> {
    /// Before the first exchange.
    pub fn new(alloc: Global, profile: &'a Profile) -> Strength<'a> {
        Strength {
            profile,
            exchanges: 0,
            presets: 0,
            known: [0; FIELDS],
            set: [0; FIELDS],
            lapses: IndexMap::new(alloc),
        }
    }

    /// Counts an exchange.
    pub fn count(&mut self, seen: &SeenExchange<'_>) -> Result<(), AllocError> {
        self.exchanges = self.exchanges.saturating_add(1);
        if is_preset(seen.exchange) {
            self.presets = self.presets.saturating_add(1);
        }
        for field in Field::told(self.profile.hands) {
            match field.value_in(&seen.after) {
                Value::Set => self.set[*field as usize] = self.set[*field as usize].saturating_add(
                    1,
                ),
                Value::Unknown => self.count_lapse(*field, seen)?,
                _ => self.known[*field as usize] = self.known[*field as usize].saturating_add(1),
            }
        }
        Ok(())
    }

    /// Counts that a field is known no more after an exchange, where it was known before.
    fn count_lapse(&mut self, field: Field, seen: &SeenExchange<'_>) -> Result<(), AllocError> {
        let was_known = match &seen.before {
            Some(before) => field.value_in(before).is_known(),
            None => false,
        };
        if was_known && field.is_kept() {
            let called = Called::of(self.profile, seen.exchange);
            let lapses = self.lapses.entry(called)?.or_insert([0; FIELDS]);
            lapses[field as usize] = lapses[field as usize].saturating_add(1);
        }
        Ok(())
    }

    /// Puts the lines that tell it, where there was an exchange.
    pub fn put(&self, line: &mut Text) {
        if self.exchanges == 0 {
            return;
        }
        self.put_known(line);
        if self.may_have_ignored() {
            self.put_ignored(line);
            line.put("\n");
        }
        for (called, lapses) in self.lapses.iter() {
            put_lapses(line, *called, lapses);
            line.put("\n");
        }
    }

    /// How many exchanges were counted.
    pub fn exchanges(&self) -> u32 {
        self.exchanges
    }

    /// At how many of them a field was known. A register that is set to a time that nobody knows does not count.
    pub fn times_known(&self, field: Field) -> u32 {
        self.known[field as usize]
    }

    /// At how many of them a register was known to be set, and nobody knew to which time.
    pub fn times_set(&self, field: Field) -> u32 {
        self.set[field as usize]
    }

    /// So many of the exchanges in tenths of a per cent of them, rounded down; 0 where there is none.
    pub fn tenths(&self, times: u32) -> u64 {
        u64::from(times) * 1000 / u64::from(self.exchanges).max(1)
    }

    /// Whether a deck in LOCAL may have ignored presets that it acknowledged, since local was never known.
    pub fn may_have_ignored(&self) -> bool {
        self.presets > 0 && self.times_known(Field::Local) == 0
    }

    /// Puts what such a deck may have done, with no end of a line.
    pub fn put_ignored(&self, line: &mut Text) {
        line.put("local was never known: a deck in LOCAL may have ignored the ");
        if self.presets == 1 {
            line.put("preset");
        } else {
            line.put_count("", u64::from(self.presets)).put(" presets");
        }
        line.put(" that it acknowledged");
    }

    /// How often each field was known no more after a command, in the order in which the commands first came.
    pub fn lapses(&self) -> &IndexMap<Called<'a>, [u32; FIELDS]> {
        &self.lapses
    }

    /// Puts at how many of the exchanges each field was known.
    fn put_known(&self, line: &mut Text) {
        line.put_count("known, of ", u64::from(self.exchanges))
            .put(" exchanges: ");
        for field in &Field::ALL {
            if *field != Field::Shown && !field.is_kept() {
                continue;
            }
            // The shown mode comes first of them.
            line.put(if *field == Field::Shown { "" } else { ", " });
            line.put(field.name()).put(" ");
            put_share(line, self.tenths(self.times_known(*field)));
            let set = self.times_set(*field);
            if set > 0 {
                line.put(" (set ");
                put_share(line, self.tenths(set));
                line.put(")");
            }
        }
        line.put("\n");
    }
}

/// Whether a data preset was acknowledged.
fn is_preset(exchange: &Exchange) -> bool {
    let is_preset = matches!(
        exchange.command,
        Command::InDataPreset { .. }
            | Command::OutDataPreset { .. }
            | Command::AudioInDataPreset { .. }
            | Command::AudioOutDataPreset { .. }
    );
    is_preset && exchange.reply.is_ack()
}

/// Puts tenths of a per cent as a percentage.
fn put_share(line: &mut Text, tenths: u64) {
    line.put_tenths(tenths).put(" %");
}

/// Puts how often each field was known no more after a command, with no end of a line.
pub fn put_lapses(line: &mut Text, called: Called<'_>, lapses: &[u32; FIELDS]) {
    line.put("no longer known after ");
    line.put_with(|text| called.put(text));
    let lapsed = Field::ALL
        .iter()
        .filter(|field| lapses[**field as usize] > 0);
    for (place, field) in lapsed.enumerate() {
        line.put(if place == 0 { ": " } else { ", " })
            .put(field.name())
            .put_count(" ", u64::from(lapses[*field as usize]));
    }
}
