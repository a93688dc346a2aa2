//! The queries that are counted and not told.

use crate::called::Called;
use bitflags::Flags;
use block9::{Exchange, NakBits};
use deck9::Profile;
use indexmap::IndexMap;
use report9::put_nak;
use std::alloc::{AllocError, Global};
use text9::Text;

/// A query, as far as one is told from another: those that the deck refused are apart, with its reasons.
#[derive(Clone, Copy, PartialEq, Eq, Hash)]
struct Query<'a> {
    called: Called<'a>,
    nak: Option<u8>,
}

/// How often each query came, in the order in which they first came. A count stays at its greatest once that is reached.
#[derive(Drop)]
pub struct Tally<'a> {
    profile: &'a Profile,
    counts: IndexMap<Query<'a>, u32>,
}

impl<'a> Tally<'a> {
    /// Of no query.
    pub fn new(alloc: Global, profile: &'a Profile) -> Tally<'a> {
        Tally {
            profile,
            counts: IndexMap::new(alloc),
        }
    }

    /// Counts a query.
    pub fn count(&mut self, exchange: &Exchange) -> Result<(), AllocError> {
        let query = Query {
            called: Called::of(self.profile, exchange),
            nak: NakBits::of(&exchange.reply).map(|nak| nak.bits()),
        };
        let count = self.counts.entry(query)?.or_insert(0);
        *count = count.saturating_add(1);
        Ok(())
    }

    /// Puts the line that counts them, where there are some, and forgets them.
    pub fn put(&mut self, line: &mut Text) {
        if !self.counts.is_empty() {
            line.put("... ");
            self.put_counts(line);
            line.put("\n");
        }
    }

    /// Puts how often each came, with commas between, and forgets them; nothing where there are none.
    pub fn put_counts(&mut self, line: &mut Text) {
        for (place, (query, count)) in self.counts.iter().enumerate() {
            line.put(if place == 0 { "" } else { ", " });
            put_query(line, *query, *count);
        }
        self.counts.clear();
    }
}

/// Puts how often a query came.
fn put_query(line: &mut Text, query: Query<'_>, count: u32) {
    line.put_count("", u64::from(count)).put(" ");
    line.put_with(|text| query.called.put(text));
    if let Some(bits) = query.nak {
        line.put(" -> ");
        line.put_with(|text| put_nak(text, NakBits::from_bits_retain(bits)));
    }
}
