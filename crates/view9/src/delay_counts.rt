//! How many replies began after how long.

use std::alloc::{AllocError, Global};
use std::collections::BTreeMap;
use std::collections::btree_map::Iter;

/// How many replies began after how long.
#[derive(Drop)]
pub struct DelayCounts {
    replies: u64,
    /// How many there are of each delay, in microseconds. A session has few different ones.
    of_delay: BTreeMap<u64, u64>,
}

impl DelayCounts {
    /// Of no reply.
    pub fn new(alloc: Global) -> DelayCounts {
        DelayCounts {
            replies: 0,
            of_delay: BTreeMap::new(alloc),
        }
    }

    /// Counts so many replies that began after so many microseconds.
    pub fn add(&mut self, delay_us: u64, replies: u64) -> Result<(), AllocError> {
        self.replies = self.replies.saturating_add(replies);
        let count = self.of_delay.entry(delay_us)?.or_insert(0);
        *count = count.saturating_add(replies);
        Ok(())
    }

    /// How many replies there are.
    pub fn replies(&self) -> u64 {
        self.replies
    }

    /// The least delay, the middle one, the 99th of a hundred and the greatest, in microseconds; 0 where there is no reply.
    pub fn told(&self) -> [u64; 4] {
        let middle = self.replies.div_ceil(2);
        let nearly_all = self.replies.saturating_mul(99).div_ceil(100);
        [
            self.at_place(1),
            self.at_place(middle),
            self.at_place(nearly_all),
            self.at_place(self.replies),
        ]
    }

    /// The delays in order of size, each with the number of its replies.
    pub fn iter(&self) -> Iter<'_, u64, u64> {
        self.of_delay.iter()
    }

    /// The delay at a place in the order of size, counted from 1, in microseconds; 0 where there is none.
    pub fn at_place(&self, place: u64) -> u64 {
        let mut passed = 0u64;
        for (delay_us, replies) in self.of_delay.iter() {
            passed = passed.saturating_add(*replies);
            if place <= passed {
                return *delay_us;
            }
        }
        0
    }
}
