//! The time that the page shows, and where a time stands in it.

/// The stretch of a capture that the page shows, while the capture is read.
#[derive(Clone, Copy, PartialEq, Eq)]
pub(crate) struct Window {
    /// Where it begins, in microseconds on the capture's clock.
    pub(crate) from_us: u64,
    /// Where it ends; none where it goes on to the last record.
    pub(crate) to_us: Option<u64>,
}

impl Window {
    /// All of a capture.
    pub(crate) const ALL: Window = Window {
        from_us: 0,
        to_us: None,
    };

    /// How far a time is behind its beginning, in microseconds; of a time outside, its nearer end.
    pub(crate) fn since(self, us: u64) -> u64 {
        us.min(self.to_us.unwrap_or(u64::MAX))
            .saturating_sub(self.from_us)
    }

    /// A stretch of time as far as it lies inside, since the window's beginning; none where it lies outside.
    pub(crate) fn clip(self, from_us: u64, to_us: u64) -> Option<(u64, u64)> {
        let is_before = to_us < self.from_us;
        let is_behind = self.to_us.unwrap_or(u64::MAX) <= from_us;
        if is_before || is_behind {
            return None;
        }
        Some((self.since(from_us), self.since(to_us)))
    }
}

/// From when to when the page shows the capture, in microseconds on the capture's clock.
#[derive(Clone, Copy, PartialEq, Eq)]
pub(crate) struct Span {
    /// Where it begins: at the first record, or where the stretch does.
    pub(crate) from_us: u64,
    /// Where it ends: at the last record, or where the stretch does.
    pub(crate) to_us: u64,
}

impl Span {
    /// How long it lasts, in microseconds.
    pub(crate) fn lasts_us(self) -> u64 {
        self.to_us.saturating_sub(self.from_us)
    }

    /// Where a time since the beginning stands in a width of so many parts, to the nearest one.
    pub(crate) fn part(self, since_us: u64, parts: u64) -> u64 {
        let lasts_us = u128::from(self.lasts_us());
        let part = u128::from(since_us)
            .saturating_mul(u128::from(parts))
            .saturating_add(lasts_us / 2)
            .checked_div(lasts_us)
            .unwrap_or(0);
        u64::try_from(part).unwrap_or(parts).min(parts)
    }

    /// Where a time since the beginning stands in the width, in 100,000ths of it. The place `{2}` of a form puts that in a chart that is
    /// 1,000 wide, and `{3}` in per cent.
    pub(crate) fn place(self, since_us: u64) -> u64 {
        self.part(since_us, 100_000)
    }
}
