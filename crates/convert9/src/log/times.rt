//! What the times of a log tell of its clock.

/// What there is to say of the times of a log that was converted all the same.
#[derive(Clone, Copy, PartialEq, Eq)]
pub enum Notice {
    /// They are whole numbers, which may be a counter, and were read as seconds.
    WholeNumbers,
    /// They are coarser than 100 microseconds, so limits of time mean little.
    Coarse,
}

/// What was seen of the times of a log's lines.
#[derive(Clone, Copy, Drop)]
pub(super) struct Times {
    /// Whether one is no multiple of 125 microseconds.
    is_off_125: bool,
    /// Whether one is no multiple of 200 microseconds.
    is_off_200: bool,
    /// Whether two lines in a row have two times.
    differ: bool,
    /// Whether a stamp has a point.
    has_point: bool,
}

impl Times {
    /// Before the first line.
    pub(super) fn new() -> Times {
        Times {
            is_off_125: false,
            is_off_200: false,
            differ: false,
            has_point: false,
        }
    }

    /// Counts the time of a line in, where this is that of the line before.
    pub(super) fn count(&mut self, time_us: i64, before_us: Option<i64>, has_point: bool) {
        self.is_off_125 |= time_us % 125 != 0;
        self.is_off_200 |= time_us % 200 != 0;
        self.differ |= before_us.is_some_and(|before_us| time_us != before_us);
        self.has_point |= has_point;
    }

    /// What there is to say of them. Stamps in milliseconds are coarse however many zeros stand after them, and so are those of clocks that
    /// tick every 125, 200, 250 or 500 microseconds or every 15.625 milliseconds. Of whole seconds it matters more that they may be a counter.
    pub(super) fn notice(self, has_unit: bool) -> Option<Notice> {
        if !has_unit && !self.has_point && self.differ {
            Some(Notice::WholeNumbers)
        } else if self.is_off_125 && self.is_off_200 {
            None
        } else {
            Some(Notice::Coarse)
        }
    }
}
