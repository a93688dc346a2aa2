//! The stretch of a capture that a view shows.

/// From when to when, in microseconds on the capture's clock. All of the capture is judged: the stretch says what is shown of it.
#[derive(Clone, Copy, PartialEq, Eq)]
pub struct Stretch {
    /// What is shown comes at this time or later.
    pub from_us: u64,
    /// What is shown comes before this time; none where there is no end.
    pub to_us: Option<u64>,
}

impl Stretch {
    ghost use Rattle.std.specs.Prelude.{◌↔◌, ◌≤◌, ◌<◌, IfSome, IsTrue};

    /// All of a capture.
    pub const ALL: Stretch = Stretch {
        from_us: 0,
        to_us: None,
    };

    /// Whether what comes at this time, in microseconds, is shown.
    pub fn has(self, time_us: u64) -> bool
        ensures { IsTrue result ↔ (self.from_us ≤ time_us) × IfSome self.to_us (λ to_us. time_us < to_us) }
    {
        let has_ended = match self.to_us {
            Some(to_us) => to_us <= time_us,
            None => false,
        };
        self.from_us <= time_us && !has_ended
    }
}
