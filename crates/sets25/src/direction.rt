//! The two ways to go from one frame to a neighbour.

ghost use Rattle.std.specs.Prelude.{◌≡◌, ◌<◌};
ghost use Rattle.tc25.specs.Day.{day, longest_day};
ghost use Rattle.sets25.specs.Working.Moves.{moved, edge_of, far_edge_of};

use tc25::Rate;

/// To the next frame or to the frame before, round the day.
#[derive(Clone, Copy, PartialEq, Eq)]
pub(crate) enum Direction {
    Next,
    Prev,
}

impl Direction {
    /// The frame that a frame of the day moves to.
    pub(crate) fn moved(self, rate: Rate, frame: u32) -> u32
        requires { frame < day rate }
        ensures value { result ≡ moved rate self frame }
        ensures below_day { result < day rate }
    {
        let last_frame = rate.last_frame();
        match self {
            Direction::Next if frame < last_frame => frame + 1,
            Direction::Next => 0,
            Direction::Prev => frame.checked_sub(1).unwrap_or(last_frame),
        }
    }

    /// The frame of the day from which the direction leads out of it.
    pub(crate) fn edge(self, rate: Rate) -> u32
        ensures { result ≡ edge_of rate self }
    {
        match self {
            Direction::Next => rate.last_frame(),
            Direction::Prev => 0,
        }
    }

    /// The frame at the other end of the day, where it comes in again.
    pub(crate) fn far_edge(self, rate: Rate) -> u32
        ensures value { result ≡ far_edge_of rate self }
        ensures below_day { result < day rate }
        ensures few { result < longest_day }
    {
        match self {
            Direction::Next => 0,
            Direction::Prev => rate.last_frame(),
        }
    }
}
