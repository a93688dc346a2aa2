//! Captures whose times or rows are no regular ones, as they are read.

/// The header of a capture, and all of one without records.
pub(super) const HEADER: &str = "time_us,wire,byte\n";

/// Six records, 400 microseconds apart: PLAY and its acknowledgement.
pub(super) const PLAYED: &str =
    "time_us,wire,byte\n400,C,20\n800,C,01\n1200,C,21\n1600,D,10\n2000,D,01\n2400,D,11\n";

/// PLAY and its acknowledgement, where the next row is cut off.
pub(super) const PLAYED_AND_CUT: &str =
    "time_us,wire,byte\n400,C,20\n800,C,01\n1200,C,21\n1600,D,10\n2000,D,01\n2400,D,11\n2800,C";

/// A command of three records whose sum is wrong.
pub(super) const WRONG_SUM: &str = "time_us,wire,byte\n400,C,20\n800,C,01\n1200,C,22\n";
