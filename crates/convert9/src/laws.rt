//! A law of captures that are written, the contract of a function that does nothing.
ghost use Rattle.std.specs.Prelude.{ℕ, List, Option};
ghost use Rattle.capture9.specs.declared.line_byte.LineByte.{LineByte};
ghost use Rattle.convert9.specs.Spelled.{AreTaken, IsBegun, IsWritten, Written};

/// What was written of a capture that was begun, record by record and with any flushes between, can be read, and holds exactly these
/// records: so do the rows of a log that grows, as far as they were written, and each part of a split.
pub fn what_is_written_is_a_capture()
    ensures { (old : Option (List ℕ)) (begun now : Written) (records : List LineByte) → IsBegun old begun → AreTaken begun records now
        → IsWritten records old now.text }
{}
