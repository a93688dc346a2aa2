//! The call at 25 frames a second, beside one that takes a profile.
ghost use Rattle.std.specs.Prelude.{◌≡◌, OnErr, OnOk, IfErr, None};
ghost use Rattle.std.specs.Io.KnownBytes.{Appends};
ghost use Rattle.report9.specs.Writing.{AppendsPart};
ghost use Rattle.report9.specs.RunText.{text_of_run};

use crate::{JudgeError, RunVerdict, write_run_for};
use deck9::{Hands, Profile};
use std::io::Write;
use tc25::Rate;

/// [`write_run_for`] at 25 frames a second.
pub fn write_run<W: Write>(writer: &mut W, run: &RunVerdict, hands: Hands) -> Result<(), JudgeError>
    ensures ok { OnOk result
        (Appends (W.contents writer.old) (W.contents writer.new) (text_of_run (record { rate = Rate.Fps25; hands = hands; deck = None }) run.now)) }
    ensures err { OnErr result
        (AppendsPart (W.contents writer.old) (W.contents writer.new) (text_of_run (record { rate = Rate.Fps25; hands = hands; deck = None }) run.now)) }
    ensures write { IfErr result (λ e. e ≡ JudgeError.Write) }
{
    write_run_for(writer, run, &Profile::of(hands))
}
