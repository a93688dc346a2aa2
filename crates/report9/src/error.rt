//! Why judging stopped without a verdict.
ghost use Rattle.std.specs.Prelude.{◌≡◌};

use crate::writing::WriteFault;
use capture9::{CaptureError, CaptureKind};
use std::alloc::AllocError;
use thiserror::Error;

/// Why there is no verdict.
#[derive(Debug, Drop, PartialEq, Eq, Error)]
pub enum JudgeError {
    /// The capture can't be read to its end: a row is bad, or the reader failed or was interrupted. The
    /// error says which, and at which row. Its kind is never `OutOfMemory`. What was written is the lines of the
    /// exchanges before that row, where an explanation was asked for, and no verdict.
    #[error("{0}")]
    Capture(CaptureError),
    /// The writer failed, was interrupted, or took no byte. What it took until then is a first part of the report.
    #[error("the report can't be written")]
    Write,
    /// A growth of memory was refused. What was written is complete lines of the first exchanges, where an explanation
    /// was asked for, and no verdict.
    #[error("out of memory")]
    OutOfMemory,
}

impl From<CaptureError> for JudgeError {
    ghost use Rattle.std.specs.Prelude.{◌≡◌};
    ghost use Rattle.report9.specs.Error.{refusal_of};

    ghost from_gives = { λ e refusal. refusal ≡ refusal_of e };

    fn from(e: CaptureError) -> JudgeError {
        match e.kind {
            CaptureKind::OutOfMemory => JudgeError::OutOfMemory,
            _ => JudgeError::Capture(e),
        }
    }
}

impl From<AllocError> for JudgeError {
    ghost use Rattle.std.specs.Prelude.{◌≡◌};
    ghost use Rattle.report9.specs.declared.error.JudgeError.TheVariants.{OutOfMemory};

    ghost from_gives = { λ e refusal. refusal ≡ OutOfMemory };

    fn from(_: AllocError) -> JudgeError {
        JudgeError::OutOfMemory
    }
}

impl From<WriteFault> for JudgeError {
    ghost use Rattle.std.specs.Prelude.{◌≡◌};
    ghost use Rattle.report9.specs.declared.error.JudgeError.TheVariants.{Write};

    ghost from_gives = { λ e refusal. refusal ≡ Write };

    fn from(_: WriteFault) -> JudgeError {
        JudgeError::Write
    }
}
