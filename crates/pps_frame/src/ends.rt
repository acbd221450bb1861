//! Why a stream is left.
ghost use Rattle.std.specs.Prelude.{◌≡◌};
ghost use Rattle.pps_frame.specs.declared.ends.RunError.TheVariants as faults;
ghost use Rattle.pps_frame.specs.Faults.{of_answer};

use pps_types::{AnswerFault, WriteFault};
use std::alloc::AllocError;

/// Why a stream was left.
#[derive(Clone, Copy, Debug, PartialEq, Eq)]
pub enum RunError {
    /// Memory was wanting for what is read or for an answer's frame.
    OutOfMemory,
    /// The reader failed, or was read 4,294,967,295 times.
    ReadFault,
    /// The writer failed, or took none of some bytes.
    WriteFault,
}

impl From<AllocError> for RunError {
    ghost from_gives = { λ _ fault. fault ≡ faults.OutOfMemory };

    fn from(_refused: AllocError) -> RunError {
        RunError::OutOfMemory
    }
}

impl From<AnswerFault> for RunError {
    ghost from_gives = { λ answer fault. fault ≡ of_answer answer };

    fn from(fault: AnswerFault) -> RunError {
        match fault {
            AnswerFault::OutOfMemory => RunError::OutOfMemory,
            AnswerFault::WriteFault => RunError::WriteFault,
        }
    }
}

impl From<WriteFault> for RunError {
    ghost from_gives = { λ _ fault. fault ≡ faults.WriteFault };

    fn from(_fault: WriteFault) -> RunError {
        RunError::WriteFault
    }
}
