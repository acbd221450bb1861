//! What ends a script before its time.
ghost use Rattle.std.specs.Prelude.{◌≡◌};
ghost use Rattle.pps_script.specs.declared.fault.ScriptFault.TheVariants as faults;
ghost use Rattle.pps_script.specs.Faults.{of_answer};

use pps_types::{AnswerFault, WriteFault};
use std::alloc::AllocError;

/// What ends a script before its time.
#[derive(Clone, Copy, Debug, PartialEq, Eq)]
pub enum ScriptFault {
    /// A line that is none of a script. Lines are counted from 1.
    BadLine { line: u64 },
    /// Memory was wanting for a line that is read, or for its answer's line.
    OutOfMemory,
    /// The reader failed, or was read 4,294,967,295 times.
    ReadFault,
    /// The writer failed, or took none of some bytes.
    WriteFault,
}

impl From<AllocError> for ScriptFault {
    ghost from_gives = { λ _ fault. fault ≡ faults.OutOfMemory };

    fn from(_refused: AllocError) -> ScriptFault {
        ScriptFault::OutOfMemory
    }
}

impl From<AnswerFault> for ScriptFault {
    ghost from_gives = { λ answer fault. fault ≡ of_answer answer };

    fn from(fault: AnswerFault) -> ScriptFault {
        match fault {
            AnswerFault::OutOfMemory => ScriptFault::OutOfMemory,
            AnswerFault::WriteFault => ScriptFault::WriteFault,
        }
    }
}

impl From<WriteFault> for ScriptFault {
    ghost from_gives = { λ _ fault. fault ≡ faults.WriteFault };

    fn from(_fault: WriteFault) -> ScriptFault {
        ScriptFault::WriteFault
    }
}
