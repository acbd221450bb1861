//! Why sessions are not served to their ends.
ghost use Rattle.std.specs.Prelude.{◌≡◌, ◌↔◌};
ghost use Rattle.pps_types.specs.declared.refusal.Refusal.TheVariants.{OutOfMemory as RefusedMemory};
ghost use Rattle.pps_dispatch.specs.declared.fault.ServeError.TheVariants.{OutOfMemory};

use pps_types::Refusal;
use std::alloc::AllocError;

/// Why sessions are not served to their ends.
#[derive(Clone, Copy, Debug, PartialEq, Eq)]
pub enum ServeError {
    /// Memory was wanting.
    OutOfMemory,
    /// There are no numbers for one segment more, or what came out of the threads is no history of these sessions.
    Mismatch,
}

impl From<AllocError> for ServeError {
    ghost from_gives = { λ _ fault. fault ≡ OutOfMemory };

    fn from(_refused: AllocError) -> ServeError {
        ServeError::OutOfMemory
    }
}

impl From<Refusal> for ServeError {
    ghost from_gives = { λ refusal fault. (fault ≡ OutOfMemory) ↔ (refusal ≡ RefusedMemory) };

    fn from(refusal: Refusal) -> ServeError {
        match refusal {
            Refusal::OutOfMemory => ServeError::OutOfMemory,
            _ => ServeError::Mismatch,
        }
    }
}
