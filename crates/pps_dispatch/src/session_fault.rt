//! Why a text gives no session.
ghost use Rattle.std.specs.Prelude.{◌≡◌};
ghost use Rattle.pps_dispatch.specs.declared.session_fault.SessionFault.TheVariants.{OutOfMemory};

use std::alloc::AllocError;

/// Why a text gives no session.
#[derive(Clone, Copy, Debug, PartialEq, Eq)]
pub enum SessionFault {
    /// A line that is none of the session's script. Lines are counted from 1, up to 18,446,744,073,709,551,615.
    BadLine { line: u64 },
    /// Memory was wanting.
    OutOfMemory,
}

impl From<AllocError> for SessionFault {
    ghost from_gives = { λ _ fault. fault ≡ OutOfMemory };

    fn from(_refused: AllocError) -> SessionFault {
        SessionFault::OutOfMemory
    }
}
