//! Why a decoder takes no events.
ghost use Rattle.std.specs.Prelude.{◌≡◌};
ghost use Rattle.frame_codec.specs.declared.fault.FeedFault.TheVariants.{OutOfMemory};

use std::alloc::AllocError;

/// Why a decoder takes no events.
#[derive(Clone, Copy, Debug, PartialEq, Eq)]
pub enum FeedFault {
    /// Memory was wanting. The decoder is as it was.
    OutOfMemory,
    /// A malformed frame was met before.
    Failed,
}

impl From<AllocError> for FeedFault {
    ghost from_gives = { λ _ fault. fault ≡ OutOfMemory };

    fn from(_refused: AllocError) -> FeedFault {
        FeedFault::OutOfMemory
    }
}
