//! Why words are no command line.
ghost use Rattle.std.specs.Prelude.{◌≡◌};
ghost use Rattle.command_line.specs.declared.fault.WordsFault.TheVariants.{OutOfMemory};

use std::alloc::AllocError;
use thiserror::Error;

/// Why nothing is asked for: the words are no command line of the program, or memory was wanting to read them.
#[derive(Clone, Copy, Debug, PartialEq, Eq, Error)]
pub enum WordsFault {
    #[error("bad command line")]
    BadCommandLine,
    #[error("out of memory")]
    OutOfMemory,
}

impl From<AllocError> for WordsFault {
    ghost from_gives = { λ _ fault. fault ≡ OutOfMemory };

    fn from(_refused: AllocError) -> WordsFault {
        WordsFault::OutOfMemory
    }
}
