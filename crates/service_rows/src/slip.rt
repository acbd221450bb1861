//! What is wrong with a script.

use pps_types::Refusal;
use std::alloc::{AllocError, AllocFailed};
use thiserror::Error;

/// What is wrong with a script.
#[derive(Clone, Copy, Debug, PartialEq, Eq, Drop, Error)]
pub(crate) enum Slip {
    #[error("cannot read input")]
    CannotRead,
    #[error("cannot write output")]
    CannotWrite,
    #[error("the way is unknown")]
    UnknownWay,
    #[error("a line is no command")]
    BadLine,
    #[error("there is no command before an answer")]
    NoCommand,
    /// Of the command of this number, from 1.
    #[error("command {number}: another answer")]
    OtherAnswer { number: usize },
    #[error("what was refused has changed something")]
    Changed,
    #[error("what comes of it is something else")]
    Other,
    /// Memory was wanting where it was asked for twice, or where no call of the service asked for it.
    #[error("out of memory")]
    OutOfMemory,
}

impl From<AllocError> for Slip {
    fn from(_error: AllocError) -> Slip {
        Slip::OutOfMemory
    }
}

impl<T: Drop> From<AllocFailed<T>> for Slip {
    fn from(_error: AllocFailed<T>) -> Slip {
        Slip::OutOfMemory
    }
}

impl From<Refusal> for Slip {
    fn from(refusal: Refusal) -> Slip {
        match refusal {
            Refusal::OutOfMemory => Slip::OutOfMemory,
            _ => Slip::Other,
        }
    }
}
