//! Why a work ends early.

use pps_frame::RunError;
use pps_persist::{LoadError, SaveError};
use pps_types::Refusal;
use std::alloc::{AllocError, AllocFailed};
use std::io;
use thiserror::Error;

/// Why a work ends early.
#[derive(Clone, Copy, Debug, Drop, Error)]
pub(crate) enum Fault {
    #[error("want of memory")]
    OutOfMemory,
    #[error("a request has no frame")]
    NoFrame,
    #[error("the stream is not served")]
    NotServed,
    #[error("the image is not loaded")]
    NotLoaded,
    #[error("the image is not saved")]
    NotSaved,
}

impl From<AllocError> for Fault {
    fn from(_error: AllocError) -> Fault {
        Fault::OutOfMemory
    }
}

impl<T: Drop> From<AllocFailed<T>> for Fault {
    fn from(_error: AllocFailed<T>) -> Fault {
        Fault::OutOfMemory
    }
}

impl From<io::Error> for Fault {
    fn from(_error: io::Error) -> Fault {
        Fault::OutOfMemory
    }
}

impl From<Refusal> for Fault {
    fn from(_refusal: Refusal) -> Fault {
        Fault::NoFrame
    }
}

impl From<RunError> for Fault {
    fn from(_error: RunError) -> Fault {
        Fault::NotServed
    }
}

impl From<LoadError> for Fault {
    fn from(_error: LoadError) -> Fault {
        Fault::NotLoaded
    }
}

impl From<SaveError> for Fault {
    fn from(_error: SaveError) -> Fault {
        Fault::NotSaved
    }
}
