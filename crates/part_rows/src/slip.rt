//! Why a row can't be answered.

use pps_types::Refusal;
use std::alloc::{AllocError, AllocFailed};
use thiserror::Error;

/// Why a row can't be answered.
#[derive(Clone, Copy, Debug, Drop, Error)]
pub(crate) enum Slip {
    #[error("a word is unknown")]
    UnknownWord,
    #[error("a word is missing")]
    MissingWord,
    #[error("words are left over")]
    WordsLeft,
    #[error("a text is malformed")]
    BadText,
    #[error("a number is malformed or too large")]
    BadNumber,
    #[error("a name or an encoding is too long")]
    TooLong,
    #[error("the place is too small")]
    NoRoom,
    #[error("a text that the row needs is refused")]
    Refused,
    #[error("out of memory")]
    OutOfMemory,
}

impl From<AllocError> for Slip {
    fn from(_error: AllocError) -> Slip {
        Slip::OutOfMemory
    }
}

impl<T: Drop> From<AllocFailed<T>> for Slip {
    fn from(_error: AllocFailed<T>) -> Slip {
        Slip::OutOfMemory
    }
}

impl From<Refusal> for Slip {
    fn from(_refusal: Refusal) -> Slip {
        Slip::Refused
    }
}

/// The row that can't be answered.
#[derive(Debug, Drop, Error)]
#[error("line {line_number}: {slip}")]
pub(crate) struct BadRow {
    pub(crate) line_number: u64,
    pub(crate) slip: Slip,
}
