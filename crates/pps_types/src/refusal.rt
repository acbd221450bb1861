//! Why an event is refused.
ghost use Rattle.std.specs.Prelude.{◌≡◌};
ghost use Rattle.pps_types.specs.declared.refusal.Refusal.TheVariants.{OutOfMemory};

use crate::numbers::Handle;
use std::alloc::{AllocError, AllocFailed};
use thiserror::Error;

/// Why an event is refused. The service is then as it was.
#[derive(Clone, Copy, Debug, PartialEq, Eq, Error)]
pub enum Refusal {
    #[error("memory is wanting")]
    OutOfMemory,
    #[error("the frame is malformed")]
    BadFrame,
    #[error("the connection is not attached")]
    NotAttached,
    #[error("the connection is attached already")]
    AlreadyAttached,
    #[error("the path is malformed")]
    BadPath,
    #[error("the options are malformed, or do not go together")]
    BadOption,
    #[error("nothing has that name")]
    NotFound,
    #[error("the name is taken")]
    Exists,
    #[error("an object stands where a directory is wanted")]
    NotDirectory,
    #[error("a directory stands where an object is wanted")]
    IsDirectory,
    #[error("the directory holds something")]
    NotEmpty,
    #[error("it is in use")]
    Busy,
    #[error("the connection has no such handle")]
    BadHandle,
    #[error("the handle or the mode does not allow it")]
    BadMode,
    /// The first bad line of a written text, counted from 1.
    #[error("line {line} of the text is malformed")]
    BadText { line: u32 },
    #[error("a limit on sizes would be passed")]
    TooLarge,
    #[error("the object is deleted")]
    Gone,
    #[error("a read is parked on the handle")]
    ReadPending,
    /// The size in bytes that a read wants.
    #[error("the answer needs {need} bytes")]
    TooSmall { need: u32 },
    #[error("too much is queued, armed and parked for the connection")]
    OutboxFull,
    /// Who has to read before more can be written.
    #[error("handle {} has not read enough of its messages", .handle.number())]
    Backlogged { handle: Handle },
    /// The identifier that a server's header names.
    #[error("the server object has no open client {id}")]
    NoClient { id: u32 },
    #[error("a number is out of its range")]
    BadArgument,
    #[error("no more of them can be kept")]
    TableFull,
}

impl Refusal {
    ghost use Rattle.pps_types.specs.Refusal.{number_of, argument_of, name_of};

    /// Its number in frames and answers: 1 to 24.
    pub fn number(self) -> u8
        ensures { result ≡ number_of self }
    {
        match self {
            Refusal::OutOfMemory => 1,
            Refusal::BadFrame => 2,
            Refusal::NotAttached => 3,
            Refusal::AlreadyAttached => 4,
            Refusal::BadPath => 5,
            Refusal::BadOption => 6,
            Refusal::NotFound => 7,
            Refusal::Exists => 8,
            Refusal::NotDirectory => 9,
            Refusal::IsDirectory => 10,
            Refusal::NotEmpty => 11,
            Refusal::Busy => 12,
            Refusal::BadHandle => 13,
            Refusal::BadMode => 14,
            Refusal::BadText { .. } => 15,
            Refusal::TooLarge => 16,
            Refusal::Gone => 17,
            Refusal::ReadPending => 18,
            Refusal::TooSmall { .. } => 19,
            Refusal::OutboxFull => 20,
            Refusal::Backlogged { .. } => 21,
            Refusal::NoClient { .. } => 22,
            Refusal::BadArgument => 23,
            Refusal::TableFull => 24,
        }
    }

    /// Its name in answers.
    pub fn name(&self) -> &'static str
        ensures { result.now ≡ name_of self.now }
    {
        match self {
            Refusal::OutOfMemory => "OutOfMemory",
            Refusal::BadFrame => "BadFrame",
            Refusal::NotAttached => "NotAttached",
            Refusal::AlreadyAttached => "AlreadyAttached",
            Refusal::BadPath => "BadPath",
            Refusal::BadOption => "BadOption",
            Refusal::NotFound => "NotFound",
            Refusal::Exists => "Exists",
            Refusal::NotDirectory => "NotDirectory",
            Refusal::IsDirectory => "IsDirectory",
            Refusal::NotEmpty => "NotEmpty",
            Refusal::Busy => "Busy",
            Refusal::BadHandle => "BadHandle",
            Refusal::BadMode => "BadMode",
            Refusal::BadText { .. } => "BadText",
            Refusal::TooLarge => "TooLarge",
            Refusal::Gone => "Gone",
            Refusal::ReadPending => "ReadPending",
            Refusal::TooSmall { .. } => "TooSmall",
            Refusal::OutboxFull => "OutboxFull",
            Refusal::Backlogged { .. } => "Backlogged",
            Refusal::NoClient { .. } => "NoClient",
            Refusal::BadArgument => "BadArgument",
            Refusal::TableFull => "TableFull",
        }
    }

    /// What it carries: a line, a size, a handle or an identifier; 0 where it carries nothing.
    pub fn argument(self) -> u32
        ensures { result ≡ argument_of self }
    {
        match self {
            Refusal::BadText { line } => line,
            Refusal::TooSmall { need } => need,
            Refusal::Backlogged { handle } => handle.number(),
            Refusal::NoClient { id } => id,
            _ => 0,
        }
    }
}

impl From<AllocError> for Refusal {
    ghost from_gives = { λ _ r. r ≡ OutOfMemory };

    fn from(_error: AllocError) -> Refusal {
        Refusal::OutOfMemory
    }
}

impl<T: Drop> From<AllocFailed<T>> for Refusal {
    ghost from_gives = { λ _ r. r ≡ OutOfMemory };

    fn from(_error: AllocFailed<T>) -> Refusal {
        Refusal::OutOfMemory
    }
}
