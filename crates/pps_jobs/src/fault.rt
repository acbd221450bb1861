//! What ends a job before its time.
ghost use Rattle.std.specs.Prelude.{◌≡◌};
ghost use Rattle.pps_jobs.specs.Faults.{fault_of_words, status_of, status_of_failure};
ghost use Rattle.pps_jobs.specs.declared.fault.Failure.TheVariants as failures;
ghost use Rattle.pps_jobs.specs.declared.fault.Fault.TheVariants.{OutOfMemory};

use command_line::WordsFault;
use std::alloc::AllocError;
use thiserror::Error;

/// What ends the program before its time.
#[derive(Clone, Copy, Debug, PartialEq, Eq)]
pub enum Fault {
    /// A line of a script, counted from 1, that is none.
    BadLine { line: u64 },
    BadCommandLine,
    CannotReadInput,
    CannotWriteOutput,
    /// A frame that is none.
    MalformedFrame,
    /// The input ends inside a frame.
    CutFrame,
    /// The program itself is refused memory.
    OutOfMemory,
}

impl Fault {
    /// The exit status.
    pub fn status(self) -> u8
        ensures { result ≡ status_of self }
    {
        match self {
            Fault::BadLine { .. } => 1,
            Fault::BadCommandLine => 2,
            Fault::CannotReadInput
            | Fault::CannotWriteOutput
            | Fault::MalformedFrame
            | Fault::CutFrame
            | Fault::OutOfMemory => 3,
        }
    }
}

impl From<WordsFault> for Fault {
    ghost from_gives = { λ words fault. fault ≡ fault_of_words words };

    fn from(words: WordsFault) -> Fault {
        match words {
            WordsFault::BadCommandLine => Fault::BadCommandLine,
            WordsFault::OutOfMemory => Fault::OutOfMemory,
        }
    }
}

impl From<AllocError> for Fault {
    ghost from_gives = { λ _ fault. fault ≡ OutOfMemory };

    fn from(_refused: AllocError) -> Fault {
        Fault::OutOfMemory
    }
}

/// Why sessions are not served to their end.
#[derive(Clone, Copy, Debug, PartialEq, Eq)]
pub enum ServingFault {
    OutOfMemory,
    /// Two sessions have one connection, or what came out of the threads is no history of the sessions.
    Mismatch,
}

/// A fault, or what is wrong with a file that the command line names.
#[derive(Clone, Copy, Debug, PartialEq, Eq, Error)]
pub enum Failure<'w> {
    Fault(Fault),
    CannotRead { file: &'w str },
    CannotWrite { file: &'w str },
    /// A line of an image, counted from 1, at which it is certain that it is none.
    BadImage { line: u64 },
    /// A line of a script file, counted from 1, that is none of its session.
    BadLineOf { file: &'w str, line: u64 },
    /// The sessions were not served to their end.
    Serve(ServingFault),
}

impl Failure<'_> {
    /// The exit status.
    pub fn status(self) -> u8
        ensures { result ≡ status_of_failure self.entry }
    {
        match self {
            Failure::Fault(fault) => fault.status(),
            Failure::CannotRead { .. }
            | Failure::CannotWrite { .. }
            | Failure::BadImage { .. }
            | Failure::Serve(_) => 3,
            Failure::BadLineOf { .. } => 1,
        }
    }
}

impl<'w> From<Fault> for Failure<'w> {
    ghost from_gives = { λ fault failure. failure ≡ failures.Fault fault };

    fn from(fault: Fault) -> Failure<'w> {
        Failure::Fault(fault)
    }
}

impl<'w> From<AllocError> for Failure<'w> {
    ghost from_gives = { λ _ failure. failure ≡ failures.Fault OutOfMemory };

    fn from(_refused: AllocError) -> Failure<'w> {
        Failure::Fault(Fault::OutOfMemory)
    }
}
