//! Why an image is not loaded or not saved.
ghost use Rattle.std.specs.Prelude.{◌≡◌};
ghost use Rattle.pps_persist.specs.declared.errors.Fault.TheVariants as faults;
ghost use Rattle.pps_persist.specs.declared.errors.LoadError.TheVariants as errors;

use std::alloc::AllocError;

/// Why no image was loaded.
#[derive(Clone, Copy, Debug, PartialEq, Eq)]
pub enum LoadError {
    /// Memory was wanting.
    OutOfMemory,
    /// No image begins with the lines until this one, or it is where the input ends too early, or stands behind the end.
    BadImage { line: u64 },
    /// The reader failed, or was read 4,294,967,295 times.
    ReadFault,
}

impl From<AllocError> for LoadError {
    ghost from_gives = { λ _ error. error ≡ errors.OutOfMemory };

    fn from(_error: AllocError) -> LoadError {
        LoadError::OutOfMemory
    }
}

/// Why an image was not saved, and how many of its bytes were written.
#[derive(Clone, Copy, Debug, PartialEq, Eq)]
pub enum SaveError {
    /// Memory was wanting.
    OutOfMemory { sent: u64 },
    /// The writer failed, or took none of some bytes.
    WriteFault { sent: u64 },
}

/// Why a line was not taken.
#[derive(Clone, Copy, Debug, PartialEq, Eq)]
pub(crate) enum Fault {
    OutOfMemory,
    /// No image has such a line there.
    Refused,
}

impl From<AllocError> for Fault {
    ghost from_gives = { λ _ fault. fault ≡ faults.OutOfMemory };

    fn from(_error: AllocError) -> Fault {
        Fault::OutOfMemory
    }
}
