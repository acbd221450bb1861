//! The files of the system.

use crate::patient::Patient;
use crate::whole_file::write_whole;
use pps_persist::{Contents, FileFault, ImageFiles};
use std::alloc::Global;
use std::fs::{File, Files};

/// The files of the system. A read or a write that is interrupted is tried again.
///
/// What they hold is not known to a clause, nor what becomes of what is handed over for them, and each may fail: that a file
/// is read and replaced as it should be is tested.
#[derive(Drop)]
pub(crate) struct SystemFiles<'f, F> {
    files: &'f F,
}

impl<'f, F: Files> SystemFiles<'f, F> {
    pub(crate) fn new(files: &'f F) -> SystemFiles<'f, F> {
        SystemFiles { files }
    }
}

impl<F: Files> ImageFiles for SystemFiles<'_, F> {
    ghost use Rattle.std.specs.Prelude.{None};

    type Image = Patient<F::File>;

    ghost held = { λ _ _. None };

    ghost replaced = { λ _. None };

    ghost may_fail = { λ _ _. Unit {0} };

    fn open(&self, file: &str) -> Result<Patient<F::File>, FileFault> {
        match File::open(self.files, file) {
            Ok(image) => Ok(Patient::new(image)),
            Err(_) => Err(FileFault::Failed),
        }
    }

    fn replace<C: Contents>(
        &mut self,
        alloc: Global,
        file: &str,
        contents: &C,
    ) -> Result<(), FileFault> {
        write_whole(alloc, self.files, contents, file)
    }
}
