//! Images in files: loaded from one, and saved to one.
ghost use Rattle.pps_types.specs.Image.{image};
ghost use Rattle.pps_persist.specs.Files.{FailsOnlyIf, LoadsFile, MayBeUnread, MayFailNoMore, ReadFaultOnlyIf, Replaces};

use crate::errors::{LoadError, SaveError};
use crate::files::{Contents, FileFault, ImageFiles};
use crate::input::Opened;
use crate::loading::load_input;
use crate::saving::save;
use pps_engine::Engine;
use pps_types::Device;
use std::alloc::Global;
use std::io::Write;

/// Loads the image that a file holds: an engine for the machine that it starts.
///
/// The faults are those of `load`; OutOfMemory and ReadFault come also if the file is not opened. ReadFault comes only if
/// the file may fail, or has 4,294,967,295 bytes or more.
pub fn load_from<F: ImageFiles>(alloc: Global, files: &F, file: &str) -> Result<Engine, LoadError>
    ensures loads { LoadsFile (F.held files.now file.now) result }
    ensures fault { ReadFaultOnlyIf
        (MayBeUnread (F.held files.now file.now) (F.may_fail files.now file.now)) result }
{
    match files.open(file) {
        Ok(image) => load_input(alloc, &mut Opened { file: image }),
        Err(FileFault::OutOfMemory) => Err(LoadError::OutOfMemory),
        Err(FileFault::Failed) => Err(LoadError::ReadFault),
    }
}

// The image of a service.
#[derive(Clone, Copy)]
struct ImageOf<'e> {
    engine: &'e Engine,
}

impl Contents for ImageOf<'_> {
    ghost use Rattle.pps_types.specs.Image.{image};

    ghost bytes = { λ it. image it.engine.now.content };

    fn write_to<W: Write>(&self, alloc: Global, device: &mut Device<W>) -> Result<(), FileFault> {
        match save(alloc, self.engine, device) {
            Ok(_) => Ok(()),
            Err(SaveError::OutOfMemory { .. }) => Err(FileFault::OutOfMemory),
            Err(SaveError::WriteFault { .. }) => Err(FileFault::Failed),
        }
    }
}

/// Replaces a file by the image of a service. If that fails, no file is replaced.
///
/// Failed comes only if the file may fail. No more files may fail than before.
pub fn save_to<F: ImageFiles>(
    alloc: Global,
    files: &mut F,
    file: &str,
    engine: &Engine,
) -> Result<(), FileFault>
    ensures replaces { Replaces
        (F.replaced files.old) (F.replaced files.new) file.now (image engine.now.content) result }
    ensures fault { FailsOnlyIf (F.may_fail files.old file.now) result }
    ensures stays { MayFailNoMore (F.may_fail files.old) (F.may_fail files.new) }
{
    files.replace(alloc, file, &ImageOf { engine })
}
