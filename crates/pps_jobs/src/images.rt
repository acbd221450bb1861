//! What a service begins with, and the file that it is saved to.
ghost use Rattle.std.specs.Prelude.{IfErr, IfOk, option_map};
ghost use Rattle.pps_types.specs.Image.{image};
ghost use Rattle.pps_jobs.specs.Images.{BeginsAs, FailsToBegin, FailsToSave, FailsWithFiles, SavesAs, TellsFault};

use crate::fault::{Failure, Fault};
use command_line::Beginning;
use pps_engine::Engine;
use pps_persist::{FileFault, ImageFiles, LoadError, load_from, save_to};
use std::alloc::Global;
use std::mem::forget;

/// The service that a command line begins with.
pub(crate) fn begin<'w, F: ImageFiles>(
    alloc: Global,
    files: &F,
    beginning: Beginning<'w>,
) -> Result<Engine, Failure<'w>>
    ensures begins { IfOk result (λ engine.
        BeginsAs (F.held files.now) beginning.entry engine.content) }
    ensures fails { IfErr result (FailsToBegin (F.held files.now) beginning.entry) }
    ensures files { IfErr result (FailsWithFiles (F.held files.now) (F.may_fail files.now)) }
{
    match beginning {
        Beginning::Empty(limit) => match Engine::with_limit(alloc, u32::from(limit.get())) {
            Ok(engine) => Ok(engine),
            Err(_) => Err(Failure::Fault(Fault::OutOfMemory)),
        },
        Beginning::Image(file) => match load_from(alloc, files, file) {
            Ok(engine) => Ok(engine),
            Err(LoadError::OutOfMemory) => Err(Failure::Fault(Fault::OutOfMemory)),
            Err(LoadError::BadImage { line }) => Err(Failure::BadImage { line }),
            Err(LoadError::ReadFault) => Err(Failure::CannotRead { file }),
        },
    }
}

/// What ends a job if a file is not replaced.
pub fn cannot_replace<'w>(fault: FileFault, file: &'w str) -> Failure<'w>
    ensures fails { FailsToSave (Some file.now) result }
    ensures tells { TellsFault fault file.now result }
{
    match fault {
        FileFault::OutOfMemory => Failure::Fault(Fault::OutOfMemory),
        FileFault::Failed => Failure::CannotWrite { file },
    }
}

// Saves a service to a file, if one is named.
fn save<'w, F: ImageFiles>(
    alloc: Global,
    files: &mut F,
    engine: &Engine,
    file: Option<&'w str>,
) -> Result<(), Failure<'w>>
    ensures saves { SavesAs (option_map (λ name. name.now) file.entry)
        (F.replaced files.old) (F.replaced files.new) (image engine.now.content) result }
    ensures files { IfErr result (FailsWithFiles (F.held files.old) (F.may_fail files.old)) }
{
    let Some(file) = file else {
        return Ok(());
    };
    match save_to(alloc, files, file, engine) {
        Ok(()) => Ok(()),
        Err(fault) => Err(cannot_replace(fault, file)),
    }
}

/// Saves a service to a file, if one is named, and ends it with the process.
///
/// What the service holds goes back to the system with the process, all at once, and not piece by piece before.
pub(crate) fn end<'w, F: ImageFiles>(
    alloc: Global,
    files: &mut F,
    engine: Engine,
    file: Option<&'w str>,
) -> Result<(), Failure<'w>>
    ensures saves { SavesAs (option_map (λ name. name.now) file.entry)
        (F.replaced files.old) (F.replaced files.new) (image engine.content) result }
    ensures files { IfErr result (FailsWithFiles (F.held files.old) (F.may_fail files.old)) }
{
    let saved = save(alloc, files, &engine, file);
    forget(engine);
    saved
}
