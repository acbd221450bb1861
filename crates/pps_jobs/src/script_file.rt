//! Script files, read as a whole.
ghost use Rattle.std.specs.Prelude.{◌≡◌, IfOk};
ghost use Rattle.pps_persist.specs.Files.{FailsOnlyIf, HoldsOf, MayBeUnread};

use pps_persist::{FileFault, ImageFiles, OpenedFile};
use pps_types::limits::{PIECE, READS_MAX};
use std::alloc::Global;
use std::io::ErrorKind;

// All that is left of an opened file.
fn read_rest<R: OpenedFile>(alloc: Global, script: &mut R) -> Result<Vec<u8>, FileFault>
    ensures text { IfOk result (λ text.
        HoldsOf (R.remaining script.old) (λ bytes. text.items ≡ bytes)) }
    ensures fault { FailsOnlyIf
        (MayBeUnread (R.remaining script.old) (R.may_fail script.old)) result }
{
    let mut buffer = Vec::new(alloc);
    buffer.resize(PIECE, 0u8)?;
    let mut text = Vec::new(alloc);
    'pieces: for _ in 0..READS_MAX {
        let count = match script.read_some(buffer.as_mut_slice()) {
            Ok(count) => count,
            Err(e) if e.kind() == ErrorKind::OutOfMemory => return Err(FileFault::OutOfMemory),
            Err(_) => return Err(FileFault::Failed),
        };
        if count == 0 {
            return Ok(text);
        }
        text.extend_from_slice(&buffer[..count])?;
    }
    Err(FileFault::Failed)
}

/// What a file holds.
///
/// Failed comes only if the file may fail, or has 4,294,967,295 bytes or more.
pub fn read_file<F: ImageFiles>(alloc: Global, files: &F, file: &str) -> Result<Vec<u8>, FileFault>
    ensures text { IfOk result (λ text.
        HoldsOf (F.held files.now file.now) (λ bytes. text.items ≡ bytes)) }
    ensures fault { FailsOnlyIf
        (MayBeUnread (F.held files.now file.now) (F.may_fail files.now file.now)) result }
{
    let mut script = files.open(file)?;
    read_rest(alloc, &mut script)
}
