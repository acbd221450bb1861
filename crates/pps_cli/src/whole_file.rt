//! A file that is written as a whole, or stays as it was.

use crate::patient::Patient;
use pps_persist::{Contents, FileFault};
use pps_types::Device;
use std::alloc::Global;
use std::fs::{File, Files, OpenFile, OpenOptions};
use std::io::ErrorKind;
use std::path::{AsPath, Path, PathBuf};
use std::{fs, io};

/// How many links the system follows from a name to its file.
const LINKS_MAX: u32 = 40;

// Why a file is not replaced.
fn fault_of(error: &io::Error) -> FileFault {
    match error.kind() {
        ErrorKind::OutOfMemory => FileFault::OutOfMemory,
        _ => FileFault::Failed,
    }
}

// Writes a new file, and brings it to the disk.
fn write_new<F: Files, C: Contents>(
    alloc: Global,
    files: &F,
    contents: &C,
    beside: &str,
) -> Result<(), FileFault> {
    let Ok(mut output) = File::create_new(files, beside) else {
        return Err(FileFault::Failed);
    };
    contents.write_to(alloc, &mut Device::new(Patient::new(&mut output)))?;
    match output.sync_all() {
        Err(_) => Err(FileFault::Failed),
        Ok(()) => Ok(()),
    }
}

// Writes a file beside its place, and puts it there when it is whole. Else what is there stays.
fn write_beside<F: Files, C: Contents>(
    alloc: Global,
    files: &F,
    contents: &C,
    place: &str,
) -> Result<(), FileFault> {
    let beside = format!(in alloc; "{place}.saving")?;
    let beside = beside.as_str();
    // What a run that was killed may have left.
    let _ = fs::remove_file(files, beside);
    let mut written = write_new(alloc, files, contents, beside);
    if written.is_ok() && fs::rename(files, beside, place).is_err() {
        written = Err(FileFault::Failed);
    }
    if written.is_err() {
        let _ = fs::remove_file(files, beside);
    }
    written
}

// Writes into what is no plain file: a device, or a pipe.
fn write_into<F: Files, C: Contents>(
    alloc: Global,
    files: &F,
    contents: &C,
    file: &str,
) -> Result<(), FileFault> {
    let Ok(output) = OpenOptions::new().write(true).open(files, file) else {
        return Err(FileFault::Failed);
    };
    contents.write_to(alloc, &mut Device::new(Patient::new(output)))
}

// The name that a link holds, which is one beside the link unless it begins at the root.
fn linked_from<F: Files>(alloc: Global, files: &F, link: &str) -> io::Result<PathBuf> {
    let name = files.read_link(alloc, link)?;
    let joined = match Path::new(link).parent() {
        Some(folder) => folder.join(alloc, name)?,
        None => name,
    };
    Ok(joined)
}

// The place of a file that is not there yet: where the links lead that its name begins, if it is one.
fn new_place<F: Files>(alloc: Global, files: &F, file: &str) -> io::Result<PathBuf> {
    let mut place = Path::new("").join(alloc, file)?;
    'links: for _ in 0..LINKS_MAX {
        match fs::symlink_metadata(files, place.path_text()) {
            Ok(metadata) if metadata.is_symlink() => {
                place = linked_from(alloc, files, place.path_text())?;
            }
            Err(e) if e.kind() != ErrorKind::NotFound => return Err(e),
            _ => return Ok(place),
        }
    }
    Err(ErrorKind::InvalidInput.into())
}

/// Writes a file.
///
/// A plain file, or one that is not there yet, is replaced as a whole: links are followed, it is written beside its place,
/// brought to the disk, and renamed. Anything else, such as a device, is written to as it is. If it cannot be looked at,
/// for another reason than that it is not there, it cannot be written, and nothing changes.
pub(crate) fn write_whole<F: Files, C: Contents>(
    alloc: Global,
    files: &F,
    contents: &C,
    file: &str,
) -> Result<(), FileFault> {
    let place = match fs::metadata(files, file) {
        Ok(metadata) if !metadata.is_file() => return write_into(alloc, files, contents, file),
        Ok(_) => files.canonicalize(alloc, file),
        Err(e) if e.kind() == ErrorKind::NotFound => new_place(alloc, files, file),
        Err(e) => Err(e),
    };
    match place {
        Ok(place) => write_beside(alloc, files, contents, place.path_text()),
        Err(e) => Err(fault_of(&e)),
    }
}
