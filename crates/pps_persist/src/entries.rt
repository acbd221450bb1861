//! Entries of images, restored.
ghost use Rattle.std.specs.Prelude.{◌≡◌, ◌<◌, length, IfOk};
ghost use Rattle.image_text.specs.Lines.{IsPlain, IsReadPath};
ghost use Rattle.pps_persist.specs.Held.{IsLoaded, IsLoadedObject, AddsDirectory, AddsObject, AddsLine};
ghost use Rattle.pps_persist.specs.Judged.{judged};

use crate::errors::Fault;
use crate::place::{Loaded, Object};
use image_text::read_attribute;
use pps_engine::path_order;
use pps_types::limits::ATTRIBUTES_MAX;
use pps_types::{Bytes, Refusal};
use std::alloc::{AllocError, Global};

fn copy_names(alloc: Global, names: &[Bytes]) -> Result<Vec<Bytes>, AllocError>
    ensures { IfOk result (λ copy. copy.items ≡ names.now) }
{
    let mut copy = Vec::with_capacity(alloc, names.len())?;
    'names: for name in names {
        copy.push(name.copy()?)?;
    }
    Ok(copy)
}

// What a refusal says of a line. Want of memory says nothing of it.
fn judge(answer: Result<(), Refusal>) -> Result<(), Fault>
    ensures { result ≡ judged answer }
{
    match answer {
        Ok(()) => Ok(()),
        Err(Refusal::OutOfMemory) => Err(Fault::OutOfMemory),
        Err(_) => Err(Fault::Refused),
    }
}

/// Restores a directory behind the entries so far.
///
/// It is refused where its path does not come behind theirs, and where the engine refuses it.
pub(crate) fn take_directory(
    alloc: Global,
    mut loaded: Loaded,
    path: Vec<Bytes>,
) -> Result<Loaded, Fault>
    requires loaded { IsLoaded loaded }
    requires path { IsReadPath path.items }
    ensures { AddsDirectory loaded path.items result }
{
    if !path_order(&loaded.last, &path).is_lt() {
        return Err(Fault::Refused);
    }
    let names = copy_names(alloc, &path)?;
    judge(loaded.engine.restore_directory(names))?;
    loaded.count += 1;
    loaded.last = path;
    Ok(loaded)
}

/// Restores an object behind the entries so far, of which so many lines are to come.
///
/// It is refused where its path does not come behind theirs, where the engine refuses it, and where these are more
/// than an object has.
pub(crate) fn take_object(
    alloc: Global,
    mut loaded: Loaded,
    path: Vec<Bytes>,
    to_come: u32,
) -> Result<Loaded, Fault>
    requires loaded { IsLoaded loaded }
    requires path { IsReadPath path.items }
    ensures { AddsObject loaded path.items to_come result }
{
    if to_come > ATTRIBUTES_MAX as u32 || !path_order(&loaded.last, &path).is_lt() {
        return Err(Fault::Refused);
    }
    let names = copy_names(alloc, &path)?;
    judge(loaded.engine.restore_object(names))?;
    loaded.count += 1;
    loaded.last = path;
    Ok(loaded)
}

/// Restores an attribute of the last entry, an object of which lines are to come.
///
/// It is refused where it is no line of an attribute, where the object's text would become longer than the version
/// allows, and where the engine refuses it.
pub(crate) fn take_attribute(
    alloc: Global,
    mut loaded: Loaded,
    object: Object,
    line: &[u8],
) -> Result<(Loaded, Object), Fault>
    requires loaded { IsLoadedObject loaded object }
    requires plain { IsPlain line.now }
    requires short { length line.now < 65536 }
    ensures { AddsLine loaded object line.now result }
{
    let text = object.text + line.len() + 1;
    if text > loaded.longest {
        return Err(Fault::Refused);
    }
    let Some(attribute) = read_attribute(alloc, line)? else {
        return Err(Fault::Refused);
    };
    judge(loaded.engine.restore_line(&loaded.last, attribute))?;
    let to_come = object.to_come - 1;
    Ok((loaded, Object { to_come, text }))
}
