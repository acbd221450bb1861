//! All that an image saves.
ghost use Rattle.std.specs.Prelude.{◌≡◌, IfOk, OnOk};
ghost use Rattle.pps_types.specs.Image as image;
ghost use Rattle.name_table.specs.Standing.{known_of};
ghost use Rattle.whole_texts.specs.Lengths.{Gains};
ghost use Rattle.pps_engine.specs.Entries.{saved_directories, saved_objects, AreSavedOf};

use crate::order::path_order;
use crate::saved_entry::SavedEntry;
use name_table::{NamedDirectories, NamedObject, NamedObjects, Names};
use std::alloc::{AllocError, Global};

// Pushes the directories but the root.
fn push_directories<'a>(
    entries: &mut Vec<SavedEntry<'a>>,
    directories: NamedDirectories<'a>,
) -> Result<(), AllocError>
    ensures { OnOk result (Gains entries.old entries.new (saved_directories directories.entry)) }
{
    for directory in directories {
        if !directory.path().is_empty() {
            entries.push(SavedEntry::of_directory(directory))?;
        }
    }
    Ok(())
}

// Whether an image keeps an object: it is persistent and plain.
fn is_kept(object: &NamedObject) -> bool
    ensures { result ≡ image.is_kept (known_of object.now) }
{
    !object.is_nopersist() && object.server().is_none()
}

// Pushes the objects that are kept.
fn push_objects<'a>(
    entries: &mut Vec<SavedEntry<'a>>,
    objects: NamedObjects<'a>,
) -> Result<(), AllocError>
    ensures { OnOk result (Gains entries.old entries.new (saved_objects objects.entry)) }
{
    for object in objects {
        if is_kept(object) {
            entries.push(SavedEntry::of_object(object))?;
        }
    }
    Ok(())
}

/// What an image of a service saves: the directories other than the root and the persistent plain objects, in the order of
/// their paths, as the names of the service lend them.
///
/// It costs n log n for n entries, and takes the memory of one list of them.
pub fn saved_entries(alloc: Global, names: &Names) -> Result<Vec<SavedEntry<'_>>, AllocError>
    ensures { IfOk result (λ entries. AreSavedOf names.now entries.items) }
{
    let mut entries = Vec::new(alloc);
    push_directories(&mut entries, names.directories())?;
    push_objects(&mut entries, names.objects())?;
    entries.sort_by(|one, other| path_order(one.path(), other.path()))?;
    Ok(entries)
}
