//! Records of objects, as they are told.
ghost use Rattle.std.specs.Prelude.{◌≡◌, IfOk};
ghost use Rattle.pps_types.specs.Plan as planning;
ghost use Rattle.service_state.specs.Entries.{entry_about};

use name_table::NamedObject;
use pps_types::{Bytes, DirId, Handle, Kind, ObjId, Record};
use server_queue::Entry;
use std::alloc::{AllocError, Global};

/// A record of the object of that number, directory and name, with the handle that wrote it, if one did.
///
/// AllocError comes only where memory is wanting.
pub fn entry_about(
    alloc: Global,
    object: ObjId,
    directory: DirId,
    name: &[u8],
    kind: Kind,
    writer: Option<Handle>,
) -> Result<Entry, AllocError>
    ensures { IfOk result (λ e. e ≡ entry_about object directory name.now kind writer) }
{
    let name = Bytes::from_slice(alloc, name)?;
    let made = Record {
        object,
        kind,
        writer,
    };
    Entry::new(alloc, directory.number(), name, made)
}

/// A record of an object that is alive, with the handle that wrote it, if one did.
///
/// AllocError comes only where memory is wanting.
pub fn record_of(
    alloc: Global,
    object: &NamedObject,
    kind: Kind,
    writer: Option<Handle>,
) -> Result<Entry, AllocError>
    ensures { IfOk result (λ entry. entry ≡ planning.entry_of object.now.object kind writer) }
{
    let (number, directory) = (object.number(), object.directory());
    entry_about(alloc, number, directory, object.name(), kind, writer)
}
