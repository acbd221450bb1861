//! A new object with its first handle.
ghost use Rattle.std.specs.Prelude.{◌≡◌, ◌+◌, ◌<◌, ◌^◌, true, false, Some, None, IfOk, IfErr, OnOk, if◌then◌else◌};
ghost use Rattle.pps_types.specs.WellFormed.{IsContent};
ghost use Rattle.pps_types.specs.declared.refusal.Refusal.TheVariants.{OutOfMemory};
ghost use Rattle.name_table.specs.Standing.{IsReadyToCreate};
ghost use Rattle.sub_reader.specs.Opened.{suits};
ghost use Rattle.service_state.specs.Tables.{content_in};
ghost use Rattle.service_state.specs.Tied.{HasRoomForHandle};
ghost use Rattle.path_requests.specs.FoundIn.{IsAboveIn};
ghost use Rattle.path_requests.specs.Planned.{moves_of, creation_moves, IsReady};

use crate::planned_open::Opens;
use name_table::{last_name, questions_are_told};
use open_handles::NewSite;
use pps_types::{Bytes, Conn, DirId, Found, Handle, Kind, ObjId, Refusal};
use service_state::{NewObject, Tables, entry_about};
use std::alloc::Global;
use sub_reader::Opening;

/// The handle that owns an object, where it is a server's.
pub(crate) fn owner(number: Handle, is_served: bool) -> Option<Handle>
    ensures { result ≡ (if is_served then Some number else None) }
{
    if is_served { Some(number) } else { None }
}

// Room for a new object at a path with its first handle. OutOfMemory is the only error, where a place for it is free.
fn object_ready(
    tables: &mut Tables,
    path: &[Bytes],
    object: ObjId,
    conn: Conn,
) -> Result<(), Refusal>
    ensures content { content_in tables.new ≡ content_in tables.old }
    ensures ready { OnOk result (IsReadyToCreate tables.new.names path.now) }
    ensures place { OnOk result (0 < tables.new.handles.objects.room) }
    ensures room { OnOk result (0 < tables.new.handles.rows.room) }
    ensures connection { OnOk result (HasRoomForHandle conn tables.new.connections) }
    ensures err { IfErr result (λ r. r ≡ OutOfMemory) }
{
    let Ok(()) = tables.create_ready(path) else {
        return Err(Refusal::OutOfMemory);
    };
    tables.open_ready(Found::Object(object), conn)
}

/// A new object at a path, in the directory above it, with its first handle, for which the memory is taken. What stands
/// stays. OutOfMemory is the only error, where a place for it is free.
pub(crate) fn creating(
    tables: &mut Tables,
    alloc: Global,
    path: Vec<Bytes>,
    directory: DirId,
    nopersist: bool,
    is_served: bool,
    opening: Opening,
) -> Result<Opens, Refusal>
    requires content { IsContent (content_in tables.old) }
    requires above { IsAboveIn tables.old directory path.items }
    requires number { opening.number ≡ (content_in tables.old).next_handle }
    requires suits { suits opening.kind false is_served ≡ true }
    requires records { (content_in tables.old).records + 1 < 2 ^ 64 }
    requires objects { (content_in tables.old).next_object + 1 < 2 ^ 64 }
    ensures content { content_in tables.new ≡ content_in tables.old }
    ensures moves { IfOk result (λ o. moves_of o tables.new
        ≡ creation_moves tables.old path.items directory nopersist is_served opening) }
    ensures ready { IfOk result (λ o. IsReady o tables.new) }
    ensures err { IfErr result (λ r. r ≡ OutOfMemory) }
{
    questions_are_told();
    let number = ObjId::new(tables.names().next_object());
    let server = owner(opening.number, is_served);
    object_ready(tables, &path, number, opening.connection)?;
    let name = last_name(&path);
    let site = NewSite::of_object(alloc, number, Bytes::from_slice(alloc, name)?, is_served)?;
    let entry = entry_about(alloc, number, directory, name, Kind::Created, None)?;
    let creation = tables.tell_ready(alloc, entry)?;
    let object = NewObject {
        path,
        directory,
        nopersist,
        server,
        site,
        creation,
    };
    Ok(Opens::Creating { object, opening })
}
