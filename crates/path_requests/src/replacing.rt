//! A server's object in another's place.
ghost use Rattle.std.specs.Prelude.{◌≡◌, ◌+◌, ◌<◌, ◌^◌, ◌∷◌, [], true, false, IsSome, IfOk, IfErr, OnOk};
ghost use Rattle.pps_types.specs.WellFormed.{IsContent};
ghost use Rattle.pps_types.specs.declared.refusal.Refusal.TheVariants.{OutOfMemory};
ghost use Rattle.sub_reader.specs.Opened.{suits};
ghost use Rattle.open_handles.specs.Whole.{HasRoom, IsShared};
ghost use Rattle.service_state.specs.Tables.{content_in};
ghost use Rattle.service_state.specs.Tied.{HasRoomForHandle, KeepsHandleRoom};
ghost use Rattle.service_state.specs.Refused.{IsKnownIn, live_object_in};
ghost use Rattle.path_requests.specs.Alive.{IsCreationFor, IsServersSite};
ghost use Rattle.path_requests.specs.Planned.{TakesOver, IsReady};

use crate::planned_open::Opens;
use crate::records::entry_of;
use open_handles::{NewSite, SharedRecord};
use pps_types::{Bytes, Conn, Found, Kind, ObjId, Refusal};
use server_queue::Entry;
use service_state::{Replacement, Tables, entry_about};
use std::alloc::Global;
use sub_reader::Opening;

// Room for an object that takes another's place, with its first handle. OutOfMemory is the only error.
fn object_ready(tables: &mut Tables, object: ObjId, conn: Conn) -> Result<(), Refusal>
    ensures content { content_in tables.new ≡ content_in tables.old }
    ensures objects { OnOk result (0 < tables.new.names.objects.room) }
    ensures place { OnOk result (0 < tables.new.handles.objects.room) }
    ensures room { OnOk result (0 < tables.new.handles.rows.room) }
    ensures connection { OnOk result (HasRoomForHandle conn tables.new.connections) }
    ensures err { IfErr result (λ r. r ≡ OutOfMemory) }
{
    tables.replace_ready()?;
    tables.open_ready(Found::Object(object), conn)
}

// Both records, with all memory to tell them. What stands stays. OutOfMemory is the only error.
fn told_both(
    tables: &mut Tables,
    alloc: Global,
    first: Entry,
    second: Entry,
) -> Result<(SharedRecord, SharedRecord), Refusal>
    ensures content { content_in tables.new ≡ content_in tables.old }
    ensures names { tables.new.names ≡ tables.old.names }
    ensures connections { tables.new.connections ≡ tables.old.connections }
    ensures kept { KeepsHandleRoom tables.old tables.new }
    ensures first { IfOk result (λ told. told.0.entry ≡ first) }
    ensures second { IfOk result (λ told. told.1.entry ≡ second) }
    ensures room { OnOk result (HasRoom (first ∷ second ∷ []) tables.new.handles) }
    ensures first_shared { IfOk result (λ told. IsShared told.0.count first tables.new.handles) }
    ensures second_shared { IfOk result (λ told. IsShared told.1.count second tables.new.handles) }
    ensures err { IfErr result (λ r. r ≡ OutOfMemory) }
{
    let entries = [first.share()?, second.share()?];
    tables.records_ready(&entries)?;
    let first = tables.handles().shares(alloc, first)?;
    let second = tables.handles().shares(alloc, second)?;
    Ok((first, second))
}

// The record of the creation of an object in another's place.
fn creation_of(tables: &Tables, alloc: Global, gone: ObjId, number: ObjId) -> Result<Entry, Refusal>
    requires { IsSome (live_object_in tables.now gone) }
    ensures ok { IfOk result (λ e. IsCreationFor e number gone tables.now) }
    ensures err { IfErr result (λ r. r ≡ OutOfMemory) }
{
    let Some(known) = tables.names().object(gone) else {
        unreachable!();
    };
    Ok(entry_about(
        alloc,
        number,
        known.directory(),
        known.name(),
        Kind::Created,
        None,
    )?)
}

// The place of a server's object in another's place.
fn site_of(tables: &Tables, alloc: Global, gone: ObjId, number: ObjId) -> Result<NewSite, Refusal>
    requires { IsSome (live_object_in tables.now gone) }
    ensures object { IfOk result (λ fresh. fresh.object ≡ number) }
    ensures site { IfOk result (λ fresh. IsServersSite fresh.site gone tables.now) }
    ensures err { IfErr result (λ r. r ≡ OutOfMemory) }
{
    let Some(known) = tables.names().object(gone) else {
        unreachable!();
    };
    let name = Bytes::from_slice(alloc, known.name())?;
    Ok(NewSite::of_object(alloc, number, name, true)?)
}

// Does nothing. Its contract is the law that the object of a number is what stands under it.
fn is_known(tables: &Tables, object: ObjId)
    ensures { IsKnownIn tables.now object }
{
    let _known = tables.names().object(object);
}

/// A server's object in another's place, with its server's handle, for which the memory is taken. What stands stays.
/// OutOfMemory is the only error.
pub(crate) fn replacing(
    tables: &mut Tables,
    alloc: Global,
    object: ObjId,
    nopersist: bool,
    opening: Opening,
) -> Result<Opens, Refusal>
    requires content { IsContent (content_in tables.old) }
    requires alive { IsSome (live_object_in tables.old object) }
    requires number { opening.number ≡ (content_in tables.old).next_handle }
    requires suits { suits opening.kind false true ≡ true }
    requires records { (content_in tables.old).records + 2 < 2 ^ 64 }
    requires objects { (content_in tables.old).next_object + 1 < 2 ^ 64 }
    ensures content { content_in tables.new ≡ content_in tables.old }
    ensures moves { IfOk result (λ o. TakesOver o object nopersist opening tables.old tables.new) }
    ensures ready { IfOk result (λ o. IsReady o tables.new) }
    ensures err { IfErr result (λ r. r ≡ OutOfMemory) }
{
    let number = ObjId::new(tables.names().next_object());
    let server = Some(opening.number);
    object_ready(tables, number, opening.connection)?;
    let site = site_of(tables, alloc, object, number)?;
    let deletion = entry_of(tables, alloc, object, Kind::Deleted)?;
    let creation = creation_of(tables, alloc, object, number)?;
    let (deletion, creation) = told_both(tables, alloc, deletion, creation)?;
    is_known(tables, object);
    let replacement = Replacement {
        object,
        nopersist,
        server,
        site,
        deletion,
        creation,
    };
    Ok(Opens::Replacing {
        replacement,
        opening,
    })
}
