//! Objects, created at their paths.
ghost use Rattle.std.specs.Prelude.{◌≡◌, ◌+◌, ◌<◌, ◌^◌, [], None, IfOk, IfErr, OnOk, OnErr};
ghost use Rattle.pps_types.specs.declared.refusal.Refusal.TheVariants.{OutOfMemory};
ghost use Rattle.pps_types.specs.Names as paths;
ghost use Rattle.pps_types.specs.Content as content;
ghost use Rattle.pps_types.specs.WellFormed.{IsContent};
ghost use Rattle.open_handles.specs.Whole.{handles_in};
ghost use Rattle.service_state.specs.Objects.{CanCreate};
ghost use Rattle.service_state.specs.Refused.{IsCheckedBy};
ghost use Rattle.service_state.specs.Tables.{content_in};
ghost use Rattle.service_state.specs.Tied.{Moves};
ghost use Rattle.path_requests.specs.Restored.{Yields, FailsAs, IsRestored, creation_of, new_object_checks, object_restored};

use crate::checks::check_room;
use crate::ways::directory_above;
use name_table::{last_name, questions_are_told};
use open_handles::NewSite;
use pps_types::{Bytes, Kind, ObjId, Refusal};
use service_state::{NewObject, Tables, entry_about};
use std::alloc::Global;

// Whether one more object can stand at a path.
fn check_new(tables: &Tables, path: &[Bytes]) -> Result<(), Refusal>
    ensures { IsCheckedBy result (new_object_checks tables.now path.now) }
{
    tables.check_free(path)?;
    check_room(tables, path)
}

// A plain object without attributes at a path, for which the memory is taken. OutOfMemory is the only error.
fn creating(tables: &mut Tables, alloc: Global, path: Vec<Bytes>) -> Result<NewObject, Refusal>
    requires content { IsContent (content_in tables.old) }
    requires free { paths.new_refusal (content.at (content_in tables.old)) path.items ≡ None }
    requires records { (content_in tables.old).records + 1 < 2 ^ 64 }
    requires objects { (content_in tables.old).next_object + 1 < 2 ^ 64 }
    ensures content { content_in tables.new ≡ content_in tables.old }
    ensures is { IfOk result (λ o. IsRestored o path.items tables.old tables.new) }
    ensures ready { IfOk result (λ o. CanCreate o tables.new) }
    ensures err { IfErr result (λ r. r ≡ OutOfMemory) }
{
    questions_are_told();
    let number = ObjId::new(tables.names().next_object());
    let directory = directory_above(tables, &path);
    let Ok(()) = tables.create_ready(&path) else {
        return Err(Refusal::OutOfMemory);
    };
    let name = last_name(&path);
    let site = NewSite::of_object(alloc, number, Bytes::from_slice(alloc, name)?, false)?;
    let entry = entry_about(alloc, number, directory, name, Kind::Created, None)?;
    let creation = tables.tell_ready(alloc, entry)?;
    Ok(NewObject {
        path,
        directory,
        nopersist: false,
        server: None,
        site,
        creation,
    })
}

// A plain object without attributes is created at a path, where no handle is open. OutOfMemory is the only error.
fn create_unheard(tables: &mut Tables, alloc: Global, path: Vec<Bytes>) -> Result<(), Refusal>
    requires content { IsContent (content_in tables.old) }
    requires free { paths.new_refusal (content.at (content_in tables.old)) path.items ≡ None }
    requires nobody { handles_in tables.old.handles ≡ [] }
    requires records { (content_in tables.old).records + 1 < 2 ^ 64 }
    requires objects { (content_in tables.old).next_object + 1 < 2 ^ 64 }
    ensures done { OnOk result (Moves (creation_of tables.old path.items) tables.old tables.new) }
    ensures kept { OnErr result (content_in tables.new ≡ content_in tables.old) }
    ensures err { IfErr result (λ r. r ≡ OutOfMemory) }
{
    questions_are_told();
    let directory = directory_above(tables, &path);
    let name = Bytes::from_slice(alloc, last_name(&path))?;
    let Ok(()) = tables.create_ready(&path) else {
        return Err(Refusal::OutOfMemory);
    };
    tables.create_unheard(path, directory, name);
    Ok(())
}

/// Creates a plain object without attributes at a path.
///
/// It is NotFound or NotDirectory where the path leads nowhere, Exists where something stands there, and TableFull where
/// 256 objects stand in its directory, where there are 65,535 objects, and where the object or the record of its creation
/// would pass the last number. Else OutOfMemory is the only error. After an error all is as it was.
pub fn restore_object(tables: &mut Tables, alloc: Global, path: Vec<Bytes>) -> Result<(), Refusal>
    requires { IsContent (content_in tables.old) }
    ensures done { OnOk result (Yields (object_restored tables.old path.items) tables.new) }
    ensures refused { IfErr result (λ r. FailsAs (object_restored tables.old path.items) r) }
    ensures kept { OnErr result (content_in tables.new ≡ content_in tables.old) }
{
    check_new(tables, &path)?;
    if tables.passes_last_number(1, 1, 0) {
        return Err(Refusal::TableFull);
    }
    if tables.handles().len() == 0 {
        create_unheard(tables, alloc, path)?;
        return Ok(());
    }
    let object = creating(tables, alloc, path)?;
    tables.create(object);
    Ok(())
}
