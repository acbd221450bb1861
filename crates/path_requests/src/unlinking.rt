//! Removing what stands at a path.
ghost use Rattle.std.specs.Prelude.{◌≡◌, Some, not, map, IfOk, IfErr, OnOk};
ghost use Rattle.std.specs.List.{AllByRecursion};
ghost use Rattle.pps_types.specs.declared.event.Request.TheVariants.{Unlink};
ghost use Rattle.pps_types.specs.declared.found.Found.TheVariants.{Directory as FoundDirectory};
ghost use Rattle.pps_types.specs.Bytes.{is_empty};
ghost use Rattle.pps_types.specs.Content as content;
ghost use Rattle.pps_types.specs.Checks.{unlink_checks};
ghost use Rattle.pps_types.specs.WellFormed.{IsContent};
ghost use Rattle.name_table.specs.Listed.{objects_at};
ghost use Rattle.service_state.specs.Beginning.{IsSharedBy};
ghost use Rattle.service_state.specs.Begun.{bare, telling};
ghost use Rattle.service_state.specs.Tables.{content_in};
ghost use Rattle.service_state.specs.Refused.{AllPass, Fails, IsCheckedBy, all_checks_in};
ghost use Rattle.path_requests.specs.FoundIn.{directory_number_in, find_in, found_in};
ghost use Rattle.path_requests.specs.Alive.{deletion_in};
ghost use Rattle.path_requests.specs.Checks.{unlink_found_in};
ghost use Rattle.path_requests.specs.Done.{DoesUnlink};
ghost use Rattle.path_requests.specs.Removed.{IsReady};

use crate::checks::is_served;
use crate::paths::read_names;
use name_table::questions_are_told;
use pps_types::{Bytes, Conn, DirId, Found, Kind, ObjId, Refusal};
use service_laws::events_are_settled;
use service_state::{Beginning, Tables, begin_ready, numbers_are_within, record_of, tell};
use std::alloc::{AllocError, Global};

/// What an Unlink removes.
#[derive(Drop)]
pub enum Unlinked {
    /// An object is deleted, and its record is told.
    Object(Vec<Beginning>),
    /// A directory in which nothing stands.
    Directory(DirId),
}

// Whether an object stands directly in the directory at a path.
fn has_objects(tables: &Tables, path: &[Bytes]) -> bool
    ensures { result ≡ not (is_empty (objects_at (content_in tables.now) path.now)) }
{
    tables.names().objects_in(path) > 0
}

// Whether a directory stands directly in the one at a path.
fn has_directories(tables: &Tables, path: &[Bytes]) -> bool
    ensures { result ≡ not (is_empty (content.subdirectories (content_in tables.now) path.now)) }
{
    tables.names().directories_in(path) > 0
}

// Whether a handle is on a directory.
fn is_used(tables: &Tables, directory: DirId) -> bool
    ensures { result ≡ content.has_directory_handle (content_in tables.now) directory }
{
    tables.handles().has_handles(Found::Directory(directory))
}

// Whether the directory at a path may be removed.
fn check_directory(tables: &Tables, path: &[Bytes], directory: DirId) -> Result<(), Refusal>
    requires { directory_number_in tables.now path.now ≡ Some directory }
    ensures { IsCheckedBy result (unlink_found_in tables.now path.now (FoundDirectory directory)) }
{
    if has_objects(tables, path) {
        return Err(Refusal::NotEmpty);
    }
    if has_directories(tables, path) {
        return Err(Refusal::NotEmpty);
    }
    if is_used(tables, directory) {
        return Err(Refusal::Busy);
    }
    Ok(())
}

// Whether what is found at a path may be removed.
fn check_found(tables: &Tables, path: &[Bytes], found: Found) -> Result<(), Refusal>
    requires { found_in tables.now path.now ≡ Some found }
    ensures { IsCheckedBy result (unlink_found_in tables.now path.now found) }
{
    match found {
        Found::Directory(directory) => check_directory(tables, path, directory),
        Found::Object(object) => {
            if is_served(tables, object) {
                return Err(Refusal::Busy);
            }
            Ok(())
        }
    }
}

// What stands at a path.
fn find(tables: &Tables, path: &[Bytes]) -> Result<Found, Refusal>
    ensures { result ≡ find_in tables.now path.now }
{
    questions_are_told();
    tables.names().find(path)
}

// The same object or directory.
fn same(found: &Found) -> Found
    ensures { result ≡ found.now }
{
    *found
}

// Whether what stands at a path may be removed, and what that is.
fn check_unlink(tables: &Tables, path: &[Bytes]) -> Result<Found, Refusal>
    ensures refusal { IsCheckedBy result (unlink_checks (content_in tables.now) path.now) }
    ensures found { IfOk result (λ found. found_in tables.now path.now ≡ Some found) }
{
    if path.is_empty() {
        return Err(Refusal::Busy);
    }
    let found = match find(tables, path) {
        Err(refusal) => return Err(refusal),
        Ok(found) => found,
    };
    match check_found(tables, path, same(&found)) {
        Err(refusal) => Err(refusal),
        Ok(()) => Ok(found),
    }
}

// What the deletion of an object begins with. AllocError comes only where memory is wanting.
fn deletion(tables: &Tables, alloc: Global, object: ObjId) -> Result<Vec<Beginning>, AllocError>
    ensures begun { IfOk result (λ b. map bare b.items ≡ telling (deletion_in tables.now object)) }
    ensures shared { IfOk result (λ b. AllByRecursion (IsSharedBy tables.now.handles) b.items) }
{
    questions_are_told();
    let mut beginning = Vec::new(alloc);
    let Some(known) = tables.names().object(object) else {
        return Ok(beginning);
    };
    let entry = record_of(alloc, known, Kind::Deleted, None)?;
    tell(&mut beginning, tables, alloc, entry)?;
    Ok(beginning)
}

/// What an Unlink of a path removes, with all memory taken for it. What stands stays.
///
/// It is BadPath where the text is no path, Busy at the root, NotFound or NotDirectory where nothing stands at the path, Busy
/// where the object there is a server's, NotEmpty where something stands in the directory there, Busy where a handle is on
/// that directory, and TableFull where the record of an object's deletion would pass the last number. Else OutOfMemory is the
/// only error.
pub fn unlink(
    tables: &mut Tables,
    alloc: Global,
    conn: Conn,
    path: &Bytes,
) -> Result<Unlinked, Refusal>
    requires { IsContent (content_in tables.old) }
    ensures content { content_in tables.new ≡ content_in tables.old }
    ensures passes { OnOk result (AllPass (all_checks_in tables.old conn (Unlink path.now))) }
    ensures does { IfOk result (λ unlinked. DoesUnlink unlinked conn path.now tables.old) }
    ensures ready { IfOk result (λ unlinked. IsReady unlinked tables.new) }
    ensures err { IfErr result (λ r. Fails (all_checks_in tables.old conn (Unlink path.now)) r) }
{
    events_are_settled();
    numbers_are_within(tables);
    let names = read_names(alloc, path)?;
    let found = check_unlink(tables, &names)?;
    let object = match found {
        Found::Directory(directory) => return Ok(Unlinked::Directory(directory)),
        Found::Object(object) => object,
    };
    let beginning = deletion(tables, alloc, object)?;
    begin_ready(tables, alloc, &beginning)?;
    Ok(Unlinked::Object(beginning))
}
