//! What an open is refused for.
ghost use Rattle.std.specs.Prelude.{◌≡◌, ◌<◌, nat_le, length, true, false, None, IfOk};
ghost use Rattle.pps_types.specs.declared.found.Found.TheVariants.{Object as FoundObject};
ghost use Rattle.pps_types.specs.Content as content;
ghost use Rattle.pps_types.specs.Checks as checking;
ghost use Rattle.pps_types.specs.Checks.{handle_checks, object_checks, all_checks, name_checks, open_checks};
ghost use Rattle.name_table.specs.Listed.{objects_at};
ghost use Rattle.name_table.specs.Standing.{named_content};
ghost use Rattle.service_state.specs.Tables.{content_in};
ghost use Rattle.service_state.specs.Refused.{IsCheckedBy};
ghost use Rattle.path_requests.specs.Alive.{is_served_in};
ghost use Rattle.path_requests.specs.Checks.{alive_checks_in};
ghost use Rattle.path_requests.specs.Asked.{IsAsked, found_by, is_all};

use name_table::{Names, parent, questions_are_told};
use open_options::OpenSpec;
use pps_types::limits::{HANDLES_MAX, MEMBERS_MAX, OBJECTS_MAX};
use pps_types::{Bytes, DirId, Found, Handle, Mode, ObjId, Refusal};
use service_state::Tables;

/// What an open is on.
#[derive(Clone, Copy, Debug, PartialEq, Eq)]
pub(crate) enum Spot {
    /// All of a directory.
    All(DirId),
    /// An object that is alive.
    Alive(ObjId),
    /// A name that is free.
    Free,
}

/// What an open is on, with the number that its handle gets.
#[derive(Clone, Copy, Debug, PartialEq, Eq)]
pub(crate) struct NumberedSpot {
    pub(crate) number: Handle,
    pub(crate) spot: Spot,
}

/// Whether the letters go together: one of `r` and `w` at least, and `t` only with `w`.
pub(crate) fn letters_fit(mode: Mode) -> bool
    ensures { result ≡ checking.letters_fit mode }
{
    (mode.r || mode.w) && (!mode.t || mode.w)
}

// `.all` is only read, and a server reads and writes.
fn mode_fits(mode: Mode, spec: &OpenSpec) -> bool
    ensures { result ≡ checking.mode_fits mode spec.now }
{
    !(spec.all() && (mode.w || mode.c || mode.t)) && !(spec.server() && !(mode.r && mode.w))
}

// The number of one more handle.
fn new_number(tables: &Tables) -> Result<Handle, Refusal>
    ensures refusal { IsCheckedBy result (handle_checks (content_in tables.now)) }
    ensures number { IfOk result (λ number. number ≡ (content_in tables.now).next_handle) }
{
    let handles = tables.handles();
    if handles.len() >= HANDLES_MAX {
        return Err(Refusal::TableFull);
    }
    match u32::try_from(handles.next()) {
        Err(_) => Err(Refusal::TableFull),
        Ok(number) => Ok(Handle::new(number)),
    }
}

// Whether so few stand in the directory at a path that its objects need not be counted.
fn has_few(names: &Names, directory: &[Bytes]) -> bool
    ensures { result ≡ true → length (objects_at (named_content names.now) directory.now) < 256 }
{
    match names.members_lent(directory) {
        Err(_) => false,
        Ok(members) => members.len() < MEMBERS_MAX,
    }
}

// Whether there may be no more objects in the directory at a path.
fn is_full(names: &Names, directory: &[Bytes]) -> bool
    ensures { result ≡ nat_le 256 (length (objects_at (named_content names.now) directory.now)) }
{
    if has_few(names, directory) {
        return false;
    }
    names.objects_in(directory) >= MEMBERS_MAX
}

/// TableFull where there is no room for one more object at the path.
pub(crate) fn check_room(tables: &Tables, path: &[Bytes]) -> Result<(), Refusal>
    ensures { IsCheckedBy result (object_checks (content_in tables.now) path.now) }
{
    let names = tables.names();
    if is_full(names, parent(path)) {
        return Err(Refusal::TableFull);
    }
    if names.object_count() >= OBJECTS_MAX {
        return Err(Refusal::TableFull);
    }
    Ok(())
}

// Whether a handle is on an object.
fn has_handles(tables: &Tables, object: ObjId) -> bool
    ensures { result ≡ content.has_object_handle (content_in tables.now) object }
{
    tables.handles().has_handles(Found::Object(object))
}

/// Whether an object is a server object.
pub(crate) fn is_served(tables: &Tables, object: ObjId) -> bool
    ensures { result ≡ is_served_in tables.now object }
{
    match tables.names().object(object) {
        None => false,
        Some(known) => known.server().is_some(),
    }
}

// Whether an object has a handle, or a server.
fn is_used(tables: &Tables, object: ObjId) -> bool
    ensures { result ≡ checking.is_used (content_in tables.now) (FoundObject object) }
{
    has_handles(tables, object) || is_served(tables, object)
}

// The last element is `.all`.
fn check_all(tables: &Tables, found: Option<Found>) -> Result<NumberedSpot, Refusal>
    ensures refusal { IsCheckedBy result (all_checks (content_in tables.now) found) }
    ensures all { IfOk result (λ a. is_all a.spot ≡ true) }
    ensures spot { IfOk result (λ a. found ≡ found_by a.spot) }
    ensures number { IfOk result (λ a. a.number ≡ (content_in tables.now).next_handle) }
{
    let Some(found) = found else {
        return Err(Refusal::NotFound);
    };
    match found {
        Found::Object(_) => Err(Refusal::NotDirectory),
        Found::Directory(directory) => {
            let number = new_number(tables)?;
            let spot = Spot::All(directory);
            Ok(NumberedSpot { number, spot })
        }
    }
}

// A name that is free, where an object may be created.
fn check_free(tables: &Tables, mode: Mode, spec: &OpenSpec) -> Result<NumberedSpot, Refusal>
    ensures refusal { IsCheckedBy result (name_checks (content_in tables.now) mode spec.now None) }
    ensures spot { IfOk result (λ a. a.spot ≡ Spot.Free) }
    ensures number { IfOk result (λ a. a.number ≡ (content_in tables.now).next_handle) }
{
    if !mode.c {
        return Err(Refusal::NotFound);
    }
    let number = new_number(tables)?;
    check_room(tables, spec.path().names())?;
    let spot = Spot::Free;
    Ok(NumberedSpot { number, spot })
}

// An object that is alive, which a server may have only where nobody else does.
fn check_alive(
    tables: &Tables,
    mode: Mode,
    spec: &OpenSpec,
    object: ObjId,
) -> Result<NumberedSpot, Refusal>
    ensures refusal { IsCheckedBy result (alive_checks_in tables.now mode spec.now object) }
    ensures spot { IfOk result (λ a. a.spot ≡ Spot.Alive object) }
    ensures number { IfOk result (λ a. a.number ≡ (content_in tables.now).next_handle) }
{
    if spec.server() && is_used(tables, object) {
        return Err(Refusal::Busy);
    }
    let number = new_number(tables)?;
    let spot = Spot::Alive(object);
    Ok(NumberedSpot { number, spot })
}

// The last element is a name.
fn check_name(
    tables: &Tables,
    mode: Mode,
    spec: &OpenSpec,
    found: Option<Found>,
) -> Result<NumberedSpot, Refusal>
    ensures refusal { IsCheckedBy result (name_checks (content_in tables.now) mode spec.now found) }
    ensures all { IfOk result (λ a. is_all a.spot ≡ false) }
    ensures spot { IfOk result (λ a. found ≡ found_by a.spot) }
    ensures number { IfOk result (λ a. a.number ≡ (content_in tables.now).next_handle) }
{
    let Some(found) = found else {
        return check_free(tables, mode, spec);
    };
    match found {
        Found::Directory(_) => Err(Refusal::IsDirectory),
        Found::Object(object) => check_alive(tables, mode, spec, object),
    }
}

/// What an open is on, and the number of its handle.
///
/// The first that holds is told: BadMode where the letters do not go with `.all` or `server`; NotFound or NotDirectory where
/// the path leads to no place; with `.all` NotFound where nothing is there, and NotDirectory where an object is; else NotFound
/// where nothing is there and `c` is not set, IsDirectory where a directory is, Busy where a server opens what has a handle or
/// a server; and TableFull where there are too many handles, or too many objects for one more. It takes no memory.
pub(crate) fn check_open(
    tables: &Tables,
    mode: Mode,
    spec: &OpenSpec,
) -> Result<NumberedSpot, Refusal>
    ensures refusal { IsCheckedBy result (open_checks (content_in tables.now) mode spec.now) }
    ensures asked { IfOk result (IsAsked (content_in tables.now) mode spec.now) }
{
    questions_are_told();
    if !mode_fits(mode, spec) {
        return Err(Refusal::BadMode);
    }
    let found = match tables.names().place(spec.path().names()) {
        Err(refusal) => return Err(refusal),
        Ok(found) => found,
    };
    if spec.all() {
        return check_all(tables, found);
    }
    check_name(tables, mode, spec, found)
}
