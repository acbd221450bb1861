//! Lines, added to objects.
ghost use Rattle.std.specs.Prelude.{◌≡◌, ◌∷◌, [], Ok, IfOk, IfErr, IfSome, OnOk, OnErr, IsSome};
ghost use Rattle.pps_types.specs.declared.found.Found.TheVariants.{Object as FoundObject};
ghost use Rattle.pps_types.specs.declared.record.Kind.TheVariants.{Change};
ghost use Rattle.pps_types.specs.declared.refusal.Refusal.TheVariants.{OutOfMemory};
ghost use Rattle.pps_types.specs.Restore as restoring;
ghost use Rattle.pps_types.specs.WellFormed.{IsContent};
ghost use Rattle.name_table.specs.Standing.{AreReadyFor};
ghost use Rattle.open_handles.specs.Whole.{HasRoom, IsShared};
ghost use Rattle.service_state.specs.Lines.{HasLines};
ghost use Rattle.service_state.specs.Refused.{IsKnownIn, live_object_in};
ghost use Rattle.service_state.specs.Tables.{content_in};
ghost use Rattle.path_requests.specs.FoundIn.{find_in};
ghost use Rattle.path_requests.specs.Alive.{IsRecordOf, StaysWithinLimits, FailsAtLimits, has_attribute};
ghost use Rattle.path_requests.specs.Restored.{Yields, FailsAs, RefusesEachLine, line_restored};

use name_table::questions_are_told;
use open_handles::SharedRecord;
use pps_filter::Name;
use pps_types::{Bytes, Found, HeldLine, Kind, LineRef, Lines, ObjId, Refusal};
use service_state::{Tables, record_of};
use std::alloc::{AllocError, Global};
use std::slice::from_ref;

// The object at a path.
fn object_at(tables: &Tables, path: &[Bytes]) -> Result<ObjId, Refusal>
    ensures ok { IfOk result (λ object. find_in tables.now path.now ≡ Ok (FoundObject object)) }
    ensures err { IfErr result (λ r. RefusesEachLine tables.now path.now r) }
{
    questions_are_told();
    let found = match tables.names().find(path) {
        Err(refusal) => return Err(refusal),
        Ok(found) => found,
    };
    match found {
        Found::Object(object) => Ok(object),
        Found::Directory(_) => Err(Refusal::IsDirectory),
    }
}

// The name that a line sets or deletes.
fn name_of(alloc: Global, line: &HeldLine) -> Result<Name, AllocError>
    ensures { IfOk result (λ name. name ≡ restoring.name_of line.now) }
{
    let name = match line.parts() {
        LineRef::Set { name, .. } => name,
        LineRef::Del { name } => name,
    };
    Ok(Name::new(Bytes::from_slice(alloc, name)?))
}

// Whether an object has an attribute of that name.
fn has_attribute(tables: &Tables, object: ObjId, name: &Name) -> bool
    ensures { IfSome (live_object_in tables.now object) (λ o. result ≡ has_attribute name.now o) }
{
    match tables.names().object(object) {
        None => false,
        Some(known) => known.attributes().has(name),
    }
}

// Does nothing. Its contract is the law that an object is found as it stands.
fn objects_are_placed(tables: &Tables, object: ObjId)
    ensures { IsKnownIn tables.now object }
{
    let _known = tables.names().object(object);
}

// Takes the memory for lines of an object. It is TooLarge exactly where the object would pass its limits, and else
// OutOfMemory is the only error.
fn lines_ready(tables: &mut Tables, object: ObjId, lines: &[HeldLine]) -> Result<(), Refusal>
    requires { IsSome (live_object_in tables.old object) }
    ensures content { content_in tables.new ≡ content_in tables.old }
    ensures passes { OnOk result (StaysWithinLimits object lines.now tables.old) }
    ensures ready { OnOk result (AreReadyFor object lines.now tables.new.names) }
    ensures err { IfErr result (λ r. FailsAtLimits object lines.now tables.old r) }
{
    objects_are_placed(tables, object);
    tables.change_ready(object, lines)
}

// The record of a change of an object by a line that is ready, with the memory to tell it. OutOfMemory is the only error.
fn change_told(
    tables: &mut Tables,
    alloc: Global,
    object: ObjId,
    line: HeldLine,
) -> Result<SharedRecord, Refusal>
    requires alive { IsSome (live_object_in tables.old object) }
    requires lines { AreReadyFor object (line ∷ []) tables.old.names }
    ensures content { content_in tables.new ≡ content_in tables.old }
    ensures entry { IfOk result (λ t. IsRecordOf t.entry object (Change (line ∷ [])) tables.old) }
    ensures lines { IfOk result (λ told. HasLines told.entry tables.new.names) }
    ensures room { IfOk result (λ told. HasRoom (told.entry ∷ []) tables.new.handles) }
    ensures shared { IfOk result (λ told. IsShared told.count told.entry tables.new.handles) }
    ensures err { IfErr result (λ r. r ≡ OutOfMemory) }
{
    let Some(known) = tables.names().object(object) else {
        unreachable!();
    };
    let entry = record_of(alloc, known, Kind::Change(Lines::one(line)), None)?;
    tables.tell_ready(alloc, entry)
}

/// Adds an attribute to the object at a path, by the line that sets it.
///
/// It is NotFound or NotDirectory where the path leads nowhere, IsDirectory where a directory stands there, Exists where
/// the object has an attribute of that name, TooLarge where it would pass a limit of objects, and TableFull where the
/// record would pass the last number. Else OutOfMemory is the only error. After an error all is as it was.
pub fn restore_line(
    tables: &mut Tables,
    alloc: Global,
    path: &[Bytes],
    line: HeldLine,
) -> Result<(), Refusal>
    requires { IsContent (content_in tables.old) }
    ensures done { OnOk result (Yields (line_restored tables.old path.now line) tables.new) }
    ensures refused { IfErr result (λ r. FailsAs (line_restored tables.old path.now line) r) }
    ensures kept { OnErr result (content_in tables.new ≡ content_in tables.old) }
{
    let name = name_of(alloc, &line)?;
    let object = object_at(tables, path)?;
    if has_attribute(tables, object, &name) {
        return Err(Refusal::Exists);
    }
    let change = from_ref(&line);
    lines_ready(tables, object, change)?;
    if tables.passes_last_number(1, 0, 0) {
        return Err(Refusal::TableFull);
    }
    if tables.handles().len() == 0 {
        objects_are_placed(tables, object);
        tables.change_unheard(object, change);
        return Ok(());
    }
    let told = change_told(tables, alloc, object, line)?;
    tables.happen(told);
    Ok(())
}
